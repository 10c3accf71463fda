use mdg_base::{Home, Items, Kind, Text};

/// A listed name: a global, a module or a member of one of them.
#[derive(Debug, Drop)]
pub struct Entry {
    /// Where the name stands. A member has the home of its base.
    pub home: Home,

    /// The name of the global or the module.
    pub name: Text,

    /// The member that is listed. Where there is none, the name itself is.
    pub member: Option<Text>,

    /// What its call does.
    pub kind: Kind,
}

/// What is known of the names outside the package, in their order.
#[derive(Debug, Drop)]
pub struct Profile {
    pub entries: Items<Entry>,
}

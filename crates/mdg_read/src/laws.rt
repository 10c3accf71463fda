//! Laws of the trees of files, whatever reads them.

ghost use Rattle.mdg_read.specs.Answers.{HasOneAnswer, HasOneDueItem, HasOneTree, HasSomeAnswer, HasOrderedTrees, IsNeverBoth, ReadsAllWithinLimit, ReadsWhatIsSpelled, ReadsWithinLimit};

/// The law of the tree: at most one, of a height that is allowed, spells the tokens of a file, none does where
/// an item is due and none begins, and at most one item is due.
pub fn law_tree()
    ensures one_tree { HasOneTree }
    ensures never_both { IsNeverBoth }
    ensures one_due_item { HasOneDueItem }
{}

/// The law of the answers of `read_file`: but for the refusal of memory, tokens have one, and no other.
pub fn law_answers()
    ensures at_most_one { HasOneAnswer }
    ensures at_least_one { HasSomeAnswer }
{}

/// The law of the reference reader: it reads what is spelled and no higher than its limit, all of it and nothing else.
pub fn law_parser()
    ensures spelled { ReadsWhatIsSpelled }
    ensures low { ReadsWithinLimit }
    ensures all { ReadsAllWithinLimit }
{}

/// The law of the order of offsets: where the tokens stand one after another, those of their tree ascend.
pub fn law_order()
    ensures { HasOrderedTrees }
{}

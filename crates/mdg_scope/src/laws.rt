//! Laws of the bindings of a file.

ghost use Rattle.mdg_scope.specs.Bindings.{HasOneAnswer, HasSomeAnswer};
ghost use Rattle.mdg_scope.specs.OccurrenceOrder.{KeepsOrder};

/// The law of the answers of `bind`: but for the refusal of memory, a tree has one at a path and under a profile, and
/// no other.
pub fn law_answers()
    ensures at_most_one { HasOneAnswer }
    ensures at_least_one { HasSomeAnswer }
{}

/// The law of order: where the offsets of a tree ascend in the order of its tokens, its functions, its calls of
/// `require` and the first appearances of its names stand in the order of their offsets.
pub fn law_order()
    ensures { KeepsOrder }
{}

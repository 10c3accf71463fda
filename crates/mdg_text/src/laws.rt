//! Laws of the tokens of a text.

ghost use Rattle.mdg_text.specs.Causes.{HasOneAnswer, HasOneList, HasOneStop, HasSomeAnswer, IsNeverBoth};
ghost use Rattle.mdg_text.specs.TokenOrder.{StandInOrder};

/// The law of the list of tokens: a text has at most one, it never has one together with an offset at which
/// no token begins, and there is at most one such offset.
pub fn law_tokens()
    ensures one_list { HasOneList }
    ensures never_both { IsNeverBoth }
    ensures one_stop { HasOneStop }
{}

/// The law of the answers of `tokens`: but for the refusal of memory, bytes have one, and no other.
pub fn law_answers()
    ensures at_most_one { HasOneAnswer }
    ensures at_least_one { HasSomeAnswer }
{}

/// The law of the order of tokens: each begins where the one before it ends, or later.
pub fn law_order()
    ensures { StandInOrder }
{}

//! The contract of what holds facts.
ghost use Rattle.std.specs.Prelude.{◌≡◌, ℕ, ◌+◌, ◌*◌, ◌<◌};
ghost use Rattle.mdg_site.specs.Facts.{Has, bit};
ghost use Rattle.mdg_site.specs.Holders.{Answers, Flowed, Holder, IsFirm, IsRanged, Looks, MayAdd, MayJoin};
ghost use Rattle.mdg_site.specs.Nodes.{node_count};
ghost use Rattle.mdg_site.specs.Rows.{row_count, width_of};

use mdg_base::Node;

/// A holder of facts: it tells a layout and a set of facts, and facts that the rules give may be added to it.
/// A holder that keeps has what was added; one that doesn't tells only that something would have been new.
pub trait Facts {
    /// What the holder tells.
    ghost state: { Self → Holder };

    /// How a later state came from an earlier one.
    ghost led: { Self → Self → Type 0 };

    /// Whether the node is in the row, both by their numbers.
    fn has(&mut self, row: u32, node: Node) -> bool
        requires row_in_range { row < row_count (state self.old).layout }
        requires node_in_range { node.0 < node_count (state self.old).layout }
        ensures answer { result ≡ (state self.new).facts row node.0 }
        ensures looks { Looks (state self.old) (state self.new) }
        ensures course { led self.old self.new };

    /// The facts of the row's 64 nodes from 64 * word on, the first one's as the lowest bit.
    fn bits(&mut self, row: u32, word: u32) -> u64
        requires row_in_range { row < row_count (state self.old).layout }
        requires word_in_range { word < width_of (state self.old).layout }
        ensures bits { (b : ℕ) → b < 64 → bit result b ≡ (state self.new).facts row (64 * word + b) }
        ensures looks { Looks (state self.old) (state self.new) }
        ensures course { led self.old self.new };

    /// Adds that the node is in the row, which a rule gives. Whether it was new to the holder.
    fn add(&mut self, row: u32, node: Node) -> bool
        requires row_in_range { row < row_count (state self.old).layout }
        requires node_in_range { node.0 < node_count (state self.old).layout }
        requires given { MayAdd (state self.old) row node.0 }
        ensures there { IsFirm (state self.new) → Has (state self.new).facts row node.0 }
        ensures answers { Answers (state self.old) (state self.new) result }
        ensures course { led self.old self.new };

    /// Adds each node of the first row to the second, which a rule gives. Whether one was new to the holder.
    fn join(&mut self, source: u32, goal: u32) -> bool
        requires source_in_range { source < row_count (state self.old).layout }
        requires goal_in_range { goal < row_count (state self.old).layout }
        requires given { MayJoin (state self.old) source goal }
        ensures there { Flowed (state self.old) (state self.new) source goal }
        ensures answers { Answers (state self.old) (state self.new) result }
        ensures course { led self.old self.new };

    ghost led_refl: { (x : Self) → led x x };

    ghost led_trans: { (x y z : Self) → led x y → led y z → led x z };

    ghost ranged: { (x : Self) → IsRanged (state x) };
}

//! What a store with the tables of hooks keeps.

use store_history::Law;

/// A law of a store in which a root names the tables of each hook.
///
/// It tells the tables of a hook after each number of the edits that commits carry. Whoever states it decides
/// what these are.
pub trait HeadLaw: Law {
    ghost use Rattle.block_codec.specs.declared.places.TheConstants.{TABLES};
    ghost use Rattle.std.specs.Prelude.{◌≡◌, ℕ, List, length, take, ◌≤◌};
    ghost use Rattle.tc_base.specs.declared.hook.Hook.{Hook};
    ghost use Rattle.store_history.specs.declared.history.Commit.{Commit};
    ghost use Rattle.store_history.specs.History.{root_of, edits_of};
    ghost use Rattle.miniq_pair.specs.Heads.{PlainTable, head_root, TellsHead};

    /// The tables of a hook after the first k edits, in order, with the serials of their masks.
    ghost heads: { List (Commit Self.Entry) → ℕ → Hook → List PlainTable };

    ghost tells: { (h : List (Commit Self.Entry)) (b n : ℕ) (hook : Hook) → Self.keeps h b → b ≤ n
        → n ≤ length h
        → TellsHead (λ k. heads h k hook) (root_of (take n h) (head_root hook))
        (length (edits_of (take n h))) };

    // A hook has 256 tables at most. That a table has 16 masks at most is its block's own limit.
    ghost few: { (h : List (Commit Self.Entry)) (b k : ℕ) (hook : Hook) → Self.keeps h b → b ≤ length h
        → length (heads h k hook) ≤ TABLES };
}

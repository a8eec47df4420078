//! The laws of histories.
ghost use Rattle.std.specs.Prelude.{◌≡◌, ◌≢◌, ◌≤◌, ◌⊎◌, ℕ, List, [], ◌∷◌, ◌++◌, length, slice_get, Some};
ghost use mathlib.Core.List.{IsPrefix};
ghost use Rattle.store_history.specs.declared.history.Commit.{Commit};
ghost use Rattle.store_history.specs.declared.history.Link.{Link};
ghost use Rattle.store_history.specs.History.{root_of, edits_of, IsNamed};

/// A commit decides what its own root names, and what other roots name stays.
pub fn one_root_changes<E>()
    ensures own { (h : List (Commit E)) (c : Commit E) → root_of (h ++ c ∷ []) c.root ≡ c.named }
    ensures others { (h : List (Commit E)) (c : Commit E) (root : ℕ) → c.root ≢ root
        → root_of (h ++ c ∷ []) root ≡ root_of h root }
{}

/// What was named since some moment is so in every longer history, and a commit adds the blocks of its own
/// chain alone.
pub fn named_blocks_grow<E>()
    ensures kept { (b : ℕ) (h longer : List (Commit E)) (l : Link) → IsPrefix h longer → IsNamed b h l
        → IsNamed b longer l }
    ensures added { (b : ℕ) (h : List (Commit E)) (c : Commit E) (l : Link) → b ≤ length h
        → IsNamed b (h ++ c ∷ []) l
        → IsNamed b h l ⊎ ((place : ℕ) × (slice_get c.named.chain place ≡ Some l)) }
    ensures later { (b later : ℕ) (h : List (Commit E)) (l : Link) → b ≤ later → IsNamed later h l
        → IsNamed b h l }
{}

/// The edits of a history are those of its beginning, and then those of the rest.
pub fn edits_grow<E>()
    ensures { (h rest : List (Commit E)) → edits_of (h ++ rest) ≡ edits_of h ++ edits_of rest }
{}

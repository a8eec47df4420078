//! What a store with masks keeps.

use store_history::Law;

/// A law of a store in which masks stand at slots.
///
/// It tells which mask stands at a slot after some commits, and the words and the filters of a mask after
/// each number of the edits that commits carry. Whoever states it decides what these are; what a look-up
/// tells rests on what is said here alone.
pub trait MaskLaw: Law {
    ghost use Rattle.std.specs.Prelude.{◌≡◌, ℕ, List, length, take, slice_get, Some, ◌<◌, ◌≤◌};
    ghost use Rattle.store_history.specs.declared.history.Commit.{Commit};
    ghost use Rattle.store_history.specs.History.{root_of};
    ghost use Rattle.store_history.specs.Reads.{read_first};
    ghost use Rattle.block_codec.specs.declared.mask.StoredMask.{StoredMask};
    ghost use Rattle.block_codec.specs.declared.filter.StoredFilter.{StoredFilter};
    ghost use Rattle.block_codec.specs.OfReadings.Read.{mask_of_words};
    ghost use Rattle.mask_table.specs.Buckets.{mask_root};
    ghost use Rattle.mask_table.specs.Told.{edits_by, TellsMask, Stood, BucketTold};

    /// The mask with this serial stands at the slot after the commits.
    ghost stands: { List (Commit Self.Entry) → ℕ → ℕ → Type 0 };

    /// The words of a mask after the first k edits.
    ghost words: { List (Commit Self.Entry) → ℕ → ℕ → List ℕ };

    /// The filters of a mask after the first k edits, with the slots of their actions.
    ghost filters: { List (Commit Self.Entry) → ℕ → ℕ → List StoredFilter };

    ghost stood: { (h : List (Commit Self.Entry)) (b n slot serial : ℕ) → Self.keeps h b → b ≤ n
        → n ≤ length h → stands (take n h) slot serial
        → Stood stands h n slot serial };

    ghost tells: { (h : List (Commit Self.Entry)) (b n slot serial : ℕ) → Self.keeps h b → b ≤ n
        → n ≤ length h → stands (take n h) slot serial
        → TellsMask (λ k. words h k serial) (λ k. filters h k serial) (root_of (take n h) (mask_root slot))
        (edits_by h n) };

    ghost buckets: { (h : List (Commit Self.Entry)) (b n slot serial bucket : ℕ) (mask : StoredMask)
        → Self.keeps h b → b ≤ n → n ≤ length h
        → stands (take n h) slot serial → read_first mask_of_words (root_of (take n h) (mask_root slot)).chain
        ≡ Some mask → bucket < mask.size
        → BucketTold stands (λ k. filters h k serial) h n slot serial bucket mask };

    // No two filters of a mask have the same key, so an answer of a look-up is the only one.
    ghost distinct: { (h : List (Commit Self.Entry)) (b k serial one other : ℕ) (f g : StoredFilter)
        → Self.keeps h b → b ≤ length h
        → slice_get (filters h k serial) one ≡ Some f → slice_get (filters h k serial) other ≡ Some g
        → f.key.words ≡ g.key.words → one ≡ other };
}

//! What the law tells a reader, in the states of the whole history that it has seen.
ghost use Rattle.std.specs.Prelude.{◌≡◌, ◌-◌, ◌<◌, ◌≤◌, ◌++◌, ℕ, List, length, map, take, slice_get, Some};
ghost use Rattle.store_history.specs.declared.history.Commit.{Commit};
ghost use Rattle.store_history.specs.History.{root_of, edits_of};
ghost use Rattle.hook_law.specs.Places.{hooks, rows, head_root, mask_root, row_of};
ghost use Rattle.hook_law.specs.Records.{MaskRecord, FilterRecord, StatedFilter, stated_filter};
ghost use Rattle.hook_law.specs.Chains.{read_all, read_first, bucket_of};
ghost use Rattle.hook_law.specs.Meaning.{point_of, state_at};
ghost use Rattle.hook_law.specs.Standing.{Region, Role, Head, Mask, Bucket, region_of, IsMaskAt, IsRowAt};
ghost use Rattle.hook_law.specs.Standing.{IsSlotOf, Stands};
ghost use Rattle.hook_law.specs.Telling.{SizeFits, Tells};
ghost use Rattle.hook_law.specs.Keeping.{Keeps};
ghost use Rattle.hook_law.specs.Slots.{slot_of, slotted};
ghost use Rattle.hook_law.specs.Told.{Told, ToldMask, ToldRow};

use crate::terms::Terms;

/// The root of what stood at some time since the base tells it, from the root's stamp up to the point of a
/// time, no earlier, at which it stood.
pub fn roots_tell<T: Terms>()
    ensures { (h : List (Commit T.Edit)) (b n r : ℕ) (role : Role) → Keeps T.meaning T.codec h b → b ≤ n
        → n ≤ length h
        → Stands T.meaning T.codec (take n h) r role → Told T.meaning T.codec h n r role }
{}

/// The stamp of a root at which something stood since the base never falls, whatever commits come. So of two
/// visits of one thing the later one has no lower stamp.
pub fn stamps_rise<T: Terms>()
    ensures { (h more : List (Commit T.Edit)) (b n r : ℕ) (role : Role)
        → Keeps T.meaning T.codec (h ++ more) b → b ≤ n → n ≤ length h
        → Stands T.meaning T.codec (take n h) r role → (root_of h r).stamp ≤ (root_of (h ++ more) r).stamp }
{}

/// A head stands always, so its root tells it up to the last point.
pub fn heads_tell<T: Terms>()
    ensures { (h : List (Commit T.Edit)) (b hook : ℕ) → Keeps T.meaning T.codec h b → b ≤ length h
        → hook < hooks
        → Tells T.meaning T.codec (edits_of h) (Head hook) (root_of h (head_root hook)) (point_of h) }
{}

/// For a look-up of a mask that had a slot at some time since the base. The slot's root names what it named
/// at a later time at which the mask had the slot. What it named at such a time it tells up to that time's
/// point. And the root of a bucket that the record of such a time names tells the bucket up to the point of a
/// still later time, at which the root of the mask had the same stamp and size. Up to that point the record
/// that was read is right as well.
pub fn masks_tell<T: Terms>()
    ensures stood { (h : List (Commit T.Edit)) (b n m slot : ℕ) → Keeps T.meaning T.codec h b → b ≤ n
        → n ≤ length h
        → IsMaskAt T.codec (take n h) m slot → ToldMask T.codec h n m slot }
    ensures mask { (h : List (Commit T.Edit)) (b n m slot : ℕ) → Keeps T.meaning T.codec h b → b ≤ n
        → n ≤ length h
        → IsMaskAt T.codec (take n h) m slot
        → Tells T.meaning T.codec (edits_of h) (Mask m) (root_of (take n h) (mask_root slot))
        (point_of (take n h)) }
    ensures row { (h : List (Commit T.Edit)) (b n m slot k row : ℕ) (mask : MaskRecord)
        → Keeps T.meaning T.codec h b → b ≤ n
        → n ≤ length h → IsMaskAt T.codec (take n h) m slot
        → read_first T.codec.mask (root_of (take n h) (mask_root slot)).chain ≡ Some mask → k < mask.size
        → slice_get mask.rows (row_of k) ≡ Some row → row < rows
        → ToldRow T.meaning T.codec h n (region_of slot m (root_of (take n h) (mask_root slot)).stamp mask) k
        row }
    ensures record { (h : List (Commit T.Edit)) (b n at m slot k row p : ℕ) (mask : MaskRecord)
        → Keeps T.meaning T.codec h b
        → b ≤ n → n ≤ at → at ≤ length h → IsMaskAt T.codec (take n h) m slot
        → read_first T.codec.mask (root_of (take n h) (mask_root slot)).chain ≡ Some mask
        → IsRowAt T.codec (take at h) (region_of slot m (root_of (take n h) (mask_root slot)).stamp mask) k
        row
        → (root_of (take n h) (mask_root slot)).stamp ≤ p → p ≤ point_of (take at h)
        → (T.meaning.words (state_at T.meaning (edits_of h) p) m ≡ mask.words)
        × SizeFits T.meaning mask.size m (state_at T.meaning (edits_of h) (p - 1))
        (state_at T.meaning (edits_of h) p) }
{}

/// An action's slot is the one to which the first commit puts it, and so the filters that a bucket's chain
/// read as, at a time since the base at which the bucket stood, are the state's with those slots.
pub fn slots_tell<T: Terms>()
    ensures slot { (h : List (Commit T.Edit)) (b a slot : ℕ) → b ≤ length h → Keeps T.meaning T.codec h b
        → IsSlotOf T.codec h a slot → slot ≡ slot_of T.codec h a }
    ensures filters { (h : List (Commit T.Edit)) (b n r : ℕ) (q : Region) (k : ℕ) (fs : List FilterRecord)
        (filters : List StatedFilter)
        → Keeps T.meaning T.codec h b → b ≤ n → n ≤ length h
        → Stands T.meaning T.codec (take n h) r (Bucket q k)
        → read_all T.codec.filter (root_of (take n h) r).chain ≡ Some fs
        → map stated_filter fs ≡ bucket_of T.meaning.hash q.size k filters
        → fs ≡ map (slotted T.codec h) (bucket_of T.meaning.hash q.size k filters) }
{}

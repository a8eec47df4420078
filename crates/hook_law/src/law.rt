//! The law at the start, and under a rising base.
ghost use Rattle.std.specs.Prelude.{◌≡◌, ◌≢◌, ◌≤◌, ℕ, List, [], ◌∷◌, ◌++◌, length, take, slice_get, Some};
ghost use Rattle.store_history.specs.declared.history.Commit.{Commit};
ghost use Rattle.hook_law.specs.Places.{bucket_root};
ghost use Rattle.hook_law.specs.Case.{small_meaning, small_codec, small_prepared, small_head, small_region};
ghost use Rattle.hook_law.specs.Meaning.{StartsEmpty};
ghost use Rattle.hook_law.specs.Standing.{Role, Bucket, Stands, IsUnused};
ghost use Rattle.hook_law.specs.Keeping.{Keeps};

use crate::terms::Terms;

/// The law holds of no commits, where the state before any edit is empty.
pub fn law_opens<T: Terms>()
    ensures { StartsEmpty T.meaning → Keeps T.meaning T.codec [] 0 }
{}

/// The law stays when the base rises.
pub fn base_rises<T: Terms>()
    ensures { (h : List (Commit T.Edit)) (b later : ℕ) → b ≤ later → Keeps T.meaning T.codec h b
        → Keeps T.meaning T.codec h later }
{}

/// A root at which nothing stands at the end is unused from there on. It stays unused when the base rises,
/// and after a commit with which nothing comes to stand there.
pub fn unused_roots<T: Terms>()
    ensures gone { (h : List (Commit T.Edit)) (r : ℕ)
        → ((role : Role) → Stands T.meaning T.codec h r role → ⊥)
        → IsUnused T.meaning T.codec (length h) h r }
    ensures rises { (h : List (Commit T.Edit)) (b later r : ℕ) → b ≤ later → IsUnused T.meaning T.codec b h r
        → IsUnused T.meaning T.codec later h r }
    ensures stays { (h : List (Commit T.Edit)) (b : ℕ) (c : Commit T.Edit) (r : ℕ)
        → ((role : Role) → Stands T.meaning T.codec (h ++ c ∷ []) r role → ⊥)
        → IsUnused T.meaning T.codec b h r
        → IsUnused T.meaning T.codec b (h ++ c ∷ []) r }
{}

/// What stood since the base and left: from then on its root gets no commit.
pub fn what_left<T: Terms>()
    ensures { (h : List (Commit T.Edit)) (b n since m r : ℕ) (role : Role) (c : Commit T.Edit)
        → Keeps T.meaning T.codec h b
        → b ≤ n → n ≤ since → Stands T.meaning T.codec (take n h) r role
        → ((later : ℕ) → since ≤ later → later ≤ length h → Stands T.meaning T.codec (take later h) r role
        → ⊥) → since ≤ m
        → slice_get h m ≡ Some c → c.root ≢ r }
{}

/// A small hook: a mask and its buckets are put, one with a filter, and the head's commit names the mask. The
/// law holds of it, and the root of the filter's bucket stands for that bucket.
pub fn small_hook()
    ensures keeps { Keeps small_meaning small_codec (small_prepared ++ small_head ∷ []) 0 }
    ensures stands { Stands small_meaning small_codec (small_prepared ++ small_head ∷ []) (bucket_root 0 0)
        (Bucket small_region 0) }
{}

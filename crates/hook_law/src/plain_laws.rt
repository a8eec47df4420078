//! The laws of commits without a number.
ghost use Rattle.std.specs.Prelude.{◌≡◌, ◌≢◌, ◌≤◌, ◌+◌, ◌⊎◌, ℕ, List, [], ◌∷◌, ◌++◌, length, take, slice_get};
ghost use Rattle.std.specs.Prelude.{Some};
ghost use Rattle.store_history.specs.declared.history.Commit.{Commit};
ghost use Rattle.store_history.specs.History.{root_of, edits_of};
ghost use Rattle.hook_law.specs.Meaning.{point_of, now_of, next_of};
ghost use Rattle.hook_law.specs.Standing.{Role, PutsAction, region_of, Stands, IsUnused};
ghost use Rattle.hook_law.specs.Telling.{Reads, ReadsAction};
ghost use Rattle.hook_law.specs.Numbered.{IsPut, IsPutAction};
ghost use Rattle.hook_law.specs.Keeping.{Keeps, HasItsSize, IsAtRest, IsAtRestBut};
ghost use Rattle.hook_law.specs.Unnumbered.{HaveOwnRoots, Spares, SparesAll, EmptiesAll, FillsBucket};
ghost use Rattle.hook_law.specs.Unnumbered.{IsFilled, Resizes, ResizesWhole};
ghost use Rattle.hook_law.specs.Coming.{IsBucketOf};

use crate::terms::Terms;

/// A commit without a number to a root that stood for nothing since the base: a new action, a row or a mask
/// to come.
pub fn spare_commit<T: Terms>()
    ensures keeps { (h : List (Commit T.Edit)) (b : ℕ) (c : Commit T.Edit) → b ≤ length h
        → Keeps T.meaning T.codec h b
        → Spares T.meaning T.codec b h c → Keeps T.meaning T.codec (h ++ c ∷ []) b }
    ensures nothing_comes { (h : List (Commit T.Edit)) (b : ℕ) (c : Commit T.Edit) → b ≤ length h
        → Keeps T.meaning T.codec h b
        → Spares T.meaning T.codec b h c → (r : ℕ) (role : Role)
        → Stands T.meaning T.codec (h ++ c ∷ []) r role
        → Stands T.meaning T.codec h r role }
    ensures rests { (h : List (Commit T.Edit)) (b : ℕ) (c : Commit T.Edit) → b ≤ length h
        → Spares T.meaning T.codec b h c
        → (mask : ℕ) → HasItsSize T.meaning T.codec h mask → HasItsSize T.meaning T.codec (h ++ c ∷ []) mask }
{}

/// Several such commits, one after the other: a new action's, a new mask's with its rows, those of a resize
/// before the last.
pub fn spare_commits<T: Terms>()
    ensures keeps { (h cs : List (Commit T.Edit)) (b : ℕ) → b ≤ length h → Keeps T.meaning T.codec h b
        → SparesAll T.meaning T.codec b h cs → Keeps T.meaning T.codec (h ++ cs) b }
    ensures begun { (h cs : List (Commit T.Edit)) (b n : ℕ) → b ≤ length h → Keeps T.meaning T.codec h b
        → SparesAll T.meaning T.codec b h cs → Keeps T.meaning T.codec (h ++ take n cs) b }
    ensures nothing_comes { (h cs : List (Commit T.Edit)) (b : ℕ) → b ≤ length h → Keeps T.meaning T.codec h b
        → SparesAll T.meaning T.codec b h cs → (r : ℕ) (role : Role)
        → Stands T.meaning T.codec (h ++ cs) r role
        → Stands T.meaning T.codec h r role }
    ensures unused { (h cs : List (Commit T.Edit)) (b : ℕ) → b ≤ length h → Keeps T.meaning T.codec h b
        → SparesAll T.meaning T.codec b h cs → (r : ℕ) → IsUnused T.meaning T.codec b h r
        → IsUnused T.meaning T.codec b (h ++ cs) r }
    ensures no_edit { (h cs : List (Commit T.Edit)) (b : ℕ) → b ≤ length h → Keeps T.meaning T.codec h b
        → SparesAll T.meaning T.codec b h cs → edits_of (h ++ cs) ≡ edits_of h }
    ensures rests { (h cs : List (Commit T.Edit)) (b : ℕ) → b ≤ length h → Keeps T.meaning T.codec h b
        → SparesAll T.meaning T.codec b h cs → (mask : ℕ) → HasItsSize T.meaning T.codec h mask
        → HasItsSize T.meaning T.codec (h ++ cs) mask }
{}

/// What roots name after commits that each have a root of their own.
pub fn own_roots<E>()
    ensures own { (h cs : List (Commit E)) (j : ℕ) (c : Commit E) → HaveOwnRoots cs → slice_get cs j ≡ Some c
        → root_of (h ++ cs) c.root ≡ c.named }
    ensures others { (h cs : List (Commit E)) (r : ℕ)
        → ((j : ℕ) (c : Commit E) → slice_get cs j ≡ Some c → c.root ≢ r)
        → root_of (h ++ cs) r ≡ root_of h r }
{}

/// What such commits, each to a root of its own, put for a commit that comes after them: a bucket's filters,
/// a thing as an edit makes it, and among these an action.
pub fn prepared_roots<T: Terms>()
    ensures bucket { (h cs : List (Commit T.Edit)) (b j : ℕ) (c : Commit T.Edit) (mask size k since : ℕ)
        (s : T.State)
        → b ≤ length h → Keeps T.meaning T.codec h b → SparesAll T.meaning T.codec b h cs → HaveOwnRoots cs
        → slice_get cs j ≡ Some c → FillsBucket T.meaning T.codec (h ++ cs) c.named mask size k since s
        → IsFilled T.meaning T.codec b (h ++ cs) c.root mask size k since s }
    ensures thing { (h cs : List (Commit T.Edit)) (b j : ℕ) (c : Commit T.Edit) (y : T.Edit) (role : Role)
        → b ≤ length h
        → Keeps T.meaning T.codec h b → SparesAll T.meaning T.codec b h cs → HaveOwnRoots cs
        → slice_get cs j ≡ Some c
        → c.named.stamp ≡ point_of h + 1
        → Reads T.meaning T.codec role c.named.chain (now_of T.meaning h) (next_of T.meaning h y)
        → IsPut T.meaning T.codec b (h ++ cs) y c.root role }
    ensures action { (h cs : List (Commit T.Edit)) (b j : ℕ) (c : Commit T.Edit) (y : T.Edit) (a slot : ℕ)
        → b ≤ length h
        → Keeps T.meaning T.codec h b → SparesAll T.meaning T.codec b h cs → HaveOwnRoots cs
        → slice_get cs j ≡ Some c
        → PutsAction T.codec c a slot → c.named.stamp ≡ point_of h + 1
        → ReadsAction T.meaning T.codec a c.named.chain (next_of T.meaning h y)
        → IsPutAction T.meaning T.codec b (h ++ cs) y a }
{}

/// Commits that empty roots that stood for nothing since the base, as tidying makes them.
pub fn emptied_roots<T: Terms>()
    ensures keeps { (h cs : List (Commit T.Edit)) (b : ℕ) → b ≤ length h → Keeps T.meaning T.codec h b
        → EmptiesAll T.meaning T.codec b h cs → Keeps T.meaning T.codec (h ++ cs) b }
    ensures nothing_comes { (h cs : List (Commit T.Edit)) (b : ℕ) → b ≤ length h → Keeps T.meaning T.codec h b
        → EmptiesAll T.meaning T.codec b h cs → (r : ℕ) (role : Role)
        → Stands T.meaning T.codec (h ++ cs) r role
        → Stands T.meaning T.codec h r role }
    ensures unused { (h cs : List (Commit T.Edit)) (b : ℕ) → b ≤ length h → Keeps T.meaning T.codec h b
        → EmptiesAll T.meaning T.codec b h cs → (r : ℕ) → IsUnused T.meaning T.codec b h r
        → IsUnused T.meaning T.codec b (h ++ cs) r }
    ensures no_edit { (h cs : List (Commit T.Edit)) (b : ℕ) → b ≤ length h → Keeps T.meaning T.codec h b
        → EmptiesAll T.meaning T.codec b h cs → edits_of (h ++ cs) ≡ edits_of h }
    ensures rests { (h cs : List (Commit T.Edit)) (b : ℕ) → b ≤ length h → Keeps T.meaning T.codec h b
        → EmptiesAll T.meaning T.codec b h cs → (mask : ℕ) → HasItsSize T.meaning T.codec h mask
        → HasItsSize T.meaning T.codec (h ++ cs) mask }
    ensures emptied { (h cs : List (Commit T.Edit)) (b : ℕ) → EmptiesAll T.meaning T.codec b h cs
        → (j : ℕ) (c : Commit T.Edit)
        → slice_get cs j ≡ Some c → (root_of (h ++ cs) c.root).chain ≡ [] }
{}

/// The last commit of a resize, to the root of the mask. Buckets of the new rows come to stand, and the mask
/// is at rest, where its new size is the one for its filters.
pub fn resize_end<T: Terms>()
    ensures keeps { (h : List (Commit T.Edit)) (b : ℕ) (c : Commit T.Edit) → b ≤ length h
        → Keeps T.meaning T.codec h b
        → Resizes T.meaning T.codec b h c → Keeps T.meaning T.codec (h ++ c ∷ []) b }
    ensures rows_come { (h : List (Commit T.Edit)) (b : ℕ) (c : Commit T.Edit) → b ≤ length h
        → Keeps T.meaning T.codec h b
        → (w : Resizes T.meaning T.codec b h c) → (r : ℕ) (role : Role)
        → Stands T.meaning T.codec (h ++ c ∷ []) r role
        → Stands T.meaning T.codec h r role
        ⊎ IsBucketOf w.mask (region_of w.slot w.serial c.named.stamp w.mask) r role }
    ensures rests { (h : List (Commit T.Edit)) (b : ℕ) (c : Commit T.Edit) → b ≤ length h
        → Keeps T.meaning T.codec h b
        → (w : Resizes T.meaning T.codec b h c)
        → w.mask.size ≡ T.meaning.size_for (length (T.meaning.filters (now_of T.meaning h) w.serial))
        → IsAtRestBut T.meaning T.codec h w.serial → IsAtRest T.meaning T.codec (h ++ c ∷ []) }
{}

/// A whole resize: the commits that fill the new rows, and then the one to the root of the mask.
pub fn resize<T: Terms>()
    ensures keeps { (h cs : List (Commit T.Edit)) (b : ℕ) (c : Commit T.Edit) → b ≤ length h
        → Keeps T.meaning T.codec h b
        → ResizesWhole T.meaning T.codec b h cs c → Keeps T.meaning T.codec ((h ++ cs) ++ c ∷ []) b }
    ensures begun { (h cs : List (Commit T.Edit)) (b : ℕ) (c : Commit T.Edit) (n : ℕ) → b ≤ length h
        → Keeps T.meaning T.codec h b → ResizesWhole T.meaning T.codec b h cs c
        → Keeps T.meaning T.codec (h ++ take n cs) b }
    ensures rows_come { (h cs : List (Commit T.Edit)) (b : ℕ) (c : Commit T.Edit) → b ≤ length h
        → Keeps T.meaning T.codec h b
        → (w : ResizesWhole T.meaning T.codec b h cs c) → (r : ℕ) (role : Role)
        → Stands T.meaning T.codec ((h ++ cs) ++ c ∷ []) r role
        → Stands T.meaning T.codec h r role
        ⊎ IsBucketOf w.mask (region_of w.slot w.serial c.named.stamp w.mask) r role }
    ensures rests { (h cs : List (Commit T.Edit)) (b : ℕ) (c : Commit T.Edit) → b ≤ length h
        → Keeps T.meaning T.codec h b
        → (w : ResizesWhole T.meaning T.codec b h cs c)
        → w.mask.size ≡ T.meaning.size_for (length (T.meaning.filters (now_of T.meaning h) w.serial))
        → IsAtRestBut T.meaning T.codec h w.serial → IsAtRest T.meaning T.codec ((h ++ cs) ++ c ∷ []) }
{}

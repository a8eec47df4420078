//! The laws of numbered commits, one for each kind of edit.
ghost use Rattle.std.specs.Prelude.{◌≡◌, ◌≤◌, ◌⊎◌, ℕ, List, [], ◌∷◌, ◌++◌, length};
ghost use Rattle.store_history.specs.declared.history.Commit.{Commit};
ghost use Rattle.hook_law.specs.Meaning.{next_of};
ghost use Rattle.hook_law.specs.Standing.{Role, Action, Names, Stands};
ghost use Rattle.hook_law.specs.Keeping.{Keeps, IsAtRest, IsAtRestBut};
ghost use Rattle.hook_law.specs.Numbered.{Marks, RewritesBucket, AddsToBucket, ReplacesInBucket};
ghost use Rattle.hook_law.specs.Numbered.{RemovesFromBucket, MakesAction, ChangesAction};
ghost use Rattle.hook_law.specs.Heads.{IsPrepared, ChangesHead};
ghost use Rattle.hook_law.specs.Coming.{IsMade, IsOfPrepared};

use crate::terms::Terms;

/// An edit that no walk can see, to the marker root.
pub fn marker_commit<T: Terms>()
    ensures keeps { (h : List (Commit T.Edit)) (b : ℕ) (c : Commit T.Edit) (y : T.Edit) → b ≤ length h
        → Keeps T.meaning T.codec h b → Marks T.meaning T.codec h c y
        → Keeps T.meaning T.codec (h ++ c ∷ []) b }
    ensures nothing_comes { (h : List (Commit T.Edit)) (b : ℕ) (c : Commit T.Edit) (y : T.Edit) → b ≤ length h
        → Keeps T.meaning T.codec h b → Marks T.meaning T.codec h c y → (r : ℕ) (role : Role)
        → Stands T.meaning T.codec (h ++ c ∷ []) r role → Stands T.meaning T.codec h r role }
    ensures rests { (h : List (Commit T.Edit)) (c : Commit T.Edit) (y : T.Edit)
        → Marks T.meaning T.codec h c y
        → IsAtRest T.meaning T.codec (h ++ c ∷ []) }
{}

/// Any edit of one bucket of a mask that stands, to the bucket's root. Only actions that were put before it
/// come to stand. Every other mask is at rest afterwards, and its own is where its size is still the one for
/// its filters.
pub fn bucket_commit<T: Terms>()
    ensures keeps { (h : List (Commit T.Edit)) (b : ℕ) (c : Commit T.Edit) (y : T.Edit) → b ≤ length h
        → Keeps T.meaning T.codec h b → RewritesBucket T.meaning T.codec b h c y
        → Keeps T.meaning T.codec (h ++ c ∷ []) b }
    ensures actions_come { (h : List (Commit T.Edit)) (b : ℕ) (c : Commit T.Edit) (y : T.Edit) → b ≤ length h
        → Keeps T.meaning T.codec h b → RewritesBucket T.meaning T.codec b h c y → (r : ℕ) (role : Role)
        → Stands T.meaning T.codec (h ++ c ∷ []) r role
        → Stands T.meaning T.codec h r role ⊎ IsMade T.meaning T.codec b h y r role }
    ensures others_rest { (h : List (Commit T.Edit)) (b : ℕ) (c : Commit T.Edit) (y : T.Edit)
        → (w : RewritesBucket T.meaning T.codec b h c y)
        → IsAtRestBut T.meaning T.codec (h ++ c ∷ []) w.region.mask }
    ensures rests { (h : List (Commit T.Edit)) (b : ℕ) (c : Commit T.Edit) (y : T.Edit) → b ≤ length h
        → Keeps T.meaning T.codec h b → (w : RewritesBucket T.meaning T.codec b h c y)
        → w.region.size
        ≡ T.meaning.size_for (length (T.meaning.filters (next_of T.meaning h y) w.region.mask))
        → IsAtRest T.meaning T.codec (h ++ c ∷ []) }
{}

/// A filter is added to a mask that stands, by a link in front of its bucket's chain. It is an edit of its
/// region's bucket.
pub fn filter_added<T: Terms>()
    ensures keeps { (h : List (Commit T.Edit)) (b : ℕ) (c : Commit T.Edit) (y : T.Edit) → b ≤ length h
        → Keeps T.meaning T.codec h b → AddsToBucket T.meaning T.codec b h c y
        → Keeps T.meaning T.codec (h ++ c ∷ []) b }
    ensures of_bucket { (h : List (Commit T.Edit)) (b : ℕ) (c : Commit T.Edit) (y : T.Edit) → b ≤ length h
        → Keeps T.meaning T.codec h b → (w : AddsToBucket T.meaning T.codec b h c y)
        → (v : RewritesBucket T.meaning T.codec b h c y) × (v.region ≡ w.region) }
{}

/// A filter is replaced by one with the same mask and key, behind copies of the links of later filters. It is
/// an edit of its region's bucket.
pub fn filter_replaced<T: Terms>()
    ensures keeps { (h : List (Commit T.Edit)) (b : ℕ) (c : Commit T.Edit) (y : T.Edit) → b ≤ length h
        → Keeps T.meaning T.codec h b → ReplacesInBucket T.meaning T.codec b h c y
        → Keeps T.meaning T.codec (h ++ c ∷ []) b }
    ensures of_bucket { (h : List (Commit T.Edit)) (b : ℕ) (c : Commit T.Edit) (y : T.Edit) → b ≤ length h
        → Keeps T.meaning T.codec h b → (w : ReplacesInBucket T.meaning T.codec b h c y)
        → (v : RewritesBucket T.meaning T.codec b h c y) × (v.region ≡ w.region) }
{}

/// A filter is removed and its mask stays, with copies of the links of later filters. It is an edit of its
/// region's bucket.
pub fn filter_removed<T: Terms>()
    ensures keeps { (h : List (Commit T.Edit)) (b : ℕ) (c : Commit T.Edit) (y : T.Edit) → b ≤ length h
        → Keeps T.meaning T.codec h b → RemovesFromBucket T.meaning T.codec b h c y
        → Keeps T.meaning T.codec (h ++ c ∷ []) b }
    ensures of_bucket { (h : List (Commit T.Edit)) (b : ℕ) (c : Commit T.Edit) (y : T.Edit) → b ≤ length h
        → Keeps T.meaning T.codec h b → (w : RemovesFromBucket T.meaning T.codec b h c y)
        → (v : RewritesBucket T.meaning T.codec b h c y) × (v.region ≡ w.region) }
{}

/// An action is made, and its root given its record. Only it comes to stand.
pub fn action_made<T: Terms>()
    ensures keeps { (h : List (Commit T.Edit)) (b : ℕ) (c : Commit T.Edit) (y : T.Edit) → b ≤ length h
        → Keeps T.meaning T.codec h b → MakesAction T.meaning T.codec b h c y
        → Keeps T.meaning T.codec (h ++ c ∷ []) b }
    ensures action_comes { (h : List (Commit T.Edit)) (b : ℕ) (c : Commit T.Edit) (y : T.Edit) → b ≤ length h
        → Keeps T.meaning T.codec h b → (w : MakesAction T.meaning T.codec b h c y) → (r : ℕ) (role : Role)
        → Stands T.meaning T.codec (h ++ c ∷ []) r role
        → Stands T.meaning T.codec h r role ⊎ ((r ≡ c.root) × (role ≡ Action w.put.serial)) }
    ensures rests { (h : List (Commit T.Edit)) (b : ℕ) (c : Commit T.Edit) (y : T.Edit)
        → MakesAction T.meaning T.codec b h c y
        → IsAtRest T.meaning T.codec (h ++ c ∷ []) }
{}

/// A live action is changed, and its root given its record anew.
pub fn action_changed<T: Terms>()
    ensures keeps { (h : List (Commit T.Edit)) (b : ℕ) (c : Commit T.Edit) (y : T.Edit) → b ≤ length h
        → Keeps T.meaning T.codec h b → ChangesAction T.meaning T.codec h c y
        → Keeps T.meaning T.codec (h ++ c ∷ []) b }
    ensures nothing_comes { (h : List (Commit T.Edit)) (b : ℕ) (c : Commit T.Edit) (y : T.Edit) → b ≤ length h
        → Keeps T.meaning T.codec h b → ChangesAction T.meaning T.codec h c y → (r : ℕ) (role : Role)
        → Stands T.meaning T.codec (h ++ c ∷ []) r role → Stands T.meaning T.codec h r role }
    ensures rests { (h : List (Commit T.Edit)) (c : Commit T.Edit) (y : T.Edit)
        → ChangesAction T.meaning T.codec h c y
        → IsAtRest T.meaning T.codec (h ++ c ∷ []) }
{}

/// A head is given other tables or masks: a mask or table is new or gone, or masks were built again at other
/// slots. Masks that were prepared, with their rows, and actions that were put come to stand.
pub fn head_changed<T: Terms>()
    ensures keeps { (h : List (Commit T.Edit)) (b : ℕ) (c : Commit T.Edit) (y : T.Edit) → b ≤ length h
        → Keeps T.meaning T.codec h b → ChangesHead T.meaning T.codec b h c y
        → Keeps T.meaning T.codec (h ++ c ∷ []) b }
    ensures prepared_come { (h : List (Commit T.Edit)) (b : ℕ) (c : Commit T.Edit) (y : T.Edit) → b ≤ length h
        → Keeps T.meaning T.codec h b → ChangesHead T.meaning T.codec b h c y → (r : ℕ) (role : Role)
        → Stands T.meaning T.codec (h ++ c ∷ []) r role
        → Stands T.meaning T.codec h r role
        ⊎ (IsOfPrepared T.meaning T.codec b h c y r role ⊎ IsMade T.meaning T.codec b h y r role) }
    ensures rests { (h : List (Commit T.Edit)) (b : ℕ) (c : Commit T.Edit) (y : T.Edit)
        → ChangesHead T.meaning T.codec b h c y
        → ((m slot : ℕ) (o : IsPrepared T.meaning T.codec b h y m slot) → Names T.codec c.named.chain m slot
        → o.record_read.size ≡ T.meaning.size_for (length (T.meaning.filters (next_of T.meaning h y) m)))
        → IsAtRest T.meaning T.codec (h ++ c ∷ []) }
{}

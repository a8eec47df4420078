//! What a commit leaves free, and what it leaves gone.
ghost use Rattle.std.specs.Prelude.{◌≡◌, ◌≢◌, ◌≤◌, ℕ, List, [], ◌∷◌, ◌++◌, length};
ghost use Rattle.store_history.specs.declared.history.Commit.{Commit};
ghost use Rattle.store_history.specs.declared.history.Link.{Link};
ghost use Rattle.store_history.specs.History.{IsNamed};
ghost use Rattle.hook_law.specs.Standing.{Role, Stands, IsIn, IsUnused};
ghost use Rattle.root_pool_laws.specs.Blocks.{HasBlock, HaveOneRoot, IsLeft, Spends};
ghost use Rattle.root_pool_laws.specs.Pools.{IsEmptyRoot};

use hook_law::Terms;

/// A commit leaves blocks free that aren't given to it, no block comes to have two roots, and what left stays
/// so, whatever more is gone.
pub fn blocks_of_a_commit<E>()
    ensures free { (h : List (Commit E)) (c : Commit E) (given : List ℕ) (base : ℕ) → base ≤ length h
        → Spends h c given → (block : ℕ) → (IsIn block given → ⊥)
        → ((l : Link) → IsNamed base h l → l.block ≢ block)
        → (l : Link) → IsNamed base (h ++ c ∷ []) l → l.block ≢ block }
    ensures one_root { (h : List (Commit E)) (c : Commit E) (given : List ℕ) (base : ℕ) → base ≤ length h
        → Spends h c given → HaveOneRoot h
        → ((block : ℕ) → IsIn block given → (l : Link) → IsNamed base h l → l.block ≢ block)
        → HaveOneRoot (h ++ c ∷ []) }
    ensures left { (h : List (Commit E)) (c : Commit E) (given : List ℕ) → Spends h c given
        → (gone more : List ℕ) → ((r : ℕ) → IsIn r gone → IsIn r more)
        → (block : ℕ) → (IsIn block given → ⊥) → IsLeft gone h block → IsLeft more (h ++ c ∷ []) block }
{}

/// Once the base is the end, a block that no root has is free.
pub fn blocks_at_the_base<E>()
    ensures free { (h : List (Commit E)) (block : ℕ) → ((r : ℕ) → HasBlock h r block → ⊥)
        → (l : Link) → IsNamed (length h) h l → l.block ≢ block }
{}

/// Nothing stands at a root that is free. Where nothing comes to stand at a root with a commit, an empty root
/// stays empty and a free one free.
pub fn roots_of_a_commit<T: Terms>()
    ensures none { (h : List (Commit T.Edit)) (base r : ℕ) → base ≤ length h
        → IsUnused T.meaning T.codec base h r → IsEmptyRoot T.meaning T.codec h r }
    ensures empty { (h : List (Commit T.Edit)) (c : Commit T.Edit) (r : ℕ)
        → ((x : Role) → Stands T.meaning T.codec (h ++ c ∷ []) r x → Stands T.meaning T.codec h r x)
        → IsEmptyRoot T.meaning T.codec h r → IsEmptyRoot T.meaning T.codec (h ++ c ∷ []) r }
    ensures free { (h : List (Commit T.Edit)) (base : ℕ) (c : Commit T.Edit) (r : ℕ) → base ≤ length h
        → ((x : Role) → Stands T.meaning T.codec (h ++ c ∷ []) r x → Stands T.meaning T.codec h r x)
        → IsUnused T.meaning T.codec base h r → IsUnused T.meaning T.codec base (h ++ c ∷ []) r }
{}

//! What holds of histories whose stamps rise.
ghost use Rattle.std.specs.Prelude.{◌≡◌, ℕ, List, [], ◌∷◌, ◌++◌, Some};
ghost use mathlib.Core.List.{IsPrefix};
ghost use Rattle.store_history.specs.declared.history.Commit.{Commit};
ghost use Rattle.store_history.specs.History.{root_of, first_block};
ghost use Rattle.root_word_laws.specs.Words.{HaveOneWord, MayFollow, StampsRise};

/// Stamps rise over no commits, and over one commit more where it may follow what its root names.
pub fn commits_follow<E>()
    ensures none { StampsRise {E = E} [] }
    ensures more { (h : List (Commit E)) (c : Commit E) → StampsRise h → MayFollow (root_of h c.root) c.named
        → StampsRise (h ++ c ∷ []) }
    ensures beginning { (g h : List (Commit E)) → IsPrefix g h → StampsRise h → StampsRise g }
{}

/// Where stamps rise, a root that has the same word after more commits names the same chain. So it does where
/// it has the same stamp and some block.
pub fn one_word_names_one_chain<E>()
    ensures word { (g h : List (Commit E)) (root : ℕ) → IsPrefix g h → StampsRise h
        → HaveOneWord (root_of g root) (root_of h root) → root_of g root ≡ root_of h root }
    ensures stamp { (g h : List (Commit E)) (root block : ℕ) → IsPrefix g h → StampsRise h
        → (root_of g root).stamp ≡ (root_of h root).stamp
        → first_block (root_of h root).chain ≡ Some block → root_of g root ≡ root_of h root }
{}

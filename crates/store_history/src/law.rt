//! What the user of a store says of its history.

/// A condition on the commits so far and on a base: the number of commits after which, and from which on,
/// every chain that a root names still stands.
///
/// It holds of no commits with the base 0, and stays true when the base rises. Each commit asks for it.
pub trait Law {
    ghost use Rattle.std.specs.Prelude.{ℕ, ◌≤◌, List, []};
    ghost use Rattle.store_history.specs.declared.history.Commit.{Commit};

    /// What a numbered commit carries.
    type Entry;

    ghost keeps: { List (Commit Self.Entry) → ℕ → Type 0 };

    ghost opens: { keeps [] 0 };

    ghost rises: { (h : List (Commit Self.Entry)) (b c : ℕ) → b ≤ c → keeps h b → keeps h c };
}

/// Names the entry that a commit carries. A call that commits has a type parameter with this bound, and its
/// caller chooses the entry by it; no bytes are passed. A commit without a number doesn't use it.
pub trait EditName<T> {
    ghost edit: { T };
}

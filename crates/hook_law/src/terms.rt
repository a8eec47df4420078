//! What the law speaks of.

/// The terms of a hook: its edits, the states that they lead to, what the law reads off a state, and what
/// blocks read as.
///
/// Nothing is made of such a type. It hands the definitions to the laws.
pub trait Terms {
    ghost use Rattle.hook_law.specs.Meaning.{Meaning};
    ghost use Rattle.hook_law.specs.Records.{Codec};

    /// What a numbered commit carries.
    type Edit;

    ghost State: { Type 0 };

    /// The names of a table, and the parameters of an action.
    ghost Names: { Type 0 };

    ghost Params: { Type 0 };

    ghost meaning: { Meaning Self.Edit State Names Params };

    ghost codec: { Codec Names Params };
}

//! What a round is.

use std::marker::Brand;

/// What a round is about. Nothing of it exists at run time. Whatever lies under the lock of a round names the
/// round by a type that is a `RoundName`, so that each thread that takes the lock, and whoever takes the
/// state out of it afterwards, knows of which round it is.
///
/// The function that runs a round is generic in it, and no type of that function's signature names it. Its
/// caller passes `Brand`, and picks the members in its proof.
pub trait RoundName {
    ghost use Rattle.std.specs.Prelude.{ℕ, List};
    ghost use Rattle.filter_state.specs.declared.edit.Edit.{Edit};
    ghost use Rattle.round_terms.specs.LoadedJob.{LoadedJob};
    ghost use Rattle.round_terms.specs.Hearing.{EarView};
    ghost use Rattle.job_rounds.specs.OfRoundState.Rounds.{StoreName};

    // The round's number in its job, from 1.
    ghost number: { ℕ };

    // The job, whose batches and number of controls the round has.
    ghost job: { LoadedJob };

    // The store that its desk writes.
    ghost store: { StoreName };

    // The journal before the round.
    ghost before: { List Edit };

    // The ear before the round.
    ghost ear: { EarView };
}

impl RoundName for Brand {
    ghost use Rattle.std.specs.Prelude.{[], None};

    ghost number = { 1 };

    ghost job = { record {
      job = record { workers = 1; controls = 1; rounds = [] };
      batches = [];
      captures = [];
    } };

    ghost store = { record {
      table = record {
        words = 0;
        slots = 0;
        views_name = 0;
        atom = 0;
        block = 0;
        offset = 0;
        slot_names = [];
      };
      shape = record { blocks = 0; words = 0; roots = 0; readers = 0 };
    } };

    ghost before = { [] };

    ghost ear = { record { name = 0; heard = None; spare = 0 } };
}

//! What is stored of an action is read as it.
ghost use Rattle.std.specs.Prelude.{◌≡◌, Some};
ghost use Rattle.act_kinds.specs.declared.params.Params.{Params};
ghost use Rattle.act_kinds.specs.Ranges.{AreParams};
ghost use Rattle.block_codec.specs.declared.action.StoredAction.{StoredAction};
ghost use Rattle.block_codec.specs.Parameters.{AreStorable, FitParams};
ghost use Rattle.block_codec.specs.Actions.{IsStorableAction};
ghost use Rattle.block_codec.specs.OfReadings.Read.{action_of_words};
ghost use Rattle.desk_actions.specs.OfRoots.Records.{action_block};

/// The block of an action reads as the action.
pub fn actions_read_back()
    ensures { (action : StoredAction) → IsStorableAction action → FitParams action.params
        → action_of_words (action_block action) ≡ Some action }
{}

/// Parameters that a line can give can be stored.
pub fn parameters_can_be_stored()
    ensures { (given : Params) → AreParams given → AreStorable given × FitParams given }
{}

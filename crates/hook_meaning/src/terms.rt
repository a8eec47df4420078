//! What the law of this project's hook speaks of.

use filter_state::Edit;
use hook_law::Terms;

/// The terms of this project's hook, for the functions of `hook_law`. Nothing is made of this type.
pub struct HookTerms;

impl Terms for HookTerms {
    ghost use Rattle.filter_state.specs.States.{State};
    ghost use Rattle.hook_meaning.specs.Stated.{TableNames, ActionTerms, hook_meaning};
    ghost use Rattle.hook_meaning.specs.Blocks.{hook_codec};

    type Edit = Edit;

    ghost State = { State };

    ghost Names = { TableNames };

    ghost Params = { ActionTerms };

    ghost meaning = { hook_meaning };

    ghost codec = { hook_codec };
}

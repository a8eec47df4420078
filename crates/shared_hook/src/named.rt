//! How a call that commits names its edit.
ghost use Rattle.filter_state.specs.declared.edit.Edit.TheVariants as edits;

use filter_state::Edit;
use std::marker::{Brand, PhantomData};
use store_history::EditName;

/// Names an edit. The one call that applies an edit picks it by this bound, and all below it have its name.
pub(crate) trait Edited {
    ghost use Rattle.filter_state.specs.declared.edit.Edit.{Edit as AnEdit};

    ghost edit: { AnEdit };
}

impl Edited for Brand {
    ghost edit = { edits.HookAdd };
}

/// The edit that `E` names, for the calls of the store. No value of it is made.
pub(crate) struct Named<E> {
    edit: PhantomData<E>,
}

impl<E: Edited> EditName<Edit> for Named<E> {
    ghost edit = { E.edit };
}

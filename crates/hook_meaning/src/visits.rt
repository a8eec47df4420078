//! From what a reader loads to the answers of the plain state.
//!
//! A walk asks three questions: for the tables of a hook, for the filter of a mask, for the parameters of an
//! action. A reader of the hook's store answers them from roots and blocks. `hook_law` says what a root tells
//! of a thing that stood, `miniq_pair` and `mask_table` say what their loads tell. Here each of the three is
//! led to the one sentence of a visit: the answer is that of the plain state after so many edits as the
//! visit's point says (`answer_of` of `walk_rules`).
//!
//! # Which points
//!
//! What was loaded is right from its stamp on, up to all that the time at which it stood had seen. A visit's
//! point may be raised in between: by what the reader saw before, by the head's point, by the point of an
//! earlier look-up. So each law takes a floor beside the stamp, and answers at the greater of both. The floor
//! must not lie above that time: this is what `MaskStood` and `ActionLived` (`specs/OfVisits/Known.antt`) say
//! of a name that was told, and a later visit says it again, of a higher point.
//!
//! A mask or an action may have left since it was told. Its root has then got no commit more as long as the
//! reader is inside, so the answer is that of a state in which it stood.

mod laws;

pub use laws::{
    actions_answer, heads_answer, kept_heads_tell, look_ups_answer, names_stay_known,
    one_mask_a_slot, one_slot_a_mask,
};

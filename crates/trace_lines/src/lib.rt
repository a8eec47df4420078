//! The lines of a trace: what each visit of a walk came to.
//!
//! A trace tells of a packet's walk visit by visit: the tables that were told, each look-up with what was
//! looked for, each action that ran, and from where the walk began anew. `specs/Lines.antt` says which lines
//! one step has, and `specs/Steps.antt` what the steps of a walk are. Here the lines of one step are put
//! behind the text of a page, in two calls: `tell_before` before the visit is made, and `tell_visit` behind
//! it.
//!
//! The words of a line are those of a batch's lines (`tc_print`): a field as a filter's line writes it, an
//! action as an edit's. What was looked for is the frame's values under the mask, so of a match it is the
//! filter's own key. Which line brought a filter or an action isn't known here: whoever calls says it through
//! `Naming`.
//!
//! A page keeps its rooms from packet to packet, so once they have grown, lines take no memory. It also keeps
//! the words of some thousand frames (`kept_frames`), since a flow's frames have the same fields. The only
//! fault is that no memory is left. Plain data, one thread at a time.
//!
//! Not promised: what is on a page, and what was told of a frame, where memory was refused.
#![tactic(auto)]

mod before;
mod frames;
mod kept_frames;
mod keys;
mod look_ups;
mod naming;
mod page;
mod restarts;
mod runs;
mod seen_frame;
mod telling;
mod told;
mod visit;
mod words;

pub use before::Before;
pub use naming::Naming;
pub use page::Page;
pub use seen_frame::SeenFrame;
pub use telling::{tell_before, tell_visit};
pub use told::Told;
pub use words::{push_by, push_hook_word};

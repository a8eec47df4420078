//! One Ethernet frame that is edited in place: VLAN tags are pushed, popped and changed, and the
//! metadata beside the bytes is set.
//!
//! The frame lies in one buffer that is taken once, with head room in front. A tag stands behind the
//! two addresses, so a push or a pop moves these 12 bytes by 4 places, and never the bytes behind
//! them: the end of the frame stands still from one load to the next. The head room is just what a
//! frame may grow by, so a push that finds none left is a push that is refused.
//!
//! `specs/Tags.antt` says what each call makes of the list of bytes, by `take`, `drop` and `++` of the
//! whole list. Contracts see neither the buffer nor the places in it: for them a frame is its bytes,
//! its length when it was loaded, and its metadata.
//!
//! A `Frame` belongs to one thread at a time and may be sent to another. Only `Frame::with_room` takes
//! memory. Not promised: that there is memory for it, and that what is loaded is a sound frame; bytes
//! that are too short for a header or a tag are left as they are.
#![tactic(auto)]

mod frame;
mod limits;
mod meta;
mod tag;

pub use frame::{Frame, NoRoom};
pub use limits::FRAME_MAX;
pub use meta::Meta;

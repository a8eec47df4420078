//! The points of one walk at a live hook.
//!
//! A reader's visit tells its own point, against what the reader keeps (`WalkTold` of `hook_reader`). A walk
//! makes many visits, and is asked for more: no point lies below the head's, and for one mask or one action
//! they never fall. Here the one is led to the other, visit by visit. `HasVisited`
//! (`specs/OfPoints/Walked.antt`) says that the reader has made these visits since it went inside. It holds
//! of none as a walk begins, of one more after each visit (`visits_follow`), and gives the order of points
//! for the next (`points_never_fall`).
//!
//! A mask's points are kept by slots, and a later head may give a mask another slot. So the order is promised
//! for a walk that asks for the tables once and first, as every packet's does. For an action nothing is kept:
//! it has one slot as long as it is live, and stamps of one root rise.

mod laws;

pub use laws::{points_never_fall, visits_follow};

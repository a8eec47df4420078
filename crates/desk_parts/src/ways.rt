//! How an accepted edit of filters is going to be done.
//!
//! What an edit comes to depends on what it finds: a filter goes into a mask that stands or with one of its
//! own, takes the place of another or moves, and leaves its mask or takes it along. `way_of` looks that up,
//! in the lists and in what the writer of masks holds, before anything is changed. So what the edit needs is
//! known before anything is taken (`Way::needs`, which is what `needed_of` of `desk_needs` says of the state
//! and the edit: `ways_need`), and the calls that make the commits get what they ask for
//! (`specs/OfWays/Ways.antt`).
//!
//! The thread that has the desk calls, between two edits. No call changes the desk, takes memory or waits. A
//! look-up takes time by the masks of a table and by one bucket, and none by all filters.
//!
//! Not promised: anything of a way after a further edit.

mod laws;
mod needing;
mod seeking;
mod way;

pub use laws::ways_need;
pub use seeking::way_of;
pub use way::Way;

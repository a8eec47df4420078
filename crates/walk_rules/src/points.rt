//! Which points the visits of a walk may have.
//!
//! A packet's walk asks question after question, and while a hook is edited each is answered by the state at
//! a point of the journal. `AreLawfulPoints` (`specs/OfPoints/Points.antt`) says which points these may be:
//! the head's is at least a floor, none is below the head's or above a ceiling, and for one mask or one
//! action they never fall. A run keeps to that, and who rechecks its report asks for it. So it stands below
//! both, and below the store, which it doesn't know. `points_go_on` says when one visit more keeps it.
//!
//! Not promised: which floor and ceiling a walk has. A run says that of each packet.

mod laws;

pub use laws::points_go_on;

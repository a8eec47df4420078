//! A packet's walk over plain lists.
//!
//! `Still` answers the questions of a walk from lists that stay as they are: each answer is that of the state
//! that the lists spell, at one point. `walk_still` takes a packet through such a walk, and its contract is
//! the plain walk over that state.
//!
//! The lists are read as they stand: a head is copied table by table, a look-up asks the index of one mask,
//! an action is found by its serial. A mask's slot says where the mask stood in its hook when the head was
//! told. It saves a search, and no answer hangs on it: where another mask stands there, the mask is searched
//! by its serial.
//!
//! One thread walks with a `Walk` at a time; many may read the same lists by `&`. Nothing here takes memory.
//!
//! Not promised: how long a walk takes.
#![tactic(auto)]

mod finding;
mod heads;
mod running;
mod still;

pub use heads::tell_heads;
pub use running::walk_still;
pub use still::Still;

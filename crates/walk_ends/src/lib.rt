//! What walks of packets come to, in the words that one walk and a whole run share.
//!
//! `walk` takes a capture through a batch that has run, and a run takes packets through a hook that is edited
//! meanwhile. Both count executions (`Count`), take so many packets at most (`PACKETS_MAX`), and put the
//! packets that pass, grown or shrunk as their walks left them (`specs/Passing.antt`).
//!
//! Plain data and definitions, for any thread. Nothing takes memory.
#![tactic(auto)]

mod counts;
mod limits;

pub use counts::Count;
pub use limits::PACKETS_MAX;

//! What `walk` answers for a batch file and a capture's packets.
//!
//! A batch has one outcome (`batch_run`), and each packet one plain walk over the state that is left
//! (`capture_walk`). `walk_batch` makes what is put and what is written of them: the output's bytes, and the
//! text (`specs/Walked.antt`): the refused line, if there is one, a line a packet, a line for each action
//! that was ever made, the summary, `end`. Reading the files, their limits, and putting and writing are the
//! caller's.
//!
//! The packets' lines, of which there may be a million, aren't kept: the caller makes each as it writes it, as
//! `push_packet_line` does.
//!
//! One thread calls this, and it keeps nothing between calls. Not promised: that memory suffices.
#![tactic(auto)]

mod closing;
mod packet_line;
mod walk;

pub use packet_line::push_packet_line;
pub use walk::{BatchWalk, WalkText, walk_batch};

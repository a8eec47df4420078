//! The files that a run reads: bytes, a batch or a capture under a name, or the three of a change, or why there
//! is none.
//!
//! Whoever reads asks by name and says for how many commands or packets there is room. A batch that has more
//! commands is refused at the line at which they pass the room, a capture that has more packets as a whole:
//! one limit counts over all files of a run, so the room falls from file to file, and who reads several keeps
//! count. What a line of a batch says isn't looked at here; a bad line is refused when it is applied.
//!
//! Every answer is told in the words of `specs/`: what is held under the name (`Holdings`), how bytes break
//! their form (`Broken`), and why a file wasn't read (`Failures`). They speak of a shelf by what it tells
//! alone, before and after the call, so that a run which reads many files can join them. No call changes what
//! a shelf holds.
//!
//! One thread calls this, and nothing is kept between calls. Not promised: that memory suffices, and what a
//! shelf holds that doesn't tell it.

mod batches;
mod captures;
mod changes;
mod faults;
mod loading;

pub use batches::{LoadedBatch, load_batch};
pub use captures::load_capture;
pub use changes::{LoadedChange, load_change};
pub use faults::{bad_input, copied_name};
pub use loading::load;

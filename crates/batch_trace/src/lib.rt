//! What `trace` tells of a batch file and the packets of a capture.
//!
//! A walk's text tells how each packet ended. A trace tells beside what it met: each visit of its walk with
//! the line of the batch that brought what answered, and at the end how often each filter decided. The text
//! is that of the walk with these lines between (`specs/Traced.antt`), and taking them away leaves it
//! (`laws`).
//!
//! `trace_batch` applies the batch and keeps its accepted edits with their lines, the past of the states that
//! they led to, and who brought what. The walk of the capture is made before, by `batch_walk`: its parts say
//! how each packet ends. `write_trace` follows each packet again over the state that the edits leave, and
//! writes page by page. Beside a page and one packet's lines it keeps those of up to 4,096 frames of at most
//! 2,048 bytes, at most 4,096 bytes of each: such a frame that comes again isn't followed again. Reading the
//! files and their limits are the caller's.
//!
//! One thread calls this, and it keeps nothing between calls. Not promised: that memory suffices.
#![tactic(auto)]

mod accepted;
mod kept_trace;
mod laws;
mod numbering;
mod standing;
mod telling;
mod traced_batch;
mod writing;

pub use filter_origins::{Brought, Origins};
pub use journal_names::{JournalNames, push_decided};
pub use laws::{entries_of_runs, nothing_else_is_told, one_list, walks_are_traced};
pub use state_past::journals::JournalAnswers;
pub use traced_batch::{TracedBatch, trace_batch};
pub use writing::write_trace;

//! What a round's workers keep of their walks, and how that becomes the outcomes of the round.
//!
//! A worker draws the numbers of packets, and so it doesn't know beforehand which packets it will walk. It
//! puts a row into its `WalkLog` for each: the number of the packet, and what its walk came to. A log keeps
//! all frames, points and executions in three buffers (`OutcomeList` of `run_report`), beside the numbers.
//! These grow as a `Vec` does: one packet more takes no memory of its own.
//!
//! When all workers are done, each number below the count of the packets stands in one row of one log.
//! `put_together` reads the numbers once, writes down for each packet in which log and which row its outcome
//! is, and hands the buffers on as they are. So a round's end takes 8 bytes a packet, and no frame is copied.
//! What it gives is what `logs_make_a_round` of `lawful_runs` asks of logs and outcomes, and
//! `each_number_once` of `step_counts` tells from the draws that each number stands in one row.
//!
//! A log belongs to one thread, which it may move to; a round is put together by the thread that joined the
//! others.
//!
//! Not promised: that memory suffices, and in what order rows came.

mod placing;
mod walk_log;

pub use placing::put_together;
pub use walk_log::WalkLog;

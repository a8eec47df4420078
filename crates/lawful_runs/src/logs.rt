//! How the walks that workers keep make up a lawful run.
//!
//! A run knows what its threads hand in: each worker's log of a round, with a row for each packet that the
//! worker walked (`specs/OfLogs/Logs.antt`). What a worker knows of its rows speaks of itself alone: each is
//! a walk over what the worker had seen by then, with a floor that is no lower than anything in its earlier
//! rows. A lawful round speaks of the round's whole journal, and of packets in the order of the capture. The
//! laws here lead from the one to the other (`logs_make_a_round`), and from one round to the rounds of a run
//! (`a_round_more`).
//!
//! A row keeps what its worker had seen, and not the journal's end, so nothing is said of a row again when
//! the journal grows: that what was seen begins the journal is enough.
//!
//! Laws alone: there is nothing to call at run time, so any thread may do anything with them.
//!
//! Not promised: that each packet has a row. Whoever hands out packets shows that.
mod laws;

pub use laws::{a_round_more, logs_make_a_round};

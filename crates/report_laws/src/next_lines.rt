//! What the next line of a round can be, as whoever checks a report computes it.
//!
//! `report_laws` says of a line whether it may come next: by what the line tells. This crate turns that
//! around, so that a checker makes the line that has to stand there and compares bytes. As long as a control
//! has a command left, the next line is that of some control's next command with its result on the state so
//! far, each of these may come, and nothing else (`next_events`). Once none has, the next line is the next
//! packet's, of any worker and any walk at lawful points; behind the last packet it is the round's last line
//! (`next_packets`). So a checker asks a line for its control, or for its worker and points, and for nothing
//! else: whatever line were taken there would have these, and then this text.
//!
//! The walk of a packet at given points is a function: whoever knows the answers at each point walks, and
//! where a visit has no answer there is no other way. A lawful run's walks are these (`walks_at_points`). A
//! walk asks for the tables once, at its first point. So one set of lists at that point is enough, with the
//! past of each mask and action (`head_once`).
//!
//! Laws only: there is nothing here to call at run time, so any thread may do anything with it.

mod events;
mod walks;

pub use events::{next_events, next_packets};
pub use walks::{head_once, walks_at_points};

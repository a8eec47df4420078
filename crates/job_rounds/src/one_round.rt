//! One round of a job on threads.
//!
//! # Who does what
//!
//! In a round up to four controls apply the lines of their batches at one desk, while up to eight workers
//! walk the round's packets. `run_round` gives each a thread of its own, and returns when all threads are
//! gone. The controls take turns at the desk under one lock. The workers share no lock: they draw packets
//! by one addition each, and their readers wait for nobody. The thread that called meanwhile takes the turns
//! of a tender; it sleeps in between, until a bell wakes it (`bell.rt`).
//!
//! # How it is known what became of the round
//!
//! Nothing that a thread does under a lock is known outside. But the type of what lies under it names the
//! round and keeps all that has to hold of it (`round_state`), so whoever takes it out in the end knows as
//! much as the threads did. That each control came to its batch's end is then found out by asking: behind
//! the threads the caller takes turns for each control until it has no line left (`finishing.rt`). Mostly
//! there is none. But it is also how lines are met whose control could have no thread, or whose thread found
//! no memory.
//!
//! A worker's thread gives back the worker, its seat and its log, and with the handle comes a promise of what
//! that is: the end of this worker's round (`hands.rt`). Where no thread can be made the closure comes back,
//! and the caller calls it, with the same clause. Behind the join the desk meets each reader, the seats are
//! put together, and the logs become the round's outcomes (`outcomes`).
//!
//! # What is known of its threads
//!
//! A control or a worker has the handle of a thread, which only a call that started one gives; or it is told
//! that it had nothing to do, or that the system made none (`begun.rt`). No round ends without that list. What
//! a control did under the lock is known of some state of this round: that its line was met, or that none was
//! left. Not that it was this state's turn, nor when.
//!
//! # What ends it
//!
//! An edit may be held, as long as a reader is in its way. Its control gives the lock back and tries again; a
//! held line is no event. Where memory is refused to a worker, the others draw what is left, all threads end
//! as ever, and the answer is `NoMemory`: then desk, workers and ear are gone.
//!
//! # Who may call what
//!
//! The thread that owns the desk and the workers calls `run_round`, one round after the other. It may wait,
//! by the handle that it is given; what stands below this crate never does, but for the gate. `laws` says
//! what the next round asks of workers that come from the one before: that they have seen the points of all
//! their outcomes (`walks_are_seen`), and that they may go inside again (`walks_are_few`).
//!
//! Not promised: that any two threads run at the same time, in which order controls get the lock, that a held
//! edit is ever accepted, and so that a round ends. After 2^60 epochs it waits for ever: one in each nanosecond
//! would go on for 36 years.
mod begun;
mod bell;
mod controls;
mod ending;
mod finishing;
mod hands;
mod joining;
mod laws;
mod outcomes;
mod round_end;
mod running;
mod starting;
mod tending;
mod threads;
mod turns;

pub use laws::{walks_are_few, walks_are_seen};
pub use round_end::RoundEnd;
pub use running::run_round;
pub use turns::EPOCHS_MAX;

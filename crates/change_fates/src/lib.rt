//! What every packet of a capture can meet while a change goes in.
//!
//! A change is applied behind a batch, line by line, while packets come. What becomes of a packet then depends
//! on which of the states between it meets, visit by visit. `foresee` applies batch and change (`change_lines`),
//! and tells for each packet every fate that it can have meanwhile (`fate_search`), when each is had, and what
//! kind of packet it is (`fate_times`). The text is a definition's (`specs/Foreseen.antt`), of the one outcome
//! that a change has. What its fates have to do with runs is said by the laws of `change_fate_laws`, and that
//! they are all by those of `walk_fate_laws`.
//!
//! Behind a fate that neither the state before the change nor that after it gives stand the lines of a trace of
//! the walk that has it, so that the filter that let the packet through is told with the line that brought it.
//!
//! A packet is told when its fates are found, and nothing but room is kept from one to the next. The text is
//! written page by page. Reading the files and their limits are the caller's.
//!
//! One thread calls this, and it keeps nothing between calls. Not promised: that memory suffices; anything of
//! several packets together; and how long a text is.
#![tactic(auto)]

mod counts;
mod fates;
mod finding;
mod foreseeing;
mod known;
mod lines;
mod met;
mod packets;
mod page;
mod tags;
mod views;

pub use foreseeing::{Foreseen, foresee};

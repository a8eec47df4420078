//! The events of a report, judged line by line.
//!
//! A report tells of each round first what became of its controls' commands. Whoever judges it goes over its
//! bytes with a `Cursor`, and computes at each line the text that has to stand there. The lines before the
//! cursor are a path of lines that may come one after the other (`report_laws`): a line that is the text goes
//! on with the path, and where a line isn't, no line may come there. So nothing of a text is read but what
//! tells which text it has to be.
//!
//! Of an event's line that is its control (`control_of`), one byte behind the third blank. The control's next
//! command is found in its batch, and met on the state so far: read, and applied where it gives an edit
//! (`Replay`). What that comes to is the event, and its line is compared. A line that names no control with a
//! command left is bad as long as any control has one.
//!
//! # Who may call what
//!
//! Plain data, one thread at a time. All memory is taken by `Replay::meet` (`journal_replay`), and by
//! `check_events`, for one line's text and, for each round, for the places of its controls. Behind `NoMemory`
//! nothing is promised of a `Replay`.
mod control;
mod cursor;
mod events;

pub use cursor::Cursor;
pub use events::check_events;

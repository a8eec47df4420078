//! What the command line says, and what the program answers to it: commands and statuses, and no file.
//!
//! `command_of` reads the words as one of eight commands, with the names that they give
//! (`specs/Command.antt`). A `Status` is how a run ended: it has an exit number (`specs/Ends.antt`), and its
//! text is the line for standard error (`specs/Messages.antt`). Names come into that line as they were given,
//! unless they have control characters: a terminal obeys those, so they are escaped.
//!
//! It is a crate of its own since every command speaks of its words and its end in these types, while none
//! needs another command. What a command does with its files is `tool_run`'s; taking the words from the
//! process is the program's.
//!
//! Any thread may call this; it keeps nothing between calls and takes no memory. Not promised: the texts in
//! which a file is named, which are tested.
#![tactic(auto)]

mod command;
mod messages;
mod reason;
mod status;

pub use command::{ChangeNames, Command, WalkNames, command_of};
pub use reason::Reason;
pub use status::{Break, InputKind, Status};

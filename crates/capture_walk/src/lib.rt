//! The packets of a capture, each walked on its own over lists that stay as they are.
//!
//! `walk_capture` takes a whole capture through a hook. What it keeps is what a run tells and puts: how each
//! packet ended, the bytes of a capture of those that passed with their frames as they then were, and how
//! often each action ran and on how many bytes. Each packet's walk is the plain walk of the state that the
//! lists spell, so all three are functions of that state and of the capture (`specs/Captures.antt`).
//!
//! A packet that passed keeps its seconds and fraction. Its original length grows or shrinks with its frame.
//! One that no action changed takes no copy: its bytes are a stretch of the input's (`pcap_io::Excerpt`).
//!
//! One room serves all walks. How a packet ended takes 4 bytes, and 12 more where its metadata isn't 0
//! (`Ends`). The counts have a place for each action that was ever made, by serial.
//!
//! One thread calls this, and it keeps nothing between calls. Not promised: that memory suffices, and how
//! long it takes.
#![tactic(auto)]

mod counts;
mod end_iter;
mod end_list;
mod end_words;
mod ends;
mod regrowing;
mod walking;

pub use end_iter::EndIter;
pub use end_list::Ends;
pub use ends::PacketEnd;
pub use regrowing::regrown;
pub use walking::{WalkedCapture, walk_capture};

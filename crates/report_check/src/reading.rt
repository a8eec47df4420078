//! The lines of a report's bytes.
//!
//! Whoever judges a report goes over its bytes line by line, and compares each line with the one that has to
//! stand there. A line is cut behind its 0x0A, so that each keeps its end and no byte is lost; a last line
//! without one is a line too (`line_cuts` of `report_laws`), and no report has it. Nothing is copied, and
//! lines are found by a search of many bytes at once.
//!
//! Of a line hardly anything is read, since the line that has to stand there can mostly be made without it.
//! Of a packet's line it is the worker and the points (`read_packet_line`): the walk at these points gives
//! all else. Where no such line may come, it matters whether the line shows them at all (`shows`).
//!
//! Plain functions of bytes, which any thread may call. Only the points of a packet take memory.

mod lines;
mod numbers;
mod packets;
mod parting;
mod shown;

pub use lines::next_line;
pub use packets::read_packet_line;
pub(crate) use parting::parting;
pub(crate) use shown::shows;

//! Captures in the file format of libpcap, version 2.4, with Ethernet frames: `read_whole` gives what some
//! bytes say or their first fault, and `write` gives the bytes of a capture.
//!
//! The format is laid out by offsets, so that is how `specs/Captures.antt` states it: a header of 24
//! bytes, and then records that stand one behind the other up to the end of the bytes. `one_reading`
//! shows that bytes are one capture at most, that bytes with a fault are none, and that bytes have one
//! first fault at most. So an answer of `read_whole` is the only right one.
//!
//! A capture may have a million packets. `Packets` therefore keeps all of them in one buffer, each as its
//! record and then its bytes, beside the places where they begin, 4 bytes each. `read_whole` takes over the
//! buffer of the file and copies no byte; a frame is lent, and its numbers are read from its record. So a
//! buffer has less than 4 GiB. Contracts see none of this; for them it is a list of `Packet`.
//!
//! An output that is made of an input's packets is an `Excerpt`: bytes in pieces, where a packet that stays
//! as it is takes a stretch of the input's buffer and no copy.
//!
//! Every call takes plain values and keeps no state, so each may be called from any thread. A value
//! of `Packets` belongs to one thread at a time, or is read by many.
//!
//! Not promised: that there is memory. `NoMemory` may be the answer to any call that returns it.
#![tactic(auto)]

mod capture;
mod excerpt;
mod fault;
mod law;
mod layout;
mod packet_iter;
mod packets;
mod reading;
mod records;
mod writing;

pub use capture::{Capture, Packet, PacketView};
pub use excerpt::Excerpt;
pub use fault::CaptureFault;
pub use law::one_reading;
pub use layout::{PACKET_MAX, SNAP_LENGTH};
pub use packet_iter::PacketIter;
pub use packets::Packets;
pub use reading::read_whole;
pub use writing::write;

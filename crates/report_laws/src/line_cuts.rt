//! The lines of bytes, and the numbers in a line.
//!
//! `cut` parts bytes behind each 0x0A, so that each line keeps its end and no byte is lost. A last line
//! without an end is a line too. Lines that each have one end, at their last byte, are cut where they were
//! joined: so a text that is made of lines tells them.
//!
//! A decimal ends where a byte below the digits comes. So two equal texts that begin with decimals have one
//! number and one rest, as long as the numbers are of 64 bits.

mod laws;

pub use laws::{ended_numbers, whole_lines};

//! Reads what the words of a batch line spell, beyond plain numbers and addresses: numbers in a range,
//! EtherTypes and protocols, classes, and values under a mask.
//!
//! It stands on `tc_words`, which knows digits and cuts but no names. Each function here answers by one
//! definition (`specs/`), which says what the whole word is, so that no caller has to look at a byte. Names
//! are compared byte by byte in a chain of tests: the tables are short, and a reader finds each name beside
//! its number.
//!
//! A word that is not of the form asked for is `None`, and there is no other fault. No function takes memory,
//! and nothing is kept between calls, so any thread may call any function.
//!
//! `laws` says, by the definitions alone, that each answer is in its range, and each address that `tc_words`
//! reads. So who knows only what a word spells knows that the number fits its field.
//!
//! Where in a line a word may stand, and which of its words is the first bad one, is not told here. Nor is it
//! promised that each name that `tc` knows is known.
#![tactic(auto)]

mod classes;
mod ether_names;
mod ether_types;
mod laws;
mod masked_values;
mod numbers;
mod protocols;

pub use classes::read_class;
pub use ether_names::ether_name;
pub use ether_types::{read_ether_type, read_tpid};
pub use laws::{addresses_in_range, masked_in_range, numbers_in_range};
pub use masked_values::{read_masked_hex, read_masked_octet};
pub use numbers::read_number_between;
pub use protocols::{read_ip_protocol, read_protocol};

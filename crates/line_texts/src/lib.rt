//! The words of a batch line as they are printed, and the laws that each is read back as what it says.
//!
//! A batch line is words with one space between, and `tc_words` and `line_words` say what a word spells. Most
//! forms spell one thing in several ways: a number in decimal or hexadecimal digits, a protocol by a name or
//! a number, an address with a mask or without. Here one way of each is chosen, so that what is printed
//! depends on the thing alone: the name where a protocol has one, digits without needless zeros, the length
//! of a prefix always, the mask of a MAC address where it is not whole. The texts stand in
//! `specs/Texts.antt`, in terms of std's `decimal`, `digits` and `join_with_byte`.
//!
//! Each `push_` function puts one text behind what a buffer holds. So a line is made in one buffer, whose
//! memory is all that is taken, and the only fault is that there is none left. What the buffer then holds is
//! not told.
//!
//! `laws` has a function for each group of laws, with an empty body: printed texts are read back
//! (`numbers_are_read` and its like), they are clean words (`texts_are_clean`), and clean words with spaces
//! between are the words of their line (`clean_words_are_words`). Their lemmas are in `proofs/`, and a crate
//! that prints whole lines may cite those.
//!
//! That a value has no bit outside its mask is asked by the laws and not by the functions, which print what
//! they are given. Of a mask that no prefix has, `push_ipv4` and `push_ipv6` print a length all the same, and
//! no law speaks of it.
//!
//! Nothing is kept between calls, so any thread may call any function.
#![tactic(auto)]

mod addresses;
mod laws;
mod names;
mod numbers;

pub use addresses::{ipv6_length, prefix_length, push_ipv4, push_ipv6, push_mac};
pub use laws::{
    addresses_are_read, clean_words_are_words, colons_tell, lengths_are_found, numbers_are_read,
    pairs_are_read, protocols_are_read, texts_are_clean,
};
pub use names::{push_ether_type, push_ip_protocol, push_protocol};
pub use numbers::{push_class, push_handle, push_masked_hex, push_masked_octet, push_number};

//! Cuts a batch file into lines and a line into words, and reads the numbers and addresses that words spell.
//!
//! The file is bytes from outside, read as such: no text encoding is asked for, and only space and tab part
//! words, so a word may hold any other byte. std's `split_whitespace` would cut at more. Each function
//! answers by what the whole line or word is (`specs/`), and not by how it is gone over.
//!
//! `lines` cuts a file at once; `line_from` gives a line at a time, for whoever keeps a place in a file.
//! `first_word` gives the words of a line one by one. `lines` alone takes memory: it is passed the allocator,
//! and answers `NoMemory` where that has none left; there is no other fault here. A word that is not of the
//! form asked for is `None`.
//!
//! Nothing is kept between calls, so any thread may call any function.
//!
//! What the words mean, and which word of a line is the first bad one, is not told here.
#![tactic(auto)]

mod addresses;
mod cuts;
mod file_lines;
mod first_words;
mod groups;
mod hexadecimal;
mod ipv6_addresses;
mod mac_addresses;
mod numbers;
mod texts;

pub use addresses::read_ipv4;
pub use cuts::cut_at;
pub use file_lines::{FileLine, line_from, lines};
pub use first_words::{first_word, has_words};
pub use hexadecimal::{read_hex, read_hex_digits};
pub use ipv6_addresses::{Ipv6Word, ipv6_mask, read_ipv6};
pub use mac_addresses::read_mac;
pub use numbers::{read_decimal, read_number};
pub use texts::is_text;

//! The header fields of a packet, and keys that hold their values.
//!
//! A key is a few words of 64 bits. Each field has a place of its own in one of them: a shift and a width.
//! The table `FIELDS` is the one place that says which fields there are, what they are called and where they
//! stand. Readers of headers, readers of filters and whatever prints either of them go by the number of a
//! row, which `field` names. Which lines name a field, and what a frame's header gives it, is told elsewhere.
//!
//! Several fields share a word since headers are small: with fourteen words a comparison of two keys or of a
//! key under a mask is fourteen machine operations, whatever the fields are. A key's length is a parameter,
//! because a user of the first few fields alone may keep shorter keys; each call asks that the field's word
//! is there.
//!
//! Bits that no field has are stray. They are 0 in the empty key, and `set` leaves them as they are, so of
//! keys made by `new` and `set` those with equal values have equal words (`values_make_words`).
//! `one_field_a_bit` states what holds of the table as a whole: fields fit their words, share no bit, and
//! have different names.
//!
//! Nothing here takes memory or keeps anything between calls, so any thread may call any function. Whether a
//! value means anything for its field (an address, a port) is not looked at: only its width counts.
#![tactic(auto)]

mod access;
pub mod field;
mod key;
mod laws;
mod table;

pub use access::{get, set};
pub use key::Key;
pub use laws::{one_field_a_bit, values_are_fields, values_make_words};
pub use table::{FIELDS, FieldRow, Form, field_of, row, rows};

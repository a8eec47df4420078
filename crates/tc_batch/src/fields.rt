//! The fields of a filter line.
ghost use Rattle.std.specs.Prelude.{◌≡◌, ◌==◌, position, ◌<◌, ◌⊎◌, if◌then◌else◌, Some, None, ◌≤◌, ◌+◌, ◌/◌};
ghost use Rattle.std.specs.Prelude.{◌%◌, ◌^◌};
ghost use Rattle.flow_fields.specs.Table.{field_at};
ghost use Rattle.tc_words.specs.Ipv6Addresses.{ipv6_mask};
ghost use Rattle.tc_batch.specs.FieldNames.{field_number};
ghost use Rattle.tc_batch.specs.Fields.{no_fields, protocol_in, has_header, refuses_field, named};
ghost use Rattle.tc_batch.specs.Fields.{with_field_value, with_one, with_prefix, with_ipv6, has_colon};
ghost use Rattle.tc_batch.specs.Fields.{with_field};

use crate::field_name::FieldName;
use crate::field_values::read_field_value;
use flow_fields::{Key, field, get, set};
use tc_words::{Ipv6Word, ipv6_mask, read_ipv6};

const TCP: u64 = 6;

const UDP: u64 = 17;

/// The fields that stood so far: which of the sixteen names did, and the key and the mask that they make.
///
/// The names are kept beside the mask, because a field whose mask is 0 leaves no trace there, and its word
/// may still not stand again.
#[derive(Clone, Copy)]
pub struct Fields {
    pub given: [bool; 16],
    pub key: Key<14>,
    pub mask: Key<14>,
}

fn colon_place(word: &[u8]) -> Option<usize>
    ensures { result ≡ position (λ b. b == 58) word.now }
{
    word.iter().position(|b| *b == b':')
}

fn has_colon(word: &[u8]) -> bool
    ensures { result ≡ has_colon word.now }
{
    colon_place(word).is_some()
}

// The halves of the mask of an IPv6 prefix.
fn mask_halves(length: u32) -> (u64, u64)
    requires { length ≤ 128 }
    ensures halves { result ≡ (ipv6_mask length / 2 ^ 64, ipv6_mask length % 2 ^ 64) }
    ensures high { result.0 < 2 ^ 64 }
    ensures low { result.1 < 2 ^ 64 }
{
    let mask = ipv6_mask(length);
    ((mask >> 64) as u64, (mask & u128::from(u64::MAX)) as u64)
}

impl Fields {
    pub(crate) fn none() -> Self
        ensures { result ≡ no_fields }
    {
        Fields {
            given: [false; 16],
            key: Key { words: [0; 14] },
            mask: Key { words: [0; 14] },
        }
    }

    fn protocol(&self) -> u64
        ensures { result ≡ protocol_in self.now }
    {
        get(&self.key, field::IP_PROTO)
    }

    // Whether the header that has the field was asked for, where the field needs that.
    fn has_header(&self, name: FieldName) -> bool
        ensures { result ≡ has_header self.now name }
    {
        match name {
            FieldName::SrcPort | FieldName::DstPort => {
                self.protocol() == TCP || self.protocol() == UDP
            }
            FieldName::TcpFlags => self.protocol() == TCP,
            _ => true,
        }
    }

    // Whether the word of that name may not stand here.
    pub(crate) fn refuses(&self, name: FieldName) -> bool
        ensures { result ≡ refuses_field self.now name }
    {
        self.given[name.number() as usize] || !self.has_header(name)
    }

    fn name(&mut self, name: FieldName)
        ensures { self.new ≡ named self.old name }
    {
        self.given[name.number() as usize] = true;
    }

    // Puts a value under its mask, and the mask, into a field.
    fn put(&mut self, field: u32, value: (u64, u64))
        requires field { field < 20 }
        requires value { value.0 < 2 ^ (field_at field).width }
        requires mask { value.1 < 2 ^ (field_at field).width }
        ensures { self.new ≡ with_field_value self.old field value }
    {
        set(&mut self.key, field, value.0);
        set(&mut self.mask, field, value.1);
    }

    fn take_one(&mut self, name: FieldName, word: &[u8]) -> bool
        ensures { (if result then Some self.new else None) ≡ with_one self.old name word.now }
    {
        let Some(value) = read_field_value(name, word) else {
            return false;
        };
        self.name(name);
        self.put(name.number(), value);
        true
    }

    // Puts an IPv6 prefix into the two fields of its halves.
    fn put_prefix(&mut self, high: u32, word: Ipv6Word)
        requires field { (high ≡ 16) ⊎ (high ≡ 18) }
        requires length { word.length ≤ 128 }
        ensures { self.new ≡ with_prefix self.old high word }
    {
        let masks = mask_halves(word.length);
        self.put(high, (word.high, masks.0));
        self.put(high + 1, (word.low, masks.1));
    }

    fn take_ipv6(&mut self, name: FieldName, high: u32, word: &[u8]) -> bool
        requires { (high ≡ 16) ⊎ (high ≡ 18) }
        ensures { (if result then Some self.new else None) ≡ with_ipv6 self.old name high word.now }
    {
        let Some(prefix) = read_ipv6(word) else {
            return false;
        };
        self.name(name);
        self.put_prefix(high, prefix);
        true
    }

    fn take_address(&mut self, name: FieldName, high: u32, word: &[u8]) -> bool
        requires { (high ≡ 16) ⊎ (high ≡ 18) }
        ensures { (if result then Some self.new else None)
            ≡ (if has_colon word.now then with_ipv6 self.old name high word.now
            else with_one self.old name word.now) }
    {
        if has_colon(word) {
            self.take_ipv6(name, high, word)
        } else {
            self.take_one(name, word)
        }
    }

    // Takes a field more, where the word is a value of that name.
    pub(crate) fn take(&mut self, name: FieldName, word: &[u8]) -> bool
        ensures { (if result then Some self.new else None) ≡ with_field self.old name word.now }
    {
        match name {
            FieldName::SrcIp => self.take_address(name, field::SRC_IP6_HIGH, word),
            FieldName::DstIp => self.take_address(name, field::DST_IP6_HIGH, word),
            _ => self.take_one(name, word),
        }
    }
}

//! What the words of fields spell.
ghost use Rattle.std.specs.Prelude.{◌≡◌, ◌≤◌};
ghost use Rattle.tc_words.specs.Addresses.{ipv4_of};
ghost use Rattle.line_words.specs.Forms.{ether_type_of, ip_protocol_of};
ghost use Rattle.tc_batch.specs.FieldNames.{whole, field_value};

use crate::field_name::FieldName;
use line_words::{read_ether_type, read_ip_protocol, read_masked_hex, read_masked_octet};
use tc_words::{read_ipv4, read_mac, read_number};

// A value that counts in all bits of a field of that width.
fn whole(value: Option<u32>, width: u32) -> Option<(u64, u64)>
    requires { width ≤ 16 }
    ensures { result ≡ whole width value }
{
    Some((u64::from(value?), (1 << width) - 1))
}

fn ether_type_value(word: &[u8]) -> Option<(u64, u64)>
    ensures { result ≡ whole 16 (ether_type_of word.now) }
{
    Some((u64::from(read_ether_type(word)?), u64::from(u16::MAX)))
}

fn ip_protocol_value(word: &[u8]) -> Option<(u64, u64)>
    ensures { result ≡ whole 8 (ip_protocol_of word.now) }
{
    Some((u64::from(read_ip_protocol(word)?), u64::from(u8::MAX)))
}

fn ipv4_value(word: &[u8]) -> Option<(u64, u64)>
    ensures { result ≡ ipv4_of word.now }
{
    let (address, mask) = read_ipv4(word)?;
    Some((u64::from(address), u64::from(mask)))
}

// The value under its mask, and the mask, that a word gives a field. An address is one of IPv4 here.
pub(crate) fn read_field_value(name: FieldName, word: &[u8]) -> Option<(u64, u64)>
    ensures { result ≡ field_value name word.now }
{
    match name {
        FieldName::DstMac | FieldName::SrcMac => read_mac(word),
        FieldName::VlanId | FieldName::CvlanId => whole(read_number(word, 4_095), 12),
        FieldName::VlanPrio | FieldName::CvlanPrio => whole(read_number(word, 7), 3),
        FieldName::VlanEthtype | FieldName::CvlanEthtype => ether_type_value(word),
        FieldName::IpProto => ip_protocol_value(word),
        FieldName::SrcIp | FieldName::DstIp => ipv4_value(word),
        FieldName::SrcPort | FieldName::DstPort => whole(read_number(word, 65_535), 16),
        FieldName::TcpFlags => read_masked_hex(word, 3),
        FieldName::IpTos => read_masked_hex(word, 2),
        FieldName::IpTtl => read_masked_octet(word),
    }
}

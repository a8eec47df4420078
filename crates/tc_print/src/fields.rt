//! The fields of a filter.
//!
//! A field whose mask is 0 is not printed. The numbers of the fields are those of `flow_fields::field`.
ghost use Rattle.std.specs.Prelude.{◌≡◌, ◌+◌, ◌^◌, ◌<◌, ◌==◌, ◌&&◌, [], ◌∷◌, ◌++◌, fold, codes, OnOk};
ghost use Rattle.std.specs.Prelude.{if◌then◌else◌};
ghost use Rattle.flow_fields.specs.Table.{field_at};
ghost use Rattle.line_texts.specs.Texts.{ipv6_text, ipv6_length_of};
ghost use Rattle.tc_batch.specs.FieldNames.{field_number};
ghost use Rattle.tc_print.specs.FieldWords.{value_by_number, name_text, value_text, field_words};
ghost use Rattle.tc_print.specs.FieldWords.{prefix_words, named_words};
ghost use Rattle.tc_print.specs.FieldWords.{prefixes_words, fields_words};
ghost use Rattle.tc_print.specs.Texts.{onto};

use crate::texts::{
    push_decimal, push_ether_type_word, push_ip_protocol_word, push_ipv4_word, push_ipv6_word,
    push_mac_word, push_masked_hex_word, push_masked_octet_word, push_word,
};
use flow_fields::{Key, field, get};
use std::alloc::AllocError;
use tc_batch::FieldName;

// The fields with one value each, in the order of their table.
const NAMES: [FieldName; 16] = [
    FieldName::DstMac,
    FieldName::SrcMac,
    FieldName::VlanId,
    FieldName::VlanPrio,
    FieldName::VlanEthtype,
    FieldName::IpProto,
    FieldName::SrcIp,
    FieldName::DstIp,
    FieldName::SrcPort,
    FieldName::DstPort,
    FieldName::TcpFlags,
    FieldName::CvlanId,
    FieldName::CvlanPrio,
    FieldName::CvlanEthtype,
    FieldName::IpTos,
    FieldName::IpTtl,
];

#[tactic(auto, using(crate::proofs::FieldPlaces::word_below))]
fn value(key: &Key<14>, number: u32) -> u64
    requires { number < 20 }
    ensures { result ≡ value_by_number key.now.words number }
{
    get(key, number)
}

// The name of a field.
fn name_text(name: FieldName) -> &'static str
    ensures { result.now ≡ name_text name }
{
    match name {
        FieldName::DstMac => "dst_mac",
        FieldName::SrcMac => "src_mac",
        FieldName::VlanId => "vlan_id",
        FieldName::VlanPrio => "vlan_prio",
        FieldName::VlanEthtype => "vlan_ethtype",
        FieldName::IpProto => "ip_proto",
        FieldName::SrcIp => "src_ip",
        FieldName::DstIp => "dst_ip",
        FieldName::SrcPort => "src_port",
        FieldName::DstPort => "dst_port",
        FieldName::TcpFlags => "tcp_flags",
        FieldName::CvlanId => "cvlan_id",
        FieldName::CvlanPrio => "cvlan_prio",
        FieldName::CvlanEthtype => "cvlan_ethtype",
        FieldName::IpTos => "ip_tos",
        FieldName::IpTtl => "ip_ttl",
    }
}

// The value of a field under its mask, in the form that its name asks for.
fn push_value(out: &mut Vec<u8>, name: FieldName, value: u64, mask: u64) -> Result<(), AllocError>
    requires value { value < 2 ^ (field_at (field_number name)).width }
    requires mask { mask < 2 ^ (field_at (field_number name)).width }
    ensures { OnOk result (out.new.items ≡ onto out.old.items (value_text name value mask)) }
{
    match name {
        FieldName::DstMac | FieldName::SrcMac => push_mac_word(out, value, mask),
        FieldName::VlanEthtype | FieldName::CvlanEthtype => {
            push_ether_type_word(out, value as u16)
        }
        FieldName::IpProto => push_ip_protocol_word(out, value as u8),
        FieldName::SrcIp | FieldName::DstIp => push_ipv4_word(out, value as u32, mask as u32),
        FieldName::TcpFlags | FieldName::IpTos => push_masked_hex_word(out, value, mask),
        FieldName::IpTtl => push_masked_octet_word(out, value, mask),
        FieldName::VlanId | FieldName::VlanPrio | FieldName::SrcPort => push_decimal(out, value),
        FieldName::DstPort | FieldName::CvlanId | FieldName::CvlanPrio => push_decimal(out, value),
    }
}

#[tactic(auto, using(crate::proofs::Copies::fits))]
fn push_field(
    out: &mut Vec<u8>,
    name: FieldName,
    key: &Key<14>,
    mask: &Key<14>,
) -> Result<(), AllocError>
    ensures { OnOk result (out.new.items
        ≡ fold onto out.old.items (field_words key.now.words mask.now.words name)) }
{
    let number = name.number();
    if value(mask, number) == 0 {
        return Ok(());
    }
    push_word(out, name_text(name))?;
    push_value(out, name, value(key, number), value(mask, number))
}

// The fields of some names, in order.
fn push_names(
    out: &mut Vec<u8>,
    names: &[FieldName],
    key: &Key<14>,
    mask: &Key<14>,
) -> Result<(), AllocError>
    ensures { OnOk result (out.new.items
        ≡ fold onto out.old.items (named_words key.now.words mask.now.words names.now)) }
{
    for name in names {
        push_field(out, *name, key, mask)?;
    }
    Ok(())
}

// An IPv6 address by the number of its high half.
fn push_ipv6_field(
    out: &mut Vec<u8>,
    name: &str,
    high: u32,
    key: &Key<14>,
    mask: &Key<14>,
) -> Result<(), AllocError>
    requires { high < 19 }
    ensures { OnOk result (out.new.items
        ≡ fold onto out.old.items (prefix_words key.now.words mask.now.words high name.now)) }
{
    let mask_high = value(mask, high);
    let mask_low = value(mask, high + 1);
    if mask_high == 0 && mask_low == 0 {
        return Ok(());
    }
    push_word(out, name)?;
    push_ipv6_word(
        out,
        value(key, high),
        value(key, high + 1),
        mask_high,
        mask_low,
    )
}

#[tactic(auto, using(crate::proofs::Grown::onto_append))]
fn push_ipv6_fields(out: &mut Vec<u8>, key: &Key<14>, mask: &Key<14>) -> Result<(), AllocError>
    ensures { OnOk result (out.new.items
        ≡ fold onto out.old.items (prefixes_words key.now.words mask.now.words)) }
{
    push_ipv6_field(out, "src_ip", field::SRC_IP6_HIGH, key, mask)?;
    push_ipv6_field(out, "dst_ip", field::DST_IP6_HIGH, key, mask)
}

/// Puts the fields of a filter behind a line, each by its name and its value (tc-flower(8)).
///
/// `AllocError`: memory was refused.
#[tactic(auto, using(crate::proofs::Grown::onto_append))]
pub fn push_fields(out: &mut Vec<u8>, key: &Key<14>, mask: &Key<14>) -> Result<(), AllocError>
    ensures { OnOk result (out.new.items
        ≡ fold onto out.old.items (fields_words key.now.words mask.now.words)) }
{
    push_names(out, &NAMES, key, mask)?;
    push_ipv6_fields(out, key, mask)
}

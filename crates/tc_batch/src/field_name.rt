//! The names of the fields that a filter line can name.
ghost use Rattle.std.specs.Prelude.{◌≡◌, ◌<◌};
ghost use Rattle.tc_batch.specs.FieldNames.{field_name, field_number};

use crate::keywords::spelled;
use flow_fields::field;
use tc_words::is_text;

/// The fields that a filter line can name. `SrcIp` and `DstIp` stand for addresses of IPv4 and of IPv6, which
/// are fields of their own in a key.
#[derive(Clone, Copy, Debug, PartialEq, Eq)]
pub enum FieldName {
    DstMac,
    SrcMac,
    VlanId,
    VlanPrio,
    VlanEthtype,
    IpProto,
    SrcIp,
    DstIp,
    SrcPort,
    DstPort,
    TcpFlags,
    CvlanId,
    CvlanPrio,
    CvlanEthtype,
    IpTos,
    IpTtl,
}

pub(crate) fn read_field_name(word: &[u8]) -> Option<FieldName>
    ensures { result ≡ field_name word.now }
{
    spelled!(word;
        "dst_mac" => FieldName::DstMac,
        "src_mac" => FieldName::SrcMac,
        "vlan_id" => FieldName::VlanId,
        "vlan_prio" => FieldName::VlanPrio,
        "vlan_ethtype" => FieldName::VlanEthtype,
        "ip_proto" => FieldName::IpProto,
        "src_ip" => FieldName::SrcIp,
        "dst_ip" => FieldName::DstIp,
        "src_port" => FieldName::SrcPort,
        "dst_port" => FieldName::DstPort,
        "tcp_flags" => FieldName::TcpFlags,
        "cvlan_id" => FieldName::CvlanId,
        "cvlan_prio" => FieldName::CvlanPrio,
        "cvlan_ethtype" => FieldName::CvlanEthtype,
        "ip_tos" => FieldName::IpTos,
        "ip_ttl" => FieldName::IpTtl,
    )
}

impl FieldName {
    /// The number of the field in the table of fields; for an address, of the field that holds it for IPv4.
    pub fn number(self) -> u32
        ensures value { result ≡ field_number self }
        ensures below { result < 16 }
    {
        match self {
            FieldName::DstMac => field::DST_MAC,
            FieldName::SrcMac => field::SRC_MAC,
            FieldName::VlanId => field::VLAN_ID,
            FieldName::VlanPrio => field::VLAN_PRIO,
            FieldName::VlanEthtype => field::VLAN_ETHTYPE,
            FieldName::IpProto => field::IP_PROTO,
            FieldName::SrcIp => field::SRC_IP,
            FieldName::DstIp => field::DST_IP,
            FieldName::SrcPort => field::SRC_PORT,
            FieldName::DstPort => field::DST_PORT,
            FieldName::TcpFlags => field::TCP_FLAGS,
            FieldName::CvlanId => field::CVLAN_ID,
            FieldName::CvlanPrio => field::CVLAN_PRIO,
            FieldName::CvlanEthtype => field::CVLAN_ETHTYPE,
            FieldName::IpTos => field::IP_TOS,
            FieldName::IpTtl => field::IP_TTL,
        }
    }
}

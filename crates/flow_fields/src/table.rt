//! The table of the fields.
ghost use Rattle.std.specs.Prelude.{◌≡◌, ◌<◌, length, map, position, IfSome};
ghost use Rattle.flow_fields.specs.Table.{fields, field_at, field_named, field_of_row, has_name, IsPlaced};

/// How a field's value is written in text.
#[derive(Clone, Copy, Debug, PartialEq, Eq)]
pub enum Form {
    /// An Ethernet address.
    Mac,
    /// A number.
    Number,
    /// An EtherType, by its name or its number.
    EtherName,
    /// An IP protocol, by its name or its number.
    ProtoName,
    /// An IPv4 address.
    Ipv4,
    /// Half of an IPv6 address.
    Ipv6,
    /// A hexadecimal number in which each bit has a meaning.
    Flags,
}

/// One field: its name, the `width` bits from bit `shift` on of a key's word `word`, and how its value is
/// written.
#[derive(Clone, Copy, Debug)]
pub struct FieldRow {
    pub name: &'static [u8],
    pub word: u32,
    pub shift: u32,
    pub width: u32,
    pub form: Form,
}

macro_rules! rows {
    ($($name:literal $word:literal $shift:literal $width:literal $form:ident;)*) => {
        [$(FieldRow { name: $name, word: $word, shift: $shift, width: $width, form: Form::$form }),*]
    };
}

/// The fields, by their numbers. A line of the table is the name, word, shift, width and form of one field.
pub const FIELDS: [FieldRow; 20] = rows! {
    b"dst_mac" 0 0 48 Mac;
    b"src_mac" 1 0 48 Mac;
    b"vlan_id" 2 0 12 Number;
    b"vlan_prio" 2 16 3 Number;
    b"vlan_ethtype" 2 32 16 EtherName;
    b"ip_proto" 3 0 8 ProtoName;
    b"src_ip" 4 0 32 Ipv4;
    b"dst_ip" 5 0 32 Ipv4;
    b"src_port" 6 0 16 Number;
    b"dst_port" 6 16 16 Number;
    b"tcp_flags" 7 0 12 Flags;
    b"cvlan_id" 8 0 12 Number;
    b"cvlan_prio" 8 16 3 Number;
    b"cvlan_ethtype" 8 32 16 EtherName;
    b"ip_tos" 9 0 8 Flags;
    b"ip_ttl" 9 8 8 Number;
    b"src_ip6_high" 10 0 64 Ipv6;
    b"src_ip6_low" 11 0 64 Ipv6;
    b"dst_ip6_high" 12 0 64 Ipv6;
    b"dst_ip6_low" 13 0 64 Ipv6;
};

/// The rows of the table, by the numbers of their fields.
///
/// Its contract is what ties the table to the fields as `specs/Table.antt` lists them.
#[inline]
#[tactic(auto, unfolding(crate::specs::Table::fields))]
pub fn rows() -> &'static [FieldRow]
    ensures fields { map field_of_row result.now ≡ fields }
    ensures length { length result.now ≡ 20 }
{
    &FIELDS
}

/// The row of a field.
#[inline]
pub fn row(field: u32) -> FieldRow
    requires { field < 20 }
    ensures field { field_of_row result ≡ field_at field }
    ensures placed { IsPlaced (field_at field) }
{
    rows()[field as usize]
}

// The place of the first row with that name, for `field_of` alone.
fn place_of(rows: &[FieldRow], name: &[u8]) -> Option<usize>
    ensures { result ≡ position (λ row. has_name name.now (field_of_row row)) rows.now }
{
    rows.iter().position(|row| row.name == name)
}

/// The number of the field with that name. `None` exactly where no field has it.
///
/// No command calls it: it carries the law that the table names each field as its definition does.
pub fn field_of(name: &[u8]) -> Option<u32>
    ensures number { result ≡ field_named name.now }
    ensures below { IfSome result (λ field. field < 20) }
{
    match place_of(rows(), name) {
        Some(place) => Some(place as u32),
        None => None,
    }
}

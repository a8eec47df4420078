//! Batch lines with what they say.
use line_range_laws::lines_are_in_range;
use std::alloc::Global;
use std::test::Fail;
use tc_batch::{LineFault, is_command, line};
use tc_print::print_edit;
use tc_words::{lines, read_decimal};

// Each table is lines in pairs: a batch line, and behind it what it says: the edit that it gives, as it is
// printed, or `bad` and the number of its first bad word.

// Whole lines of each kind.
const WHOLE_LINES: &[u8] = b"\
qdisc add dev eth0 clsact
qdisc add dev eth0 clsact
\tqdisc  del dev eth0 clsact # gone
qdisc del dev eth0 clsact
filter add dev eth0 ingress protocol ip pref 10 flower dst_ip 10.0.0.1/32 action drop
filter add dev eth0 ingress protocol ip pref 10 chain 0 flower dst_ip 10.0.0.1/32 action gact drop
filter add dev eth0 egress priority 0x10 handle 0X1f chain 5 protocol 0x88A8 flower src_mac AA:bb:CC:dd:ee:ff dst_mac 02:11:22:33:44:55/ff:ff:ff:00:00:00 ip_proto udp dst_port 53 src_port 0x35 vlan_prio 7 vlan_id 4095 vlan_ethtype ipv4 ip_tos 1f/f ip_ttl 64 cvlan_id 0 cvlan_prio 1 cvlan_ethtype 0x1 src_ip 10.1.2.3/8 dst_ip 2001:db8::1/32
filter add dev eth0 egress protocol 802.1ad pref 16 chain 5 handle 0x1f flower dst_mac 02:11:22:00:00:00/ff:ff:ff:00:00:00 src_mac aa:bb:cc:dd:ee:ff vlan_id 4095 vlan_prio 7 vlan_ethtype ip ip_proto udp src_ip 10.0.0.0/8 src_port 53 dst_port 53 cvlan_id 0 cvlan_prio 1 cvlan_ethtype 0x0001 ip_tos 0xf/0xf ip_ttl 64/255 dst_ip 2001:db8:0:0:0:0:0:0/32
filter replace dev eth0 ingress handle 0x1 preference 5 flower action gact index 4294967295 action skbedit index 7
filter replace dev eth0 ingress protocol all pref 5 chain 0 handle 0x1 flower action gact index 4294967295 action skbedit index 7
filter del dev eth0 ingress pref 10
filter del dev eth0 ingress pref 10 chain 0
filter del dev eth0 egress protocol arp prio 10 handle 31 flower
filter del dev eth0 egress protocol arp pref 10 chain 0 handle 0x1f flower
actions add action drop index 5
actions add action gact drop index 5
actions add action gact jump 268435455
actions add action gact jump 268435455
actions change action vlan pop index 2
actions change action vlan pop pipe index 2
actions del action skbedit index 0x10
actions del action skbedit index 16
";

// Actions and controls.
const ACTIONS: &[u8] = b"\
filter add dev eth0 ingress flower action pass action shot action continue action pipe action reclassify action jump 0 action goto chain 268435455
filter add dev eth0 ingress protocol all chain 0 flower action gact ok action gact drop action gact continue action gact pipe action gact reclassify action gact jump 0 action gact goto chain 268435455
actions add action vlan push id 5
actions add action vlan push protocol 802.1Q id 5 priority 0 pipe
actions add action vlan push priority 7 protocol 802.1AD id 4094 ok
actions add action vlan push protocol 802.1ad id 4094 priority 7 ok
actions add action vlan modify id 5
actions add action vlan modify protocol 802.1Q id 5 pipe
actions add action vlan modify id 6 priority 3 drop index 0x7
actions add action vlan modify protocol 802.1Q id 6 priority 3 drop index 7
actions add action skbedit mark 4294967295 priority ffff:ab queue_mapping 65535 reclassify
actions add action skbedit queue_mapping 65535 priority ffff:ab mark 4294967295 reclassify
actions add action skbedit priority 1:10
actions add action skbedit priority 1:10 pipe
";

// Octets and lengths of prefixes are decimal without a needless 0.
const ADDRESSES: &[u8] = b"\
filter add dev eth0 ingress flower dst_ip 10.0.0.1/0x18
bad 8
filter add dev eth0 ingress flower dst_ip 10.0.0.1/08
bad 8
filter add dev eth0 ingress flower dst_ip 010.0.0.1
bad 8
filter add dev eth0 ingress flower dst_mac 02:00:00:00:00:01/0x18
bad 8
filter add dev eth0 ingress flower src_ip 2001:db8::/032
bad 8
filter add dev eth0 ingress flower dst_ip 10.0.0.1/33
bad 8
";

// `0X` stands only before a number that may be in either form.
const MARKS: &[u8] = b"\
filter add dev eth0 ingress protocol 0X800 flower
bad 7
filter add dev eth0 ingress protocol 0x88A8 pref 0X0A flower
filter add dev eth0 ingress protocol 802.1ad pref 10 chain 0 flower
filter add dev eth0 ingress flower ip_proto 0X11
bad 8
filter add dev eth0 ingress protocol 800 flower
bad 7
";

// A carriage return and other white space are bytes of a word.
const WHITE_SPACE: &[u8] = b"\
actions add action drop\r# c
bad 4
\r\r
bad 1
qdisc\x0badd dev eth0 clsact
bad 1
qdisc add\x0cdev eth0 clsact
bad 2
qdisc add dev\x00eth0 clsact
bad 3
qdisc add dev eth0\xc2\xa0clsact
bad 4
";

// A del.
const DELS: &[u8] = b"\
filter del dev eth0 ingress pref 10 flower
filter del dev eth0 ingress pref 10 chain 0
filter del dev eth0 ingress handle 1 flower
bad 8
filter del dev eth0 ingress flower
bad 6
filter del dev eth0 ingress dst_ip 10.0.0.1
bad 6
filter del dev eth0 ingress
bad 6
filter del dev eth0 ingress chain 5
bad 8
filter del dev eth0 ingress pref 5 handle 1
bad 10
filter del dev eth0 ingress pref 5 flower action
bad 9
";

// A replace.
const REPLACES: &[u8] = b"\
filter replace dev eth0 ingress handle 1 flower
bad 8
filter replace dev eth0 ingress pref 1 flower
bad 8
filter replace dev eth0 ingress pref 1 handle
bad 9
";

// Options.
const OPTIONS: &[u8] = b"\
filter add dev eth0 ingress pref 0 flower
bad 7
filter add dev eth0 ingress pref 65536 flower
bad 7
filter add dev eth0 ingress pref 1 prio 2 flower
bad 8
filter add dev eth0 ingress chain 268435456 flower
bad 7
filter add dev eth0 ingress handle 0 flower
bad 7
filter add dev eth0 ingress handle 0x000000001 flower
bad 7
filter add dev eth0 ingress handle 0x00000001 flower
filter add dev eth0 ingress protocol all chain 0 handle 0x1 flower
filter add dev eth0 ingress chain 05 flower
bad 7
filter add dev eth0 ingress
bad 6
";

// Ports and flags stand behind the protocol that has them.
const HEADERS: &[u8] = b"\
filter add dev eth0 ingress flower tcp_flags 0x2
bad 7
filter add dev eth0 ingress flower src_port 5 ip_proto udp
bad 7
filter add dev eth0 ingress protocol ip pref 10 flower dst_port 53 action drop
bad 11
filter add dev eth0 ingress flower ip_proto udp tcp_flags 2
bad 9
filter add dev eth0 ingress flower ip_proto icmp dst_port 5
bad 9
filter add dev eth0 ingress flower ip_proto tcp tcp_flags 0x12/3
filter add dev eth0 ingress protocol all chain 0 flower ip_proto tcp tcp_flags 0x2/0x3
filter add dev eth0 ingress flower ip_proto 17
filter add dev eth0 ingress protocol all chain 0 flower ip_proto 0x17
filter add dev eth0 ingress flower ip_proto 17 dst_port 5
bad 9
filter add dev eth0 ingress flower ip_proto 11 dst_port 0
filter add dev eth0 ingress protocol all chain 0 flower ip_proto udp dst_port 0
filter add dev eth0 ingress flower ip_proto icmpv6 ip_ttl 0xff/1
filter add dev eth0 ingress protocol all chain 0 flower ip_proto 0x3a ip_ttl 1/1
filter add dev eth0 ingress flower ip_proto 100
bad 8
";

// Fields.
const FIELDS: &[u8] = b"\
filter add dev eth0 ingress flower vlan_id 4096
bad 8
filter add dev eth0 ingress flower cvlan_prio 8
bad 8
filter add dev eth0 ingress flower ip_ttl 256
bad 8
filter add dev eth0 ingress flower ip_tos 100
bad 8
filter add dev eth0 ingress flower src_ip6_high 1
bad 7
filter add dev eth0 ingress flower vlan_id
bad 8
filter add dev eth0 ingress flower src_ip 10.0.0.1 dst_ip ::1
filter add dev eth0 ingress protocol all chain 0 flower src_ip 10.0.0.1/32 dst_ip 0:0:0:0:0:0:0:1/128
filter add dev eth0 ingress flower src_ip 10.0.0.1 src_ip ::1
bad 9
";

// A field whose mask is 0 leaves no trace, but has stood.
const EMPTY_MASKS: &[u8] = b"\
filter add dev eth0 ingress flower dst_ip 10.0.0.1/0
filter add dev eth0 ingress protocol all chain 0 flower
filter add dev eth0 ingress flower dst_mac 02:00:00:00:00:01/0 ip_tos 5/0 ip_ttl 5/0 src_ip ff::/0
filter add dev eth0 ingress protocol all chain 0 flower
filter add dev eth0 ingress flower dst_ip 10.0.0.1/0 dst_ip 10.0.0.1
bad 9
";

// Actions apart from filters.
const SHARED_ACTIONS: &[u8] = b"\
actions add action gact index 5
bad 5
actions add action index 5
bad 4
actions change action drop
bad 5
actions change action drop index
bad 6
actions add action goto chain 5
bad 4
actions change action gact goto chain 5 index 1
bad 5
actions add action jump 268435456
bad 5
actions add action ok action
bad 5
actions add action ok index 0
bad 6
actions add action ok index 4294967296
bad 6
actions del action gact
bad 5
actions del action drop index 1
bad 4
";

// What an action needs.
const NEEDS: &[u8] = b"\
actions add action skbedit pipe
bad 5
actions add action skbedit mark 1 mark 2
bad 7
actions add action skbedit queue_mapping 65536
bad 6
actions add action skbedit priority 12345:1
bad 6
actions add action skbedit priority 1:
bad 6
actions add action vlan push pipe
bad 6
actions add action vlan push index 3
bad 6
actions add action vlan push id 4095
bad 7
actions add action vlan push id 5 protocol ip
bad 9
actions add action vlan index 5
bad 5
filter add dev eth0 ingress flower action goto 5
bad 9
";

// Fixed words, and lines that are cut.
const FIXED_WORDS: &[u8] = b"\
qdisc add dev eth1 clsact
bad 4
qdisc add dev eth0
bad 5
qdisc add dev eth0 clsact x
bad 6
";

// The number of the first bad word, where the answer is one.
fn bad_word(answer: &[u8]) -> Option<u32> {
    match answer {
        [b'b', b'a', b'd', b' ', digits @ ..] => read_decimal(digits, 1_000),
        _ => None,
    }
}

fn is_answered(alloc: Global, text: &[u8], answer: &[u8]) -> Result<bool, Fail> {
    match (line(alloc, text), bad_word(answer)) {
        (Ok(edit), None) => {
            // What a line gives can be printed.
            lines_are_in_range();
            let printed = print_edit(alloc, &edit)?;
            Ok(printed.as_slice() == answer)
        }
        (Err(LineFault::Syntax { word }), Some(at)) => Ok(word == at),
        _ => Ok(false),
    }
}

// Whether each line of a table is answered so, and each printed line is read as the edit that it was printed
// from.
fn are_answered(alloc: Global, table: &[u8]) -> Result<bool, Fail> {
    let mut text = None;
    for row in &lines(alloc, table)? {
        match text {
            None => text = Some(*row),
            Some(line) => {
                let again = bad_word(row).is_some() || is_answered(alloc, row, row)?;
                if !again || !is_answered(alloc, line, row)? {
                    return Ok(false);
                }
                text = None;
            }
        }
    }
    Ok(text.is_none())
}

#[test]
fn lines_and_their_edits(rt: HostRuntime) -> Result<(), Fail> {
    let tables = [
        WHOLE_LINES,
        ACTIONS,
        ADDRESSES,
        MARKS,
        WHITE_SPACE,
        DELS,
        REPLACES,
        OPTIONS,
        HEADERS,
        FIELDS,
        EMPTY_MASKS,
        SHARED_ACTIONS,
        NEEDS,
        FIXED_WORDS,
    ];
    for table in tables {
        assert!(rt; are_answered(rt.alloc(), table)?);
    }
    Ok(())
}

// A filter line with so many actions.
fn filter_with(alloc: Global, actions: usize) -> Result<Vec<u8>, Fail> {
    let mut text = Vec::new(alloc);
    text.extend_from_slice(b"filter add dev eth0 ingress flower")?;
    for _ in 0..actions {
        text.extend_from_slice(b" action ok")?;
    }
    Ok(text)
}

#[test]
fn sixteen_actions_at_most(rt: HostRuntime) -> Result<(), Fail> {
    assert!(rt; line(rt.alloc(), &filter_with(rt.alloc(), 16)?).is_ok());
    // Six words before the actions, and two words each: the seventeenth begins at word 39.
    assert!(rt; is_answered(rt.alloc(), &filter_with(rt.alloc(), 17)?, b"bad 39")?);
    Ok(())
}

#[test]
fn commands_of_files(rt: HostRuntime) -> Result<(), Fail> {
    let files: [(&[u8], &[bool]); 5] = [
        (b"", &[]),
        (b"\r", &[false]),
        (b"qdisc add dev eth0 clsact\r\n", &[true]),
        (b"\n# only a comment\n \t\nx", &[false, false, false, true]),
        (b"drop\r# c\n\r\r\n", &[true, true]),
    ];
    for (file, expected) in files {
        let found = lines(rt.alloc(), file)?;
        assert_eq!(rt; found.len(), expected.len());
        for (text, command) in found.iter().zip(expected) {
            assert_eq!(rt; is_command(text), *command);
        }
    }
    Ok(())
}

//! What is generated for four filters, written down by hand.
use crate::same::same;
use gen_files::{gen_batch, gen_job, gen_packets};
use std::test::Fail;

const BATCH: &str = "\
qdisc add dev eth0 clsact
filter add dev eth0 ingress protocol ip pref 10 flower dst_ip 10.0.0.0 action ok index 2
filter add dev eth0 ingress protocol ip pref 10 flower dst_ip 10.0.0.1 action ok index 2
filter add dev eth0 ingress protocol ip pref 10 flower dst_ip 10.0.0.2 action ok index 2
filter add dev eth0 ingress protocol ip pref 10 flower dst_ip 10.0.0.3 action drop index 1
";

const JOB: &str = "\
clsact job 1
workers 4
controls 1
round
batch 1 a/b.tc
round
capture ingress a/b.pcap a/b.out.pcap
end
";

#[test]
fn four_filters_are_made(rt: HostRuntime) -> Result<(), Fail> {
    same(&rt, gen_batch(rt.alloc(), 4)?.as_slice(), BATCH.as_bytes());
    same(&rt, gen_job(rt.alloc(), "a/b")?.as_slice(), JOB.as_bytes());
    Ok(())
}

#[test]
fn packets_go_to_twice_as_many_addresses(rt: HostRuntime) -> Result<(), Fail> {
    // So the capture has 24 bytes, and 76 a packet: 7,471,128.
    let packets = gen_packets(rt.alloc(), 4096)?;
    same(&rt, packets.len(), 98_304);
    same(&rt, packets.byte_count(), 98_304 * 60);
    // Packet 8,195 is the fourth of the second turn.
    let packet = packets.iter().nth(8195).ok_or("no packet")?;
    same(&rt, packet.seconds, 8195);
    same(
        &rt,
        packet.bytes.get(30..34),
        Some([10, 0, 0, 3].as_slice()),
    );
    Ok(())
}

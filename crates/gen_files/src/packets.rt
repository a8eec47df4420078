//! The packets of the capture.
ghost use Rattle.gen_files.specs.declared.limits.TheConstants.{GEN_MAX};
ghost use Rattle.std.specs.Prelude.{◌≡◌, ◌≤◌, ◌<◌, ◌*◌, ◌++◌, [], length, IfOk, OnOk};
ghost use Rattle.pcap_io.specs.Captures.{AreShort};
ghost use Rattle.gen_files.specs.Generated.{frame_front, frame_back, frame_to, packets_of};

use pcap_io::{PacketView, Packets};
use std::alloc::{AllocError, Global};
use tc_base::NoMemory;

// The addresses, EtherType 0x0800, and an IPv4 header of a UDP packet from 10.0.0.254.
const FRONT: [u8; 30] = [
    2, 0, 0, 0, 0, 1, 2, 0, 0, 0, 0, 2, 8, 0, 0x45, 0, 0, 0x2e, 0, 0, 0, 0, 0x40, 0x11, 0, 0, 10,
    0, 0, 0xfe,
];

// Ports 5000 and 53, and 18 bytes of payload.
const BACK: [u8; 26] = [
    0x13, 0x88, 0, 0x35, 0, 0x1a, 0, 0, 0, 0, 0, 0, 0, 0, 0, 0, 0, 0, 0, 0, 0, 0, 0, 0, 0, 0,
];

// Makes the frame to the address of that index, in place of what is there.
fn make_frame(frame: &mut Vec<u8>, index: u32) -> Result<(), AllocError>
    requires { index < 65536 }
    ensures { OnOk result (frame.new.items ≡ frame_to index) }
{
    frame.clear();
    frame.extend_from_slice(&FRONT)?;
    frame.extend_from_slice(&[10, 0, (index / 256) as u8, (index % 256) as u8])?;
    frame.extend_from_slice(&BACK)
}

/// The packets for at most 4,096 filters: 24 for each, a second apart, to twice as many addresses in turn.
///
/// `NoMemory`: memory was refused.
pub fn gen_packets(alloc: Global, filters: u32) -> Result<Packets, NoMemory>
    requires some { 1 ≤ filters }
    requires few { filters ≤ GEN_MAX }
    ensures packets { IfOk result (λ packets. packets ≡ packets_of filters) }
    ensures short { IfOk result (λ packets. AreShort packets) }
{
    let count = 24 * filters;
    let mut packets = Packets::with_room(alloc, count as usize, count as usize * 60)?;
    let mut frame = Vec::with_capacity(alloc, 60)?;
    for number in 0..count {
        make_frame(&mut frame, number % (2 * filters))?;
        packets.push(PacketView {
            seconds: number,
            fraction: 0,
            original: 60,
            bytes: &frame,
        })?;
    }
    Ok(packets)
}

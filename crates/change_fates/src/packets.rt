//! The packets of a capture, one after the other.
ghost use Rattle.frame_edit.specs.declared.limits.TheConstants.{FRAME_MAX};
ghost use Rattle.std.specs.Prelude.{◌≡◌, ◌≤◌, ◌++◌, List, ℕ, Option, length, IfOk, OnOk, IsErrOf};
ghost use Rattle.tc_base.specs.Outside.{AppendsUpTo, Rose};
ghost use Rattle.pcap_io.specs.Captures.{AreShort};
ghost use Rattle.walk_ends.specs.declared.limits.TheConstants.{PACKETS_MAX};
ghost use Rattle.walk_texts.specs.Texts.{joined};
ghost use Rattle.change_fates.specs.Told.{kind_in, kinds_in, counts_of, packet_lines, packets_lines};
ghost use Rattle.change_fates.specs.Paging.{IsOnPage};

use crate::counts::KindCounts;
use crate::fates::Room;
use crate::finding::Finding;
use crate::known::Known;
use fate_times::Kind;
use pcap_io::Packets;
use std::alloc::Global;
use tc_base::{Put, Sink};

// Writes the lines of the packet of that number, and tells its kind.
fn write_packet<O: Sink>(
    room: &mut Room,
    finding: &mut Finding,
    known: &Known<'_>,
    number: u64,
    bytes: &[u8],
    out: &mut O,
) -> Result<Kind, Put>
    requires short { length bytes.now ≤ FRAME_MAX }
    ensures kind { IfOk result (λ kind. kind ≡ kind_in known.now bytes.now) }
    ensures on { OnOk result ((first : Option (List ℕ)) (whole rest : List ℕ)
        → IsOnPage first (O.written out.old) whole room.old.page
        (joined (packet_lines known.now number bytes.now) ++ rest)
        → IsOnPage first (O.written out.new) whole room.new.page rest) }
    ensures up_to { (first : Option (List ℕ)) (whole rest : List ℕ)
        → IsOnPage first (O.written out.old) whole room.old.page
        (joined (packet_lines known.now number bytes.now) ++ rest)
        → AppendsUpTo first (O.written out.new) whole }
    ensures later { O.faults out.old ≤ O.faults out.new }
    ensures cause { IsErrOf result Put.Failed → Rose (O.faults out.old) (O.faults out.new) }
{
    let seen = finding.find(known, bytes)?;
    room.put_packet(number, seen)?;
    room.write_fates(known, finding, number, bytes, out)?;
    Ok(seen.kind)
}

/// Writes the lines of packets of at most 262,144 bytes each, and tells how many are of each kind.
///
/// `Failed`: the sink could not write. `NoMemory`: memory was refused.
pub(crate) fn write_packets<O: Sink>(
    alloc: Global,
    room: &mut Room,
    known: &Known<'_>,
    packets: &Packets,
    out: &mut O,
) -> Result<KindCounts, Put>
    requires few { length packets.now ≤ PACKETS_MAX }
    requires short { AreShort packets.now }
    ensures counts { IfOk result (λ counts. counts ≡ counts_of (kinds_in known.now packets.now)) }
    ensures on { OnOk result ((first : Option (List ℕ)) (whole rest : List ℕ)
        → IsOnPage first (O.written out.old) whole room.old.page
        (joined (packets_lines known.now 1 packets.now) ++ rest)
        → IsOnPage first (O.written out.new) whole room.new.page rest) }
    ensures up_to { (first : Option (List ℕ)) (whole rest : List ℕ)
        → IsOnPage first (O.written out.old) whole room.old.page
        (joined (packets_lines known.now 1 packets.now) ++ rest)
        → AppendsUpTo first (O.written out.new) whole }
    ensures later { O.faults out.old ≤ O.faults out.new }
    ensures cause { IsErrOf result Put.Failed → Rose (O.faults out.old) (O.faults out.new) }
{
    let mut finding = Finding::with_room(alloc)?;
    let mut counts = KindCounts::none();
    for place in 0..packets.len() {
        let packet = packets.get(place);
        let number = place as u64 + 1;
        let kind = write_packet(room, &mut finding, known, number, packet.bytes, out)?;
        counts.add(kind);
    }
    Ok(counts)
}

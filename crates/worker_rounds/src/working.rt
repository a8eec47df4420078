//! A worker's round.
ghost use Rattle.store_history.specs.declared.places.TheConstants.{ROOTS};
ghost use Rattle.std.specs.Prelude.{◌≡◌, ◌<◌, ◌≤◌, ◌+◌, ◌*◌, ◌^◌, ◌++◌, ◌∷◌, [], length, IfOk, OnOk};
ghost use Rattle.pcap_io.specs.Captures.{AreShort};
ghost use Rattle.pin_store.specs.Calls.{IsOutside, IsSeatOf, pin_of};
ghost use Rattle.block_chain.specs.Ways.{block_words};
ghost use Rattle.hook_reader.specs.Seats.{HookSeat};
ghost use Rattle.worker_rounds.specs.OfLogs.Rows.{AreBelow, numbers_of};
ghost use Rattle.worker_rounds.specs.Worked.{arrivals_of, HasDrawn, IsWorked};

use crate::logs::WalkLog;
use crate::recording::recorded;
use crate::round_work::RoundWork;
use crate::walks::{PacketName, walk_packet};
use crate::worker::Worker;
use std::alloc::Global;
use step_counts::ClaimSeat;
use tc_base::{Gate, NoMemory};

// Walks the packet of a number, and keeps its row.
fn work_one<G: Gate>(
    worker: &mut Worker,
    log: &mut WalkLog,
    round: &RoundWork<'_, G>,
    number: u32,
) -> Result<(), NoMemory>
    requires number { number < length round.now.packets.now }
    requires short { AreShort round.now.packets.now }
    requires store { IsSeatOf round.now.store.now worker.old.reader.place }
    requires shape { (round.now.store.now.shape.words ≡ block_words)
        × (ROOTS ≤ round.now.store.now.shape.roots) }
    requires outside { IsOutside worker.old.reader.place }
    requires few { pin_of worker.old.reader.place < 2 ^ 63 }
    requires below { AreBelow number log.old }
    ensures number { worker.new.number ≡ worker.old.number }
    ensures store { IsSeatOf round.now.store.now worker.new.reader.place }
    ensures outside { IsOutside worker.new.reader.place }
    ensures row { OnOk result (numbers_of log.new ≡ numbers_of log.old ++ number ∷ []) }
    ensures worked { OnOk result ((first : HookSeat)
        → IsWorked worker.old.number (arrivals_of round.now.hook round.now.packets.now) first
        worker.old.reader log.old
        → IsWorked worker.old.number (arrivals_of round.now.hook round.now.packets.now) first
        worker.new.reader log.new) }
{
    let Worker {
        number: own,
        reader,
        walk,
    } = worker;
    let name = PacketName {
        worker: *own,
        packet: number.saturating_add(1),
    };
    let packet = round.packets.get(number as usize);
    walk_packet(
        walk,
        round.store,
        reader,
        round.gates,
        name,
        round.hook,
        packet.bytes,
    );
    log.push(number, &recorded(walk, *own))
}

/// Draws packets of a round, and walks them, until none is left.
///
/// The log has a row for each packet that was drawn, and the walks are the reader's, one behind the other.
/// The numbers that the seat drew are those of the rows and a last one, which is past the packets.
///
/// `NoMemory`: memory was refused for a row. Behind this call the reader is always outside, and of the seat
/// nothing but its deeds has changed, so it can be given back.
pub fn work<G: Gate>(
    alloc: Global,
    worker: &mut Worker,
    seat: &mut ClaimSeat,
    round: &RoundWork<'_, G>,
) -> Result<WalkLog, NoMemory>
    requires count { length round.now.packets.now < 2 ^ 31 }
    requires short { AreShort round.now.packets.now }
    requires store { IsSeatOf round.now.store.now worker.old.reader.place }
    requires shape { (round.now.store.now.shape.words ≡ block_words)
        × (ROOTS ≤ round.now.store.now.shape.roots) }
    requires outside { IsOutside worker.old.reader.place }
    requires few { pin_of worker.old.reader.place + 2 * length round.now.packets.now < 2 ^ 63 }
    requires claims { (seat.old.making ≡ round.now.claims.now) × (seat.old.deeds ≡ []) }
    ensures number { worker.new.number ≡ worker.old.number }
    ensures seat { seat.new ≡ record seat.old { deeds = seat.new.deeds } }
    ensures store { IsSeatOf round.now.store.now worker.new.reader.place }
    ensures outside { IsOutside worker.new.reader.place }
    ensures worked { IfOk result (λ log. IsWorked worker.old.number
        (arrivals_of round.now.hook round.now.packets.now) worker.old.reader worker.new.reader log) }
    ensures drawn { IfOk result (λ log.
        HasDrawn (length round.now.packets.now) seat.new.deeds (numbers_of log)) }
{
    let mut log = WalkLog::new(alloc);
    let count = round.packets.len() as u64;
    // All numbers drawn so far are below this one.
    let mut least = 0;
    while least < count {
        let number = round.claims.draw(seat);
        if number >= count {
            return Ok(log);
        }
        work_one(worker, &mut log, round, number as u32)?;
        least = number + 1;
    }
    round.claims.draw(seat);
    Ok(log)
}

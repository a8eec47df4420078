//! A report.
ghost use Rattle.std.specs.Prelude.{◌≡◌, ◌<◌, ◌^◌, length, IfOk};
ghost use Rattle.run_report.specs.Counts.{events_in, packets_in};

use crate::same::same;
use act_kinds::Kind;
use filter_state::Done;
use frame_edit::Meta;
use run_report::{
    CounterLine, CounterLines, Event, EventKind, Events, OutcomeList, OutcomePlace, OutcomeView,
    Outcomes, RoundRecord, RoundRecords, RunRecord, write_report,
};
use std::alloc::{AllocError, Global};
use std::test::Fail;
use tc_base::{MemSink, NoMemory, Numbers};
use walk_rules::Verdict;

// A batch drops 10.0.0.1. The next round's batch lets 10.0.0.2 pass, and that edit is accepted between the
// first and the second visit of a packet to 10.0.0.2.
const REPORT: &[u8] = b"clsact report 1
round 1
edit 1 control 1 line 1 hooked
edit 2 control 1 line 2 filter pref 10 handle 0x1 actions 1
end round 1
round 2
edit 3 control 1 line 1 filter pref 10 handle 0x2 actions 2
packet 1 worker 1 pass length 60 points 2 3 3
end round 2
counter serial 1 gact index 1 packets 0 bytes 0
counter serial 2 gact index 2 packets 1 bytes 60
summary edits 3 refused 0 packets 1 passed 1 dropped 0
end
";

fn accepted(line: u64, done: Done) -> Event {
    Event {
        control: 1,
        line,
        kind: EventKind::Accepted(done),
    }
}

// The filter with an action of its own, which has its number as handle and serial.
fn filter(alloc: Global, line: u64, number: u32) -> Result<Event, AllocError> {
    let done = Done::Filter {
        pref: 10,
        handle: number,
        serials: Numbers::from_vec(vec![in alloc; number]?),
    };
    Ok(accepted(line, done))
}

fn outcomes(alloc: Global) -> Result<Outcomes, NoMemory>
    ensures { IfOk result (λ outcomes. length outcomes ≡ 1) }
{
    let mut list = OutcomeList::new(alloc);
    list.push(&OutcomeView {
        worker: 1,
        verdict: Verdict::Pass,
        bytes: &[0; 60],
        meta: Meta::default(),
        points: &[2, 3, 3],
        executed: &[(2, 60)],
    })?;
    let lists = Vec::from_array(alloc, [list])?;
    let places = vec![in alloc; OutcomePlace { list: 0, row: 0 }]?;
    Ok(Outcomes::of_lists(lists, places))
}

fn rounds(alloc: Global) -> Result<RoundRecords, NoMemory>
    ensures events { IfOk result (λ rounds. events_in rounds < 2 ^ 32) }
    ensures packets { IfOk result (λ rounds. packets_in rounds < 2 ^ 64) }
{
    let first = RoundRecord {
        events: Events::from_vec(vec![in alloc; accepted(1, Done::Hooked), filter(alloc, 2, 1)?]?),
        outcomes: Outcomes::new(alloc),
    };
    let second = RoundRecord {
        events: Events::from_vec(vec![in alloc; filter(alloc, 1, 2)?]?),
        outcomes: outcomes(alloc)?,
    };
    Ok(RoundRecords::from_vec(vec![in alloc; first, second]?))
}

fn counter(number: u32, packets: u64, bytes: u64) -> CounterLine {
    CounterLine {
        serial: number,
        kind: Kind::Gact,
        index: number,
        packets,
        bytes,
    }
}

#[test]
fn edit_between_two_visits(rt: HostRuntime) -> Result<(), Fail> {
    let counters = vec![in rt.alloc(); counter(1, 0, 0), counter(2, 1, 60)]?;
    let run = RunRecord {
        rounds: rounds(rt.alloc())?,
        counters: CounterLines::from_vec(counters),
    };
    let mut out = MemSink::new(rt.alloc(), Numbers::from_vec(Vec::new(rt.alloc())));
    write_report(rt.alloc(), &run, &mut out)?;
    same(&rt, out.bytes(), REPORT);
    Ok(())
}

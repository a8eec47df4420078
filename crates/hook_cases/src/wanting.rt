//! Edits for which memory is refused.
//!
//! As it stands the test is one more script: edits of all kinds, each answered as plain lists answer it.
//! `.ci/memory-edits` runs it again and again, and refuses it one growth of memory, another one each time.
//! Where that is a growth which an edit takes, all has to be as it was before: what the desk counts, and what
//! walks meet. Then the same edit is tried again, and has to be accepted. Anywhere else the test ends for
//! want of memory.
ghost use Rattle.std.specs.Prelude.{◌≡◌, ◌≤◌};
ghost use Rattle.pin_store.specs.Calls.{pin_of, IsOutside, IsSeatOf};
ghost use Rattle.desk_parts.specs.Desk.{hook_shape};

use crate::editor::{Editor, new_hook};
use crate::frames::frame_to;
use crate::lines::{Line, step};
use crate::random::{adds_up, in_use, is_alike};
use crate::trouble::Trouble;
use filter_lists::Lists;
use filter_state::Refusal;
use hook_reader::HookReader;
use hook_store_law::HookStore;
use plain_walk::PlainWalk;
use shared_hook::ApplyFault;
use std::alloc::Global;
use std::test::Fail;
use tc_base::{Hook, OpenGate, Point};
use walk_steps::Walk;
use worker_rounds::walks::{PacketName, walk_packet};

// Each is accepted behind those before it. A mask with so many filters has had more buckets than at first,
// and has fewer again; actions come with a filter and without one, and go so; and a table goes with all in
// it.
const LINES: &[&str] = &[
    "qdisc add dev eth0 clsact",
    "actions add action drop index 100",
    "filter add dev eth0 ingress protocol ip pref 10 handle 1 flower dst_ip 10.0.0.1 action gact index 100",
    "filter add dev eth0 ingress protocol ip pref 10 handle 2 flower dst_ip 10.0.0.2 action ok",
    "filter add dev eth0 ingress protocol ip pref 10 handle 3 flower dst_ip 10.0.0.3 action ok",
    "filter add dev eth0 ingress protocol ip pref 10 handle 4 flower dst_ip 10.0.0.4 action ok",
    "filter add dev eth0 ingress protocol ip pref 10 handle 5 flower dst_ip 10.0.0.5 action ok",
    "filter add dev eth0 ingress protocol ip pref 10 handle 6 flower dst_ip 10.0.0.6 action goto chain 1",
    "filter add dev eth0 ingress protocol ip pref 10 handle 7 flower dst_ip 10.0.0.7 action continue",
    "filter add dev eth0 ingress protocol ip pref 10 handle 8 flower dst_ip 10.0.0.8 \
        action vlan push id 5 action ok",
    "filter add dev eth0 ingress protocol ip pref 10 handle 9 flower dst_ip 10.0.0.9 \
        action skbedit mark 7 action gact index 100",
    "filter add dev eth0 ingress protocol ip pref 10 handle 10 flower dst_ip 10.0.0.0/30 action drop",
    "filter add dev eth0 ingress protocol ip pref 20 flower ip_proto udp dst_port 53 action drop",
    "filter add dev eth0 ingress protocol ip pref 10 chain 1 flower src_ip 10.0.0.0/24 action drop",
    "filter add dev eth0 egress pref 30 flower action gact index 100",
    "filter replace dev eth0 ingress protocol ip pref 10 handle 2 flower dst_ip 10.0.0.2 action drop",
    "filter replace dev eth0 ingress protocol ip pref 10 handle 3 flower dst_ip 10.0.0.11 action ok",
    "filter replace dev eth0 ingress protocol ip pref 10 handle 4 flower ip_proto udp action ok",
    "actions change action ok index 100",
    "actions add action continue index 101",
    "actions del action gact index 101",
    "filter del dev eth0 ingress protocol ip pref 10 handle 9 flower",
    "filter del dev eth0 ingress protocol ip pref 10 handle 8 flower",
    "filter del dev eth0 ingress protocol ip pref 10 handle 7 flower",
    "filter del dev eth0 ingress protocol ip pref 10 handle 6 flower",
    "filter del dev eth0 ingress pref 10",
    "filter del dev eth0 ingress pref 10 chain 1",
    "filter del dev eth0 ingress pref 20",
    "filter del dev eth0 egress pref 30",
    "qdisc del dev eth0 clsact",
    "qdisc add dev eth0 clsact",
];

// Frames go to so many hosts of 10.0.0.0/24.
const HOSTS: u8 = 13;

// More than twice as often as a test goes inside.
const FEW_PINS: u64 = 1 << 62;

// A reader outside, with its walk.
#[derive(Drop)]
struct Outside<'a> {
    store: &'a HookStore,
    reader: HookReader,
    walk: Walk,
    // At least its pin.
    pins: u64,
    ghost seat: { IsSeatOf store.now reader.place },
    ghost shape: { store.now.shape ≡ hook_shape },
    ghost outside: { IsOutside reader.place },
    ghost pinned: { pin_of reader.place ≤ pins },
}

impl Outside<'_> {
    // Takes a frame through the hook.
    fn meet(&mut self, hook: Hook, bytes: &[u8; 42]) -> Result<(), Trouble> {
        if self.pins >= FEW_PINS {
            return Err(Trouble::TooFar);
        }
        let name = PacketName {
            worker: 1,
            packet: 1,
        };
        walk_packet(
            &mut self.walk,
            self.store,
            &mut self.reader,
            &OpenGate,
            name,
            hook,
            bytes,
        );
        self.pins += 2;
        Ok(())
    }
}

// Lists, and a walk of them, which answer as desk and hook have to.
#[derive(Drop)]
struct Plain {
    lists: Lists,
    walk: PlainWalk,
}

impl Plain {
    fn new(alloc: Global) -> Result<Plain, Trouble> {
        Ok(Plain {
            lists: Lists::new(alloc),
            walk: PlainWalk::with_room(alloc)?,
        })
    }

    // Whether a frame meets the same in the hook and in the lists.
    fn meets(
        &mut self,
        outside: &mut Outside<'_>,
        hook: Hook,
        bytes: &[u8; 42],
    ) -> Result<bool, Trouble> {
        outside.meet(hook, bytes)?;
        self.walk.run(&self.lists, hook, bytes);
        Ok(
            outside.walk.verdict() == self.walk.verdict()
                && outside.walk.executed() == self.walk.executed(),
        )
    }

    // Whether all frames do, at both hooks.
    fn meets_all(&mut self, outside: &mut Outside<'_>) -> Result<bool, Trouble> {
        let mut alike = true;
        for host in 0..HOSTS {
            let bytes = frame_to(host);
            let comes = self.meets(outside, Hook::Ingress, &bytes)?;
            let goes = self.meets(outside, Hook::Egress, &bytes)?;
            alike = alike && comes && goes;
        }
        Ok(alike)
    }

    // Whether desk and hook are as these lists, and as after so many edits.
    fn is_like(
        &mut self,
        editor: &Editor<'_>,
        outside: &mut Outside<'_>,
        edits: Point,
    ) -> Result<bool, Trouble> {
        let desk = &editor.desk;
        let counts = desk.journal_len() == edits
            && in_use(desk.lists()) == in_use(&self.lists)
            && adds_up(desk, &self.lists);
        Ok(self.meets_all(outside)? && counts)
    }
}

// Applies an edit, again where it found no memory, and says whether all is as with plain lists.
fn edit(
    editor: &mut Editor<'_>,
    outside: &mut Outside<'_>,
    plain: &mut Plain,
    line: &Line,
) -> Result<bool, Trouble> {
    let edits = editor.desk.journal_len();
    let mut answer = editor.step(line)?;
    let mut is_like = true;
    if let Err(ApplyFault::Refused(Refusal::NoMemory(_))) = answer {
        is_like = plain.is_like(editor, outside, edits)?;
        answer = editor.step(line)?;
    }
    let said = step(&mut plain.lists, line)?;
    if let Err(Refusal::NoMemory(_)) = said {
        return Err(Trouble::NoMemory);
    }
    if said.is_err() || !is_alike(&answer, &said) {
        return Err(Trouble::Answer(answer.err()));
    }
    Ok(is_like && plain.is_like(editor, outside, edits.saturating_add(1))?)
}

// How many edits are as with plain lists, up to the first that isn't.
fn count_alike(
    editor: &mut Editor<'_>,
    outside: &mut Outside<'_>,
    plain: &mut Plain,
    lines: &[Line],
) -> Result<usize, Trouble> {
    for (place, line) in lines.iter().enumerate() {
        if !edit(editor, outside, plain, line)? {
            return Ok(place);
        }
    }
    Ok(lines.len())
}

fn read_lines(alloc: Global) -> Result<Vec<Line>, Trouble> {
    let mut lines = Vec::new(alloc);
    for text in LINES {
        lines.push(Line::read(alloc, text.as_bytes())?)?;
    }
    Ok(lines)
}

fn edit_new_hook(alloc: Global) -> Result<usize, Trouble> {
    let lines = read_lines(alloc)?;
    let mut plain = Plain::new(alloc)?;
    let walk = Walk::with_room(alloc)?;
    let (store, desk, reader) = match new_hook(alloc) {
        Ok(made) => made,
        Err(trouble) => {
            drop((lines, plain, walk));
            return Err(trouble);
        }
    };
    let mut editor = Editor {
        store: &store,
        desk,
    };
    let mut outside = Outside {
        store: &store,
        reader,
        walk,
        pins: 0,
    };
    let count = count_alike(&mut editor, &mut outside, &mut plain, &lines);
    drop((editor, outside));
    drop((store, plain, lines));
    count
}

#[test]
fn edits_that_found_no_memory_are_tried_again(rt: HostRuntime) -> Result<(), Fail> {
    assert_eq!(rt; edit_new_hook(rt.alloc())?, LINES.len());
    Ok(())
}

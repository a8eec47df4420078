//! A reader that stays inside, so that edits are held.
//!
//! What is expected is worked out by hand, from what an edit needs of each pool.

use crate::editor::Counts;
use crate::player::Act;
use crate::script::{Script, Turn, play};
use crate::trouble::Trouble;
use desk_needs::Pool;
use shared_hook::{ApplyFault, Passes, make_hook};
use std::alloc::Global;
use std::test::Fail;
use tc_base::Hook;
use walk_rules::Verdict;

// How many readers there are to take, of nine that are tried.
fn count_taken(mut passes: Passes) -> u32 {
    let mut count = 0u32;
    for _ in 0..9 {
        if let Some(reader) = passes.take() {
            drop(reader);
            count = count.saturating_add(1);
        }
    }
    count
}

fn count_readers(alloc: Global) -> Result<u32, Trouble> {
    let (store, desk, passes) = make_hook(alloc)?;
    let count = count_taken(passes);
    drop((store, desk));
    Ok(count)
}

// A hook has eight.
#[test]
fn the_ninth_reader_is_none(rt: HostRuntime) -> Result<(), Fail> {
    assert_eq!(rt; count_readers(rt.alloc())?, 8);
    Ok(())
}

// Two edits. A filter, its mask and its action have a block each.
const FILTER: &[&str] = &[
    "qdisc add dev eth0 clsact",
    "filter add dev eth0 ingress protocol ip pref 10 flower dst_ip 10.0.0.1 action drop",
];

// It needs a block for the filter, and the filter's block leaves. Its action is the one that is there.
const AGAIN: &str = "filter replace dev eth0 ingress protocol ip pref 10 handle 1 \
    flower dst_ip 10.0.0.1 action gact index 1";

// Of 16,384 blocks those that aren't in use.
const OTHERS: u32 = 16_384 - 3;

// All of them left, and are not free again.
const FULL: Counts = Counts {
    free: 0,
    retired: OTHERS,
    edits: 2 + OTHERS,
};

// The first reader is inside for the first time: an odd pin.
const NO_BLOCK: ApplyFault = ApplyFault::Held {
    pool: Pool::Blocks,
    reader: 1,
    pin: 1,
    needed: 1,
    free: 0,
};

// The tables of a hook have two places, one of them for the next edit of the tables.
const NO_PLACE: ApplyFault = ApplyFault::Held {
    pool: Pool::Head(Hook::Ingress),
    reader: 1,
    pin: 1,
    needed: 1,
    free: 0,
};

const NEXT: &str = "filter add dev eth0 ingress protocol ip pref 20 flower action ok";

const HELD: &[Script] = &[
    // Nothing that left is free while the reader is inside, so each replace takes one of the other blocks.
    // The next one finds none. When the reader has left it finds all, and takes one for the one that leaves.
    // The tables stand since edit 2, and so does the action: the walk has the point 2 there. The filter that
    // it finds, after the edit was held, is that of the last replace.
    Script {
        about: "blocks",
        turns: &[
            Turn::Lines(FILTER),
            Turn::Tidy,
            Turn::Counts(Counts {
                free: OTHERS,
                retired: 0,
                edits: 2,
            }),
            Turn::Reader(Act::Enter(1)),
            Turn::Reader(Act::Visit),
            Turn::Often(AGAIN, OTHERS),
            Turn::Counts(FULL),
            Turn::Fails(AGAIN, NO_BLOCK),
            Turn::Counts(FULL),
            Turn::Reader(Act::Visit),
            Turn::Reader(Act::Visit),
            Turn::Reader(Act::Leave),
            Turn::Lines(&[AGAIN]),
            Turn::Counts(Counts {
                free: OTHERS - 1,
                retired: 1,
                edits: 2 + OTHERS + 1,
            }),
            Turn::Tidy,
            Turn::Counts(Counts {
                free: OTHERS,
                retired: 0,
                edits: 2 + OTHERS + 1,
            }),
        ],
        points: &[2, 2 + OTHERS, 2],
        executed: &[(1, 42)],
        verdict: Verdict::Drop,
    },
    // The reader may still read the tables that were left as the table went, so the next edit of the tables
    // has no place. The walk goes on in the table that its head told, as it stood at point 2. Then the other
    // filter, its mask and its action have three blocks in their turn.
    Script {
        about: "a place of tables",
        turns: &[
            Turn::Lines(FILTER),
            Turn::Tidy,
            Turn::Reader(Act::Enter(1)),
            Turn::Reader(Act::Visit),
            Turn::Lines(&["filter del dev eth0 ingress pref 10"]),
            Turn::Fails(NEXT, NO_PLACE),
            Turn::Reader(Act::Visit),
            Turn::Reader(Act::Visit),
            Turn::Reader(Act::Leave),
            Turn::Lines(&[NEXT]),
            Turn::Tidy,
            Turn::Counts(Counts {
                free: OTHERS,
                retired: 0,
                edits: 4,
            }),
        ],
        points: &[2, 2, 2],
        executed: &[(1, 42)],
        verdict: Verdict::Drop,
    },
];

#[test]
fn a_reader_inside_holds_edits(rt: HostRuntime) -> Result<(), Fail> {
    for script in HELD {
        let walk = play(&rt, rt.alloc(), script.turns)?;
        assert!(rt; script.fits(&walk), "{}", script.about);
    }
    Ok(())
}

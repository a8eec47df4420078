//! Walks, with edits between two of their visits.
//!
//! The points are worked out by hand. A head's point is that of the last edit of the tables, or of the last
//! edit that this reader has met. A look-up's and an action's are that of the last edit of what they visit,
//! but not before the head's; and a look-up's isn't before that of the walk's last look-up in the same mask.

use crate::player::Act;
use crate::script::{Script, Turn, play};
use std::test::Fail;
use walk_rules::Verdict;

const ENTER: Turn = Turn::Reader(Act::Enter(1));

const VISIT: Turn = Turn::Reader(Act::Visit);

const LEAVE: Turn = Turn::Reader(Act::Leave);

// Two edits: at point 2 a filter drops frames to 10.0.0.1, by the action of serial 1.
const DROPS: Turn = Turn::Lines(&[
    "qdisc add dev eth0 clsact",
    "filter add dev eth0 ingress protocol ip pref 10 flower dst_ip 10.0.0.1 action drop",
]);

// Thirteen edits: actions of serials 1, 2 and 3, then tables with a mask each. The first one passes frames to
// 10.0.0.1 on, the second drops them. The last edit is one of the tables, so a head's point is 13.
const SHARED: Turn = Turn::Lines(&[
    "qdisc add dev eth0 clsact",
    "actions add action drop index 7",
    "actions add action continue index 8",
    "actions add action reclassify index 9",
    "actions change action drop index 8",
    "actions change action continue index 8",
    "filter add dev eth0 ingress protocol ip pref 10 handle 1 flower dst_ip 10.0.0.1 action gact index 8",
    "filter add dev eth0 ingress protocol ip pref 20 handle 1 flower dst_ip 10.0.0.1 action gact index 7",
    "filter add dev eth0 ingress protocol ip pref 10 handle 2 flower dst_ip 10.0.0.2 action gact index 8",
    "filter add dev eth0 ingress protocol ip pref 10 handle 3 flower dst_ip 10.0.0.3 action gact index 8",
    "filter del dev eth0 ingress pref 10 handle 3 flower",
    "filter del dev eth0 ingress pref 10 handle 2 flower",
    "filter add dev eth0 ingress protocol ip pref 30 handle 1 flower dst_ip 10.0.0.9 action gact index 9",
]);

// Another key, and another action, which has serial 2.
const MOVES: Turn = Turn::Lines(&[
    "filter replace dev eth0 ingress protocol ip pref 10 handle 1 \
    flower dst_ip 10.0.0.2 action ok",
]);

const SCRIPTS: &[Script] = &[
    // The table that the head told stands for this walk as it stood at point 2.
    Script {
        about: "the table goes behind the head",
        turns: &[
            DROPS,
            Turn::Tidy,
            ENTER,
            VISIT,
            Turn::Lines(&["filter del dev eth0 ingress pref 10"]),
            VISIT,
            VISIT,
            LEAVE,
        ],
        points: &[2, 2, 2],
        executed: &[(1, 42)],
        verdict: Verdict::Drop,
    },
    // So does the mask, since a replace with another key makes a new one.
    Script {
        about: "the filter goes to another key behind the head",
        turns: &[DROPS, Turn::Tidy, ENTER, VISIT, MOVES, VISIT, VISIT, LEAVE],
        points: &[2, 2, 2],
        executed: &[(1, 42)],
        verdict: Verdict::Drop,
    },
    // Edit 3 is one of the tables, and its mask has no filter for the frame: nothing drops it.
    Script {
        about: "the filter goes to another key before the head",
        turns: &[DROPS, Turn::Tidy, ENTER, MOVES, VISIT, VISIT, LEAVE],
        points: &[3, 3],
        executed: &[],
        verdict: Verdict::Pass,
    },
    // Edit 3 adds a filter for the frame to the mask that the head told: at point 2 there was none for it.
    Script {
        about: "the filter that is met comes behind the head",
        turns: &[
            DROPS,
            Turn::Tidy,
            Turn::Reader(Act::Enter(2)),
            VISIT,
            Turn::Lines(&[
                "filter add dev eth0 ingress protocol ip pref 10 flower dst_ip 10.0.0.2 action ok",
            ]),
            VISIT,
            VISIT,
            LEAVE,
        ],
        points: &[2, 3, 3],
        executed: &[(2, 42)],
        verdict: Verdict::Pass,
    },
    // Edit 14 is one of the action, so what was a continue drops the frame.
    Script {
        about: "an action is another one behind the look-up",
        turns: &[
            SHARED,
            Turn::Tidy,
            ENTER,
            VISIT,
            VISIT,
            Turn::Lines(&["actions change action drop index 8"]),
            VISIT,
            LEAVE,
        ],
        points: &[13, 13, 14],
        executed: &[(2, 42)],
        verdict: Verdict::Drop,
    },
    // Edit 14 is one of the filter, which then has the action of edit 2, so that the point is the head's.
    Script {
        about: "the filter has another action behind the head",
        turns: &[
            SHARED,
            Turn::Tidy,
            ENTER,
            VISIT,
            Turn::Lines(&[
                "filter replace dev eth0 ingress protocol ip pref 10 handle 1 \
                flower dst_ip 10.0.0.1 action gact index 7",
            ]),
            VISIT,
            VISIT,
            LEAVE,
        ],
        points: &[13, 14, 13],
        executed: &[(1, 42)],
        verdict: Verdict::Drop,
    },
    // The action of index 8 runs in both tables: as a continue, and since edit 15 as an ok. Edit 14 gives it
    // to the filter of the second table.
    Script {
        about: "a later mask gets another filter behind an earlier look-up",
        turns: &[
            SHARED,
            Turn::Tidy,
            ENTER,
            VISIT,
            VISIT,
            VISIT,
            Turn::Lines(&[
                "filter replace dev eth0 ingress protocol ip pref 20 handle 1 \
                    flower dst_ip 10.0.0.1 action gact index 8",
                "actions change action ok index 8",
            ]),
            VISIT,
            VISIT,
            LEAVE,
        ],
        points: &[13, 13, 13, 14, 15],
        executed: &[(2, 42), (2, 42)],
        verdict: Verdict::Pass,
    },
    // Edit 14 gives the filter an action that restarts the walk, in the tables that its head told: the mask
    // is looked up again, and edit 15 has the action drop.
    Script {
        about: "a restart comes to the same mask and to an action that is another one then",
        turns: &[
            SHARED,
            Turn::Tidy,
            ENTER,
            VISIT,
            Turn::Lines(&[
                "filter replace dev eth0 ingress protocol ip pref 10 handle 1 \
                flower dst_ip 10.0.0.1 action gact index 9",
            ]),
            VISIT,
            VISIT,
            VISIT,
            Turn::Lines(&["actions change action drop index 9"]),
            VISIT,
            LEAVE,
        ],
        points: &[13, 14, 13, 14, 15],
        executed: &[(3, 42), (3, 42)],
        verdict: Verdict::Drop,
    },
];

#[test]
fn walks_keep_their_points(rt: HostRuntime) -> Result<(), Fail> {
    for script in SCRIPTS {
        let walk = play(&rt, rt.alloc(), script.turns)?;
        assert!(rt; script.fits(&walk), "{}", script.about);
    }
    Ok(())
}

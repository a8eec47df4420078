//! Edits and walks that meet at known places.
//!
//! What is reported is worked out by hand. A head's point is that of the last edit of the tables, or that of
//! the last edit before the round. A look-up's and an action's are that of the last edit of what they visit,
//! but not before the head's; and a look-up's isn't before that of the walk's last look-up in the same mask.

use crate::run_cases::order::Step;
use crate::run_cases::script::Script;
use std::test::Fail;

// Two edits: at point 2 a filter drops frames to 10.0.0.1, by the action of serial 1.
const DROPS: &str = "qdisc add dev eth0 clsact
filter add dev eth0 ingress protocol ip pref 10 flower dst_ip 10.0.0.1 action drop
";

// Thirteen edits: actions of serials 1, 2 and 3, then tables with a mask each. The first one passes frames to
// 10.0.0.1 on, the second drops them. The last edit is one of the tables, so a head's point is 13.
const SHARED: &str = "qdisc add dev eth0 clsact
actions add action drop index 7
actions add action continue index 8
actions add action reclassify index 9
actions change action drop index 8
actions change action continue index 8
filter add dev eth0 ingress protocol ip pref 10 handle 1 flower dst_ip 10.0.0.1 action gact index 8
filter add dev eth0 ingress protocol ip pref 20 handle 1 flower dst_ip 10.0.0.1 action gact index 7
filter add dev eth0 ingress protocol ip pref 10 handle 2 flower dst_ip 10.0.0.2 action gact index 8
filter add dev eth0 ingress protocol ip pref 10 handle 3 flower dst_ip 10.0.0.3 action gact index 8
filter del dev eth0 ingress pref 10 handle 3 flower
filter del dev eth0 ingress pref 10 handle 2 flower
filter add dev eth0 ingress protocol ip pref 30 handle 1 flower dst_ip 10.0.0.9 action gact index 9
";

// One filter more.
const SECOND: &str =
    "filter add dev eth0 ingress protocol ip pref 10 flower dst_ip 10.0.0.2 action ok\n";

// Two more.
const TWO: &str = "filter add dev eth0 ingress protocol ip pref 10 flower dst_ip 10.0.0.2 action ok
filter add dev eth0 ingress protocol ip pref 10 flower dst_ip 10.0.0.3 action ok
";

// A filter like the last of these, and then the filter of handle 2 goes.
const ADDS_AND_DELETES: &str =
    "filter add dev eth0 ingress protocol ip pref 10 flower dst_ip 10.0.0.3 action drop
filter del dev eth0 ingress pref 10 handle 2 flower
";

// Another key, and another action, which has serial 2.
const MOVES: &str = "filter replace dev eth0 ingress protocol ip pref 10 handle 1 \
    flower dst_ip 10.0.0.2 action ok\n";

// A packet to 10.0.0.1 has its head, then control 1 carries out its first line, and then the walk goes on.
const PLAIN: Script = Script {
    about: "",
    workers: 1,
    base: DROPS,
    first: "",
    second: "",
    hosts: &[1],
    order: &[
        Step::Comes(1, 2),
        Step::Begins(1, 1),
        Step::Ends(1, 1),
        Step::Goes(1, 2),
    ],
    told: &[],
};

// The controls take turns, and there is no packet.
const IN_TURNS: Script = Script {
    first: TWO,
    second: ADDS_AND_DELETES,
    hosts: &[],
    ..PLAIN
};

const SCRIPTS: &[Script] = &[
    // At point 2 there is no filter for the frame, so it is the walk that sees the edit.
    Script {
        about: "the filter that is met comes behind the head",
        first: SECOND,
        hosts: &[2],
        told: &[
            "edit 3 control 1 line 1 filter pref 10 handle 0x2 actions 2
packet 1 worker 1 pass length 42 points 2 3 3
end round 2
counter serial 1 gact index 1 packets 0 bytes 0
counter serial 2 gact index 2 packets 1 bytes 42
",
        ],
        ..PLAIN
    },
    // Which of the workers takes which packet is left open.
    Script {
        about: "two walks at the same time",
        workers: 2,
        first: SECOND,
        hosts: &[2, 2],
        order: &[
            Step::Comes(1, 2),
            Step::Comes(2, 2),
            Step::Begins(1, 1),
            Step::Ends(1, 1),
            Step::Goes(1, 2),
            Step::Goes(2, 2),
        ],
        told: &[
            "edit 3 control 1 line 1 filter pref 10 handle 0x2 actions 2
packet 1 worker 1 pass length 42 points 2 3 3
packet 2 worker 2 pass length 42 points 2 3 3
end round 2
counter serial 1 gact index 1 packets 0 bytes 0
counter serial 2 gact index 2 packets 2 bytes 84
",
            "edit 3 control 1 line 1 filter pref 10 handle 0x2 actions 2
packet 1 worker 2 pass length 42 points 2 3 3
packet 2 worker 1 pass length 42 points 2 3 3
end round 2
counter serial 1 gact index 1 packets 0 bytes 0
counter serial 2 gact index 2 packets 2 bytes 84
",
        ],
        ..PLAIN
    },
    Script {
        about: "turns of two controls",
        order: &[
            Step::Begins(1, 1),
            Step::Ends(1, 1),
            Step::Begins(2, 1),
            Step::Ends(2, 1),
            Step::Begins(1, 2),
            Step::Ends(1, 2),
            Step::Begins(2, 2),
            Step::Ends(2, 2),
        ],
        told: &[
            "edit 3 control 1 line 1 filter pref 10 handle 0x2 actions 2
edit 4 control 2 line 1 filter pref 10 handle 0x3 actions 3
refused 4 control 1 line 2 Exists 0x3
edit 5 control 2 line 2 filter gone
end round 2
counter serial 1 gact index 1 packets 0 bytes 0
counter serial 2 gact index 2 packets 0 bytes 0
counter serial 3 gact index 3 packets 0 bytes 0
",
        ],
        ..IN_TURNS
    },
    // The second control deletes what it added itself. So the last filter is none that is there already, and
    // gets the handle and the index that became free.
    Script {
        about: "other turns of two controls",
        order: &[
            Step::Begins(2, 1),
            Step::Ends(2, 1),
            Step::Begins(1, 1),
            Step::Ends(1, 1),
            Step::Begins(2, 2),
            Step::Ends(2, 2),
            Step::Begins(1, 2),
            Step::Ends(1, 2),
        ],
        told: &[
            "edit 3 control 2 line 1 filter pref 10 handle 0x2 actions 2
edit 4 control 1 line 1 filter pref 10 handle 0x3 actions 3
edit 5 control 2 line 2 filter gone
edit 6 control 1 line 2 filter pref 10 handle 0x2 actions 4
end round 2
counter serial 1 gact index 1 packets 0 bytes 0
counter serial 2 gact index 2 packets 0 bytes 0
counter serial 3 gact index 3 packets 0 bytes 0
counter serial 4 gact index 2 packets 0 bytes 0
",
        ],
        ..IN_TURNS
    },
    // Edit 14 is one of the filter, which then has the action of edit 2, so that the point is the head's.
    Script {
        about: "the filter has another action behind the head",
        base: SHARED,
        first: "filter replace dev eth0 ingress protocol ip pref 10 handle 1 \
            flower dst_ip 10.0.0.1 action gact index 7\n",
        told: &[
            "edit 14 control 1 line 1 filter pref 10 handle 0x1 actions 1
packet 1 worker 1 drop length 42 points 13 14 13
end round 2
counter serial 1 gact index 7 packets 1 bytes 42
counter serial 2 gact index 8 packets 0 bytes 0
counter serial 3 gact index 9 packets 0 bytes 0
",
        ],
        ..PLAIN
    },
    // Edit 14 gives the filter an action that restarts the walk, in the tables that its head told: the mask
    // is looked up again, and edit 15, of another control, has the action drop.
    Script {
        about: "a restart comes to the same mask and to an action that is another one then",
        base: SHARED,
        first: "filter replace dev eth0 ingress protocol ip pref 10 handle 1 \
            flower dst_ip 10.0.0.1 action gact index 9\n",
        second: "actions change action drop index 9\n",
        order: &[
            Step::Comes(1, 2),
            Step::Begins(1, 1),
            Step::Ends(1, 1),
            Step::Goes(1, 2),
            Step::Comes(1, 5),
            Step::Begins(2, 1),
            Step::Ends(2, 1),
            Step::Goes(1, 5),
        ],
        told: &[
            "edit 14 control 1 line 1 filter pref 10 handle 0x1 actions 3
edit 15 control 2 line 1 action changed
packet 1 worker 1 drop length 42 points 13 14 13 14 15
end round 2
counter serial 1 gact index 7 packets 0 bytes 0
counter serial 2 gact index 8 packets 0 bytes 0
counter serial 3 gact index 9 packets 2 bytes 84
",
        ],
        ..PLAIN
    },
    // The table that the head told stands for this walk as it stood at point 2.
    Script {
        about: "the table goes behind the head",
        first: "filter del dev eth0 ingress pref 10\n",
        told: &[
            "edit 3 control 1 line 1 table gone
packet 1 worker 1 drop length 42 points 2 2 2
end round 2
counter serial 1 gact index 1 packets 1 bytes 42
",
        ],
        ..PLAIN
    },
    // So does the mask, since a replace with another key makes a new one.
    Script {
        about: "the filter goes to another key behind the head",
        first: MOVES,
        told: &[
            "edit 3 control 1 line 1 filter pref 10 handle 0x1 actions 2
packet 1 worker 1 drop length 42 points 2 2 2
end round 2
counter serial 1 gact index 1 packets 1 bytes 42
counter serial 2 gact index 2 packets 0 bytes 0
",
        ],
        ..PLAIN
    },
    // The tables of a hook have two places. Edit 3 leaves one of them, which the walk may still read, so
    // there is none for the second line while the walk is inside. A held line is no event: it is tried again,
    // and the tender has a turn each time. It has no other turns but one at the beginning of a round and one
    // at its end. So of two turns one says that the line was held. When the walk has left it is accepted.
    Script {
        about: "a walk holds an edit of the tables",
        first: "filter del dev eth0 ingress pref 10
filter add dev eth0 ingress protocol ip pref 20 flower action ok
",
        order: &[
            Step::Comes(1, 2),
            Step::Begins(1, 1),
            Step::Ends(1, 1),
            Step::Begins(1, 2),
            Step::Tends,
            Step::Tends,
            Step::Goes(1, 2),
            Step::Comes(1, 3),
            Step::Goes(1, 3),
            Step::Ends(1, 2),
        ],
        told: &[
            "edit 3 control 1 line 1 table gone
edit 4 control 1 line 2 filter pref 20 handle 0x1 actions 2
packet 1 worker 1 drop length 42 points 2 2 2
end round 2
counter serial 1 gact index 1 packets 1 bytes 42
counter serial 2 gact index 1 packets 0 bytes 0
",
        ],
        ..PLAIN
    },
];

#[test]
fn threads_meet_in_a_given_order(rt: HostRuntime) -> Result<(), Fail> {
    for script in SCRIPTS {
        assert!(rt; script.fits(&rt, rt.alloc())?, "{}", script.about);
    }
    Ok(())
}

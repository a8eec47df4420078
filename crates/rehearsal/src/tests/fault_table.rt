//! Commands, and what they ask of what lies outside.

use crate::tests::gateway::{RULES, WALKED};
use crate::tests::{DROP, HOOK, TWO, WALK};

/// A call of the shelf.
#[derive(Clone, Copy)]
pub(crate) enum Call<'a> {
    Fetch(&'a str),
    Put(&'a str),
}

/// What a file holds.
#[derive(Clone, Copy)]
pub(crate) enum Held<'a> {
    Text(&'a str),
    /// A capture without packets, and one of two, to 10.0.0.1 and 10.0.0.2.
    NoPackets,
    TwoPackets,
    /// The packets of a small gateway.
    Gateway,
}

/// How a text is written.
#[derive(Clone, Copy)]
pub(crate) enum Written<'a> {
    /// A line with each call.
    ByLines(&'a str),
    /// A part with each call.
    ByParts(&'a [&'a str]),
    /// All by one call.
    Whole(&'a str),
    /// All by one call, and what it is depends on threads.
    AnyWhole,
}

/// A command with its files; and where no call outside fails, its calls of the shelf, its status and its
/// text.
#[derive(Clone, Copy)]
pub(crate) struct Case<'a> {
    pub(crate) words: &'a [&'a str],
    pub(crate) files: &'a [(&'a str, Held<'a>)],
    pub(crate) calls: &'a [Call<'a>],
    pub(crate) status: &'a str,
    pub(crate) written: Written<'a>,
}

const AGAIN: &str = "qdisc add dev eth0 clsact\nqdisc add dev eth0 clsact\n";

const SHOWN: &str = "qdisc add dev eth0 clsact
actions add action gact drop index 1
counts gact index 1 serial 1 references 1 binds 1
filter add dev eth0 ingress protocol ip pref 10 chain 0 handle 0x1 flower dst_ip 10.0.0.1/32 \
    action gact index 1
end
";

const BOTH_PASS: &str = "packet 1 pass length 60
packet 2 pass length 60
counter serial 1 gact index 1 packets 0 bytes 0
summary edits 2 refused 0 packets 2 passed 2 dropped 0
end
";

// Of the 96 packets each of the four filters takes twelve. The last one drops them.
const MADE: &str = "counter serial 1 gact index 2 packets 36 bytes 2160
counter serial 2 gact index 1 packets 12 bytes 720
summary edits 5 refused 0 packets 96 passed 84 dropped 12
end
";

// No packet comes while there are edits, so threads make no difference.
const ROUNDS: &str = "clsact job 1
workers 1
controls 2
round
batch 1 rules
capture ingress none out1
round
batch 2 more
capture ingress two out2
end
";

const REPORT: &str = "clsact report 1
round 1
edit 1 control 1 line 1 hooked
edit 2 control 1 line 2 filter pref 10 handle 0x1 actions 1
end round 1
round 2
refused 2 control 2 line 1 HookExists
packet 1 worker 1 drop length 60 points 2 2 2
packet 2 worker 1 pass length 60 points 2 2
end round 2
counter serial 1 gact index 1 packets 1 bytes 60
summary edits 2 refused 1 packets 2 passed 1 dropped 1
end
";

// The packets of the second round meet its edits, as in examples/overlap.
const OVERLAP: &str = "clsact job 1
workers 2
controls 1
round
batch 1 base
round
batch 1 change
capture ingress input passed
end
";

const CHANGE: &str =
    "filter add dev eth0 ingress protocol ip pref 10 flower dst_ip 10.0.0.2 action drop
filter del dev eth0 ingress protocol ip pref 10 handle 1 flower
";

// What is told of a file that is no report.
const NO_REPORT: &str =
    "7 report not lawful at line 1\nline 1: no lawful report goes on so: not a report's title";

// The filter that drops the first packet lets it pass for a while.
const SWAPPED: &str =
    "filter replace dev eth0 ingress protocol ip pref 10 handle 1 flower dst_ip 10.0.0.1 action ok
filter replace dev eth0 ingress protocol ip pref 10 handle 1 flower dst_ip 10.0.0.1 action drop
";

const LET_THROUGH: &[&str] = &[
    "change from 2 to 4\n",
    "edit 3 control 1 line 1 filter pref 10 handle 0x1 actions 2
edit 4 control 1 line 2 filter pref 10 handle 0x1 actions 3
",
    "packet 1 between ways 3
fate 1 both drop length 60 points 2 2 2
fate 1 between pass length 60 points 2 3 3
at 1 visit 1 head ingress tables 1 point 2
at 1 table chain 0 pref 10 protocol ip
at 1 fields protocol ip dst_mac 02:00:00:00:00:01 src_mac 02:00:00:00:00:02 ip_proto udp \
    src_ip 10.0.0.254/32 dst_ip 10.0.0.1/32 src_port 5000 dst_port 53 ip_ttl 64/255
at 1 visit 2 match dst_ip 10.0.0.1/32 handle 0x1 edit 3 control 1 line 1 point 3
at 1 visit 3 run 0 of 1 serial 2 gact ok index 2 edit 3 control 1 line 1 point 3
packet 2 steady ways 1
fate 2 both pass length 60 points 2 2
foreseen packets 2 steady 1 moved 0 between 1 mixed 0 open 0
end
",
];

// Both lines of the change are refused.
const NO_CHANGE: &[&str] = &[
    "change from 2 to 2\n",
    "refused 2 control 1 line 1 HookExists
refused 2 control 1 line 2 HookExists
",
    "packet 1 steady ways 1
fate 1 both drop length 60 points 2 2 2
packet 2 steady ways 1
fate 2 both pass length 60 points 2 2
foreseen packets 2 steady 2 moved 0 between 0 mixed 0 open 0
end
",
];

const ROUND_FILES: &[(&str, Held)] = &[
    ("job", Held::Text(ROUNDS)),
    ("rules", Held::Text(DROP)),
    ("none", Held::NoPackets),
    ("more", Held::Text(HOOK)),
    ("two", Held::TwoPackets),
    ("report", Held::Text(REPORT)),
];

/// All commands. Of `run`, `recheck` and the `trace` of a report the files are those that the job names, in its
/// order.
pub(crate) const CASES: &[Case] = &[
    Case {
        words: &["show", "batch"],
        files: &[("batch", Held::Text(DROP))],
        calls: &[Call::Fetch("batch")],
        status: "0 ",
        written: Written::ByLines(SHOWN),
    },
    Case {
        words: &["show", "batch"],
        files: &[("batch", Held::Text(AGAIN))],
        calls: &[Call::Fetch("batch")],
        status: "1 1 lines refused",
        written: Written::ByLines(
            "refused 1 control 1 line 2 HookExists\nqdisc add dev eth0 clsact\nend\n",
        ),
    },
    Case {
        words: &WALK,
        files: &[("batch", Held::Text(DROP)), ("capture", Held::TwoPackets)],
        calls: &[
            Call::Fetch("batch"),
            Call::Fetch("capture"),
            Call::Put("output"),
        ],
        status: "0 ",
        written: Written::ByLines(TWO),
    },
    Case {
        words: &WALK,
        files: &[("batch", Held::Text(RULES)), ("capture", Held::Gateway)],
        calls: &[
            Call::Fetch("batch"),
            Call::Fetch("capture"),
            Call::Put("output"),
        ],
        status: "0 ",
        written: Written::ByLines(WALKED),
    },
    Case {
        words: &["walk", "egress", "batch", "capture", "output"],
        files: &[("batch", Held::Text(DROP)), ("capture", Held::TwoPackets)],
        calls: &[
            Call::Fetch("batch"),
            Call::Fetch("capture"),
            Call::Put("output"),
        ],
        status: "0 ",
        written: Written::ByLines(BOTH_PASS),
    },
    Case {
        words: &["run", "job"],
        files: ROUND_FILES,
        calls: &[
            Call::Fetch("job"),
            Call::Fetch("rules"),
            Call::Fetch("none"),
            Call::Fetch("more"),
            Call::Fetch("two"),
            Call::Put("out1"),
            Call::Put("out2"),
        ],
        status: "1 1 lines refused",
        written: Written::Whole(REPORT),
    },
    Case {
        words: &["run", "job"],
        files: &[
            ("job", Held::Text(OVERLAP)),
            ("base", Held::Text(DROP)),
            ("change", Held::Text(CHANGE)),
            ("input", Held::TwoPackets),
        ],
        calls: &[
            Call::Fetch("job"),
            Call::Fetch("base"),
            Call::Fetch("change"),
            Call::Fetch("input"),
            Call::Put("passed"),
        ],
        status: "0 ",
        written: Written::AnyWhole,
    },
    Case {
        words: &["recheck", "job", "report"],
        files: ROUND_FILES,
        calls: &[
            Call::Fetch("job"),
            Call::Fetch("rules"),
            Call::Fetch("none"),
            Call::Fetch("more"),
            Call::Fetch("two"),
            Call::Fetch("report"),
        ],
        status: "0 ",
        written: Written::Whole("lawful\n"),
    },
    // The batch that the job names `more` is no report.
    Case {
        words: &["recheck", "job", "more"],
        files: ROUND_FILES,
        calls: &[
            Call::Fetch("job"),
            Call::Fetch("rules"),
            Call::Fetch("none"),
            Call::Fetch("more"),
            Call::Fetch("two"),
            Call::Fetch("more"),
        ],
        status: NO_REPORT,
        written: Written::Whole("unlawful 1\n"),
    },
    // Of what is no report, `trace` writes what `recheck` writes.
    Case {
        words: &["trace", "job", "more"],
        files: ROUND_FILES,
        calls: &[
            Call::Fetch("job"),
            Call::Fetch("rules"),
            Call::Fetch("none"),
            Call::Fetch("more"),
            Call::Fetch("two"),
            Call::Fetch("more"),
        ],
        status: NO_REPORT,
        written: Written::Whole("unlawful 1\n"),
    },
    Case {
        words: &["foresee", "ingress", "batch", "change", "capture"],
        files: &[
            ("batch", Held::Text(DROP)),
            ("change", Held::Text(SWAPPED)),
            ("capture", Held::TwoPackets),
        ],
        calls: &[
            Call::Fetch("batch"),
            Call::Fetch("change"),
            Call::Fetch("capture"),
        ],
        status: "8 1 packets not hitless",
        written: Written::ByParts(LET_THROUGH),
    },
    // The second line of the change is tried, since it is forced.
    Case {
        words: &["foresee", "ingress", "batch", "change", "capture", "force"],
        files: &[
            ("batch", Held::Text(DROP)),
            ("change", Held::Text(AGAIN)),
            ("capture", Held::TwoPackets),
        ],
        calls: &[
            Call::Fetch("batch"),
            Call::Fetch("change"),
            Call::Fetch("capture"),
        ],
        status: "1 2 lines refused",
        written: Written::ByParts(NO_CHANGE),
    },
    Case {
        words: &["gen", "4", "x"],
        files: &[],
        calls: &[
            Call::Put("x.tc"),
            Call::Put("x.pcap"),
            Call::Put("x.job"),
            Call::Put("x.out.pcap"),
        ],
        status: "0 ",
        written: Written::ByLines(MADE),
    },
];

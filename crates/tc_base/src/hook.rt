/// The two hooks of a clsact qdisc (tc-clsact(8)): packets that come in, and packets that go out.
#[derive(Clone, Copy, Debug, PartialEq, Eq, PartialOrd, Ord)]
pub enum Hook {
    Ingress,
    Egress,
}

/// The protocol of a table of filters: `all`, or one EtherType of IEEE 802.
#[derive(Clone, Copy, Debug, PartialEq, Eq, PartialOrd, Ord)]
pub enum Proto {
    All,
    Ether(u16),
}

/// A moment of a run, as the number of edits that were accepted before it.
pub type Point = u32;

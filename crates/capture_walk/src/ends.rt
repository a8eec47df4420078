//! How the walk of a packet ended.

use frame_edit::Meta;
use plain_walk::PlainWalk;
use walk_rules::Verdict;

/// How the walk of a packet ended.
#[derive(Clone, Copy, Debug, PartialEq, Eq)]
pub struct PacketEnd {
    pub verdict: Verdict,
    /// The frame's length at the end, in bytes.
    pub length: u32,
    /// What skbedit made of the packet's metadata.
    pub meta: Meta,
}

impl PacketEnd {
    ghost use Rattle.frame_edit.specs.declared.limits.TheConstants.{FRAME_MAX};
    ghost use Rattle.std.specs.Prelude.{◌≡◌, ◌≤◌, length};
    ghost use Rattle.plain_walk.specs.Walked.{walked_from};
    ghost use Rattle.capture_walk.specs.Captures.{end_of};

    /// How this walk of a packet with these bytes ended.
    #[inline]
    pub(crate) fn of_walk(walk: &PlainWalk, came: &[u8]) -> PacketEnd
        requires { length came.now ≤ FRAME_MAX }
        ensures end { result ≡ end_of (walked_from came.now walk.now) }
        ensures short { result.length ≤ FRAME_MAX }
    {
        PacketEnd {
            verdict: walk.verdict(),
            length: walk.bytes(came).len() as u32,
            meta: walk.meta(),
        }
    }
}

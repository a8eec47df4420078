//! How long a packet was on its wire, where its walk changed its frame.
ghost use Rattle.frame_edit.specs.declared.limits.TheConstants.{FRAME_MAX};
ghost use Rattle.std.specs.Prelude.{◌≡◌, ◌≤◌};
ghost use Rattle.walk_ends.specs.Passing.{regrown};

/// The original length, in bytes, of a frame that had so many bytes and now has others.
#[inline]
pub fn regrown(original: u32, before: usize, after: usize) -> u32
    requires before { before ≤ FRAME_MAX }
    requires after { after ≤ FRAME_MAX }
    ensures { result ≡ regrown original before after }
{
    let grown = (u64::from(original) + after as u64).saturating_sub(before as u64);
    grown.min(u64::from(u32::MAX)) as u32
}

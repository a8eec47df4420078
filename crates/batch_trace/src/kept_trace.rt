//! What was told of a frame, kept for the frames that come again.
ghost use Rattle.std.specs.Prelude.{◌≡◌, ◌<◌, ◌≤◌, ℕ, List, length, OnOk};

use std::alloc::{AllocError, Global};
use tc_base::Point;

/// How many frames are kept at most.
pub(crate) const PLACES: u64 = 4096;

/// The longest frame that is kept, in bytes.
const FRAME_KEPT: usize = 2_048;

/// The longest text that is kept of a frame, in bytes.
const TEXT_KEPT: usize = 4_096;

/// How many bytes of a frame say at which place it is kept: those of its headers.
const HEADERS: usize = 64;

// Of the hash of Fowler, Noll and Vo (FNV-1a, 64 bits).
const HASH_BASIS: u64 = 0xcbf2_9ce4_8422_2325;

const HASH_PRIME: u64 = 0x0100_0000_01b3;

/// The lines that were told of a frame, numbered 0, and the edits whose filters decided; nothing at first. A
/// capture often has a frame many times, and telling it takes longer than all else of a packet.
#[derive(Drop)]
pub(crate) struct KeptTrace {
    pub(crate) is_kept: bool,
    pub(crate) frame: Vec<u8>,
    pub(crate) lines: Vec<u8>,
    pub(crate) decided: Vec<Point>,
}

/// The place of a frame.
pub(crate) fn place_of(frame: &[u8]) -> usize
    ensures { result < PLACES }
{
    let headers = frame.get(..HEADERS).unwrap_or(frame);
    let mut hash = HASH_BASIS ^ frame.len() as u64;
    for byte in headers {
        hash = (hash ^ u64::from(*byte)).wrapping_mul(HASH_PRIME);
    }
    ((hash >> 32) % PLACES) as usize
}

impl KeptTrace {
    ghost use Rattle.std.specs.Prelude.{◌≡◌, ◌≤◌, ℕ, List, length, true, false, OnOk};
    ghost use Rattle.tc_base.specs.declared.hook.Hook.{Hook as AHook};
    ghost use Rattle.filter_origins.specs.Entries.{Entry};
    ghost use Rattle.batch_trace.specs.Kept.{IsToldOf, IsKept};

    /// Nothing. It takes no memory yet.
    pub(crate) fn new(alloc: Global) -> KeptTrace
        ensures { result.is_kept ≡ false }
    {
        KeptTrace {
            is_kept: false,
            frame: Vec::new(alloc),
            lines: Vec::new(alloc),
            decided: Vec::new(alloc),
        }
    }

    /// Whether it was told of that frame.
    pub(crate) fn is_of(&self, frame: &[u8]) -> bool
        ensures { result ≡ true → (self.now.is_kept ≡ true) × (self.now.frame.items ≡ frame.now) }
    {
        self.is_kept && self.frame.as_slice() == frame
    }

    /// Keeps what was told of a frame in place of what was here, unless it is long.
    pub(crate) fn keep(
        &mut self,
        frame: &[u8],
        lines: &[u8],
        decided: &[Point],
    ) -> Result<(), AllocError>
        ensures { (entries : List Entry) (hook : AHook) → IsKept entries hook self.old
            → IsToldOf entries hook frame.now lines.now decided.now
            → OnOk result (IsKept entries hook self.new) }
    {
        if frame.len() > FRAME_KEPT || lines.len() > TEXT_KEPT {
            return Ok(());
        }
        self.is_kept = false;
        self.frame.clear();
        self.frame.extend_from_slice(frame)?;
        self.lines.clear();
        self.lines.extend_from_slice(lines)?;
        self.decided.clear();
        self.decided.extend_from_slice(decided)?;
        self.is_kept = true;
        Ok(())
    }
}

ghost use Rattle.std.specs.Prelude.{◌≡◌, ℕ, List, [], ◌∷◌, Option, OnOk};
ghost use Rattle.tc_base.specs.declared.outside.Fetch.TheVariants as fetches;
ghost use Rattle.tc_base.specs.declared.outside.Put.TheVariants as puts;
ghost use Rattle.tc_base.specs.Memory.{no_memory};

use crate::{NoMemory, Pieces};
use std::alloc::{AllocError, AllocFailed};

/// Why a fetch gave no bytes.
#[derive(Clone, Copy, Debug, PartialEq, Eq)]
pub enum Fetch {
    /// The shelf holds nothing under the name.
    Missing,
    /// The shelf could not read, and counted that.
    Failed,
    NoMemory(NoMemory),
}

/// Why bytes were not put or written.
#[derive(Clone, Copy, Debug, PartialEq, Eq)]
pub enum Put {
    /// The shelf or the sink could not write, and counted that.
    Failed,
    NoMemory(NoMemory),
}

impl From<NoMemory> for Put {
    ghost from_gives = { λ memory e. e ≡ puts.NoMemory memory };

    fn from(memory: NoMemory) -> Self {
        Put::NoMemory(memory)
    }
}

impl From<AllocError> for Fetch {
    ghost from_gives = { λ _ e. e ≡ fetches.NoMemory no_memory };

    fn from(refused: AllocError) -> Self {
        Fetch::NoMemory(NoMemory::from(refused))
    }
}

impl<T: Drop> From<AllocFailed<T>> for Fetch {
    ghost from_gives = { λ _ e. e ≡ fetches.NoMemory no_memory };

    fn from(refused: AllocFailed<T>) -> Self {
        Fetch::NoMemory(NoMemory::from(refused))
    }
}

impl From<AllocError> for Put {
    ghost from_gives = { λ _ e. e ≡ puts.NoMemory no_memory };

    fn from(refused: AllocError) -> Self {
        Put::NoMemory(NoMemory::from(refused))
    }
}

impl<T: Drop> From<AllocFailed<T>> for Put {
    ghost from_gives = { λ _ e. e ≡ puts.NoMemory no_memory };

    fn from(refused: AllocFailed<T>) -> Self {
        Put::NoMemory(NoMemory::from(refused))
    }
}

/// Files by name.
///
/// A shelf copies the name before it reads, so that it can keep that of a fetch that fails. A
/// refused copy is `NoMemory`, and then nothing was read.
pub trait Shelf {
    ghost use Rattle.tc_base.specs.Outside.{Held, Fetched, FetchCounts, OthersStay, Stands, PutCounts};
    ghost use Rattle.tc_base.specs.Outside.{Asked, FetchAsks, AsksFor};
    ghost use Rattle.tc_base.specs.Pieces.{joined};

    // What is held under each name, where the shelf tells it.
    ghost held: { Self → Option Held };

    // How often a read failed. It never falls, and stands still at 2^64 - 1.
    ghost read_faults: { Self → ℕ };

    // The name of the last fetch that was answered `Failed`.
    ghost failed_name: { Self → Option (List ℕ) };

    // How often a write failed. It never falls, and stands still at 2^64 - 1.
    ghost write_faults: { Self → ℕ };

    // The names that were fetched so far, in order, where the shelf tells them.
    ghost fetched: { Self → Asked };

    // The names that were put so far, in order, where the shelf tells them. That of a put which was not answered
    // Ok may be missing: it fails also where there is no memory for a copy of its name.
    ghost put_names: { Self → Asked };

    /// The bytes under the name.
    ///
    /// `Missing` comes only from a shelf that tells what it holds, and that holds nothing there.
    /// `Failed` comes only where the count of read faults rose, and then the name is kept.
    fn fetch(&mut self, name: &str) -> Result<Vec<u8>, Fetch>
        ensures bytes { Fetched (held self.old) name.now result }
        ensures held { held self.new ≡ held self.old }
        ensures counts { FetchCounts (read_faults self.old) (read_faults self.new)
            (failed_name self.old) (failed_name self.new) name.now result }
        ensures write_faults { write_faults self.new ≡ write_faults self.old }
        ensures fetched { FetchAsks (fetched self.old) (fetched self.new) name.now result }
        ensures put_names { put_names self.new ≡ put_names self.old };

    /// Holds these bytes under the name, in place of any others.
    ///
    /// `Failed` comes only where the count of write faults rose. After an error this name may hold
    /// any bytes or none, and every other name what it held.
    fn put(&mut self, name: &str, bytes: &[u8]) -> Result<(), Put>
        ensures stands { OnOk result (Stands (held self.new) name.now bytes.now) }
        ensures others { OthersStay (held self.old) (held self.new) name.now }
        ensures counts { PutCounts (write_faults self.old) (write_faults self.new) result }
        ensures read_faults { read_faults self.new ≡ read_faults self.old }
        ensures failed_name { failed_name self.new ≡ failed_name self.old }
        ensures fetched { fetched self.new ≡ fetched self.old }
        ensures put_names { AsksFor (put_names self.old) (put_names self.new) (name.now ∷ []) result };

    /// Holds the bytes of these pieces, joined, under the name: a `put` of them, which a shelf may make
    /// without a copy. What isn't said otherwise joins them, and puts that.
    fn put_pieces(&mut self, name: &str, pieces: &Pieces<'_>) -> Result<(), Put>
        ensures stands { OnOk result (Stands (held self.new) name.now (joined pieces.now.pieces)) }
        ensures others { OthersStay (held self.old) (held self.new) name.now }
        ensures counts { PutCounts (write_faults self.old) (write_faults self.new) result }
        ensures read_faults { read_faults self.new ≡ read_faults self.old }
        ensures failed_name { failed_name self.new ≡ failed_name self.old }
        ensures fetched { fetched self.new ≡ fetched self.old }
        ensures put_names { AsksFor (put_names self.old) (put_names self.new) (name.now ∷ []) result }
    {
        let bytes = pieces.joined()?;
        self.put(name, &bytes)
    }
}

/// Bytes that are written one piece after another.
pub trait Sink {
    ghost use Rattle.tc_base.specs.Outside.{Appended, AppendsUpTo, PutCounts};

    // The bytes written, where the sink tells them.
    ghost written: { Self → Option (List ℕ) };

    // How often a write failed. It never falls, and stands still at 2^64 - 1.
    ghost faults: { Self → ℕ };

    /// Writes all of the piece.
    ///
    /// `Failed` comes only where the count of faults rose. After an error a front of the piece was
    /// written, which may be none or all of it.
    fn write_all(&mut self, bytes: &[u8]) -> Result<(), Put>
        ensures all { OnOk result (Appended (written self.old) (written self.new) bytes.now) }
        ensures up_to { AppendsUpTo (written self.old) (written self.new) bytes.now }
        ensures counts { PutCounts (faults self.old) (faults self.new) result };
}

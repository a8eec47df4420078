//! The fates of a packet, found.
use crate::known::Known;
use fate_search::{Fates, Searching, search};
use fate_times::{Kind, Times, tell_times};
use std::alloc::Global;
use tc_base::NoMemory;

/// Room for the fates of a packet, kept from packet to packet.
#[derive(Drop)]
pub(crate) struct Finding {
    search: Searching,
    pub(crate) fates: Fates,
    pub(crate) times: Times,
}

/// What kind of packet it is, how many of its ways were looked at, and whether there are more.
#[derive(Clone, Copy)]
pub(crate) struct Seen {
    pub(crate) kind: Kind,
    pub(crate) ways: u32,
    pub(crate) more: bool,
}

impl Finding {
    ghost use Rattle.frame_edit.specs.declared.limits.TheConstants.{FRAME_MAX};
    ghost use Rattle.std.specs.Prelude.{◌≡◌, ◌≤◌, length, IfOk, OnOk};
    ghost use Rattle.fate_search.specs.Found.{all_found};
    ghost use Rattle.change_fates.specs.Told.{told_in, whens_in, kind_in, ways_in, more_in};

    /// Takes the room of walks.
    ///
    /// `NoMemory`: memory was refused.
    pub(crate) fn with_room(alloc: Global) -> Result<Finding, NoMemory> {
        Ok(Finding {
            search: Searching::with_room(alloc)?,
            fates: Fates::new(alloc),
            times: Times::with_room(alloc)?,
        })
    }

    /// Finds the fates of a packet of at most 262,144 bytes, and when each is had.
    ///
    /// `NoMemory`: memory was refused.
    pub(crate) fn find(&mut self, known: &Known<'_>, bytes: &[u8]) -> Result<Seen, NoMemory>
        requires short { length bytes.now ≤ FRAME_MAX }
        ensures fates { OnOk result (self.new.fates ≡ all_found (told_in known.now bytes.now)) }
        ensures times { OnOk result (self.new.times ≡ whens_in known.now bytes.now) }
        ensures kind { IfOk result (λ seen. seen.kind ≡ kind_in known.now bytes.now) }
        ensures ways { IfOk result (λ seen. seen.ways ≡ ways_in known.now bytes.now) }
        ensures more { IfOk result (λ seen. seen.more ≡ more_in known.now bytes.now) }
    {
        let answers = known.answers();
        let hook = known.hook();
        let before = known.before();
        let after = known.after();
        let Finding {
            search: room,
            fates,
            times,
        } = self;
        let looked = search(room, &answers, hook, bytes, before, after, fates)?;
        let kind = tell_times(times, &answers, hook, bytes, before, after, looked, fates)?;
        Ok(Seen {
            kind,
            ways: looked.ways,
            more: looked.more,
        })
    }
}

//! The lines of a packet's fates.
ghost use Rattle.frame_edit.specs.declared.limits.TheConstants.{FRAME_MAX};
ghost use Rattle.std.specs.Prelude.{◌≡◌, ◌≤◌, ◌++◌, [], List, ℕ, Option, length, get_or, IfOk, OnOk, IsErrOf};
ghost use Rattle.tc_base.specs.Outside.{AppendsUpTo, Rose};
ghost use Rattle.walk_texts.specs.Texts.{joined};
ghost use Rattle.fate_search.specs.Found.{all_found};
ghost use Rattle.change_fates.specs.Told.{told_in, whens_in, is_neither, fate_lines, fates_lines};
ghost use Rattle.change_fates.specs.Texts.{packet_line};
ghost use Rattle.change_fates.specs.Views.{fate_seen};
ghost use Rattle.change_fates.specs.Paging.{IsOnPage};

use crate::finding::{Finding, Seen};
use crate::known::Known;
use crate::lines::{push_fate, push_packet};
use crate::met::tell_met;
use crate::page::turn;
use crate::views::{FateView, fate_at};
use fate_times::When;
use std::alloc::Global;
use tc_base::{NoMemory, Put, Sink};
use trace_lines::Page;
use walk_steps::Walk;

/// Room for what is told of a packet, kept from packet to packet.
#[derive(Drop)]
pub(crate) struct Room {
    alloc: Global,
    walk: Walk,
    line: Vec<u8>,
    pub(crate) page: Page,
}

// Whether neither the state before the change nor that after it gives a fate.
fn is_neither(when: When) -> bool
    ensures { result ≡ is_neither when }
{
    matches!(when, When::Between | When::Mixed)
}

impl Room {
    /// Takes the room of a walk. That for lines is taken as they come.
    ///
    /// `NoMemory`: memory was refused.
    pub(crate) fn new(alloc: Global) -> Result<Room, NoMemory>
        ensures { IfOk result (λ room. room.page ≡ []) }
    {
        Ok(Room {
            alloc,
            walk: Walk::with_room(alloc)?,
            line: Vec::new(alloc),
            page: Page::new(alloc),
        })
    }

    /// Puts a line of the packet's own on the page.
    ///
    /// `NoMemory`: memory was refused.
    pub(crate) fn put_packet(&mut self, number: u64, seen: Seen) -> Result<(), NoMemory>
        ensures { OnOk result (self.new.page
            ≡ self.old.page ++ packet_line number seen.kind seen.ways seen.more) }
    {
        self.line.clear();
        push_packet(&mut self.line, number, seen.kind, seen.ways, seen.more)?;
        self.page.push_text(&self.line)
    }

    // Puts the line of a fate on the page, and what its walk met where it is neither.
    fn put_fate(
        &mut self,
        known: &Known<'_>,
        number: u64,
        bytes: &[u8],
        when: When,
        fate: FateView<'_>,
    ) -> Result<(), NoMemory>
        requires short { length bytes.now ≤ FRAME_MAX }
        requires since { known.now.before ≤ get_or fate.points.now 0 0 }
        ensures { OnOk result (self.new.page ≡ self.old.page
            ++ joined (fate_lines known.now number bytes.now when (fate_seen fate.entry))) }
    {
        self.line.clear();
        push_fate(&mut self.line, number, when, fate)?;
        self.page.push_text(&self.line)?;
        if !is_neither(when) {
            return Ok(());
        }
        let Room {
            alloc,
            walk,
            page,
            ..
        } = self;
        tell_met(*alloc, walk, known, number, bytes, fate.points, page)
    }

    /// Writes the lines of the fates that were found of the packet of that number, which has at most 262,144
    /// bytes.
    ///
    /// `Failed`: the sink could not write. `NoMemory`: memory was refused.
    pub(crate) fn write_fates<O: Sink>(
        &mut self,
        known: &Known<'_>,
        finding: &Finding,
        number: u64,
        bytes: &[u8],
        out: &mut O,
    ) -> Result<(), Put>
        requires short { length bytes.now ≤ FRAME_MAX }
        requires found { finding.now.fates ≡ all_found (told_in known.now bytes.now) }
        requires times { finding.now.times ≡ whens_in known.now bytes.now }
        ensures on { OnOk result ((first : Option (List ℕ)) (whole rest : List ℕ)
            → IsOnPage first (O.written out.old) whole self.old.page (joined (fates_lines known.now number
            bytes.now (whens_in known.now bytes.now) (all_found (told_in known.now bytes.now))) ++ rest)
            → IsOnPage first (O.written out.new) whole self.new.page rest) }
        ensures up_to { (first : Option (List ℕ)) (whole rest : List ℕ)
            → IsOnPage first (O.written out.old) whole self.old.page (joined (fates_lines known.now number
            bytes.now (whens_in known.now bytes.now) (all_found (told_in known.now bytes.now))) ++ rest)
            → AppendsUpTo first (O.written out.new) whole }
        ensures later { O.faults out.old ≤ O.faults out.new }
        ensures cause { IsErrOf result Put.Failed → Rose (O.faults out.old) (O.faults out.new) }
    {
        for place in 0..finding.fates.len() {
            turn(&mut self.page, out)?;
            let when = finding.times.when(place);
            let fate = fate_at(&finding.fates, place);
            self.put_fate(known, number, bytes, when, fate)?;
        }
        Ok(())
    }
}

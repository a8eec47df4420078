//! What the walks of a round's packets came to.
ghost use Rattle.std.specs.Prelude.{◌≡◌, ◌<◌, ◌↔◌, All, length, IsTrue};

use crate::outcome_list::OutcomeList;
use frame_edit::Meta;
use std::alloc::Global;
use std::marker::Model;
use tc_base::{Bytes, Numbers, Pairs, Point};
use walk_rules::Verdict;

/// How the walk of a packet ended, and what it met. It is what contracts see of a packet's record.
#[derive(Drop, Debug)]
pub struct Outcome {
    /// The worker that walked the packet, counted from 1.
    pub worker: u32,
    pub verdict: Verdict,
    /// The frame as the walk left it.
    pub bytes: Bytes,
    /// What the walk made of the packet's metadata.
    pub meta: Meta,
    /// The point of each visit in order: how many edits the state had seen that answered it.
    pub points: Numbers,
    /// Each execution of an action in order: its serial, and the length of the frame before it in bytes.
    pub executed: Pairs,
}

/// An outcome whose lists are lent: by a walk that has ended, or by the outcomes of a round.
#[derive(Clone, Copy, Debug)]
pub struct OutcomeView<'a> {
    pub worker: u32,
    pub verdict: Verdict,
    pub bytes: &'a [u8],
    pub meta: Meta,
    pub points: &'a [Point],
    pub executed: &'a [(u32, u32)],
}

/// Where the outcome of a packet lies: in which list, and in which row of it, both from 0.
#[derive(Clone, Copy, Debug)]
pub struct OutcomePlace {
    pub list: u32,
    pub row: u32,
}

/// The outcomes of a round's packets, in the order of the capture. They stay in the lists in which they came,
/// one for each worker, and so nothing is copied where lists are put together.
#[derive(Drop, Debug)]
pub struct Outcomes {
    lists: Vec<OutcomeList>,
    places: Vec<OutcomePlace>,
}

impl Model for Outcomes {
    ghost use Rattle.std.specs.Prelude.{All, List};
    ghost use Rattle.run_report.specs.declared.outcomes.Outcome.{Outcome};
    ghost use Rattle.run_report.specs.Kept.{outcomes_there, IsThere};

    ghost Value = { List Outcome };

    ghost view = { λ o. outcomes_there o.lists.items o.places.items };

    ghost invariant = { λ o. All (IsThere o.lists.items) o.places.items };
}

impl Outcomes {
    ghost use Rattle.std.specs.Prelude.{[], slice_get, Some};
    ghost use Rattle.run_report.specs.Kept.{outcome_seen, outcomes_there, IsThere};

    /// No outcomes.
    pub fn new(alloc: Global) -> Outcomes
        ensures { result ≡ [] }
    {
        Outcomes {
            lists: Vec::new(alloc),
            places: Vec::new(alloc),
        }
    }

    /// The outcomes at these places of the lists, in the order of the places.
    pub fn of_lists(lists: Vec<OutcomeList>, places: Vec<OutcomePlace>) -> Outcomes
        requires { All (IsThere lists.items) places.items }
        ensures { result ≡ outcomes_there lists.items places.items }
    {
        Outcomes { lists, places }
    }

    /// How many there are.
    pub fn len(&self) -> usize
        ensures { result ≡ length self.now }
    {
        self.places.len()
    }

    /// Whether there is none.
    pub fn is_empty(&self) -> bool
        ensures { IsTrue result ↔ (length self.now ≡ 0) }
    {
        self.places.is_empty()
    }

    /// The outcome of the packet at a place, from 0.
    pub fn at(&self, place: usize) -> OutcomeView<'_>
        requires { place < length self.now }
        ensures { slice_get self.now place ≡ Some (outcome_seen result) }
    {
        let there = self.places[place];
        self.lists[there.list as usize].at(there.row as usize)
    }
}

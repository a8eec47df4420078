//! What lies under the lock of a round.
ghost use Rattle.std.specs.Prelude.{◌≡◌, ◌+◌, ◌≤◌, ◌<◌, ◌^◌, [], length, IfOk, IfSome, IfNone, OnOk};
ghost use Rattle.std.specs.Prelude.{vec_len, vec_capacity};
ghost use Rattle.round_terms.specs.TheConstants.{COMMANDS_MAX};
ghost use Rattle.round_terms.specs.Given.{IsLoaded};
ghost use Rattle.pin_store.specs.Calls.{sheet_of};
ghost use Rattle.round_terms.specs.Files.{first_file as first_before, files_of, commands_in_all};
ghost use Rattle.round_terms.specs.Coming.{IsThroughAll};
ghost use Rattle.round_terms.specs.Hearing.{ear_of};
ghost use Rattle.shared_hook.specs.Views.{journal};
ghost use Rattle.job_rounds.specs.declared.round_state.turned.Turned.TheVariants.{Over};
ghost use Rattle.job_rounds.specs.OfRoundState.Rounds.{store_name, IsDeskOf, IsRoundOf};
ghost use Rattle.job_rounds.specs.OfRoundState.Turns.{IsTurned, IsLineNumber};

use crate::round_state::meeting::meet_line;
use crate::round_state::naming::RoundName;
use crate::round_state::turned::Turned;
use filter_state::LINE_ACTIONS_MAX;
use hook_store_law::HookStore;
use round_terms::{
    Event, Events, LoadedJob, MadeAction, Place, first_file, goes_on, next_line, tell,
};
use shared_hook::Desk;
use std::alloc::Global;
use std::marker::{Model, PhantomData};
use tc_base::{Ear, EventName, NoMemory};

/// The desk and the ear of a round, what happened in it so far, and how far each control has come.
///
/// Contracts see these, and that they are a round's: that of `N`.
#[derive(Drop)]
pub struct RoundState<N: RoundName, E: Ear> {
    desk: Desk,
    events: Vec<Event>,
    made: Vec<MadeAction>,
    places: Vec<Place>,
    ear: E,
    // How many batches the job names before the round, once that was counted.
    first: Option<usize>,
    alloc: Global,
    of: PhantomData<N>,
}

impl<N: RoundName, E: Ear> Model for RoundState<N, E> {
    ghost use Rattle.std.specs.Prelude.{◌≡◌, IfSome};
    ghost use Rattle.round_terms.specs.Files.{first_file};
    ghost use Rattle.job_rounds.specs.OfRoundState.Rounds.{Underway, IsRoundOf};

    ghost Value = { Underway E };

    ghost view = { λ s. record {
      desk = s.desk;
      events = s.events.items;
      made = s.made.items;
      places = s.places.items;
      ear = s.ear;
    } };

    ghost invariant = { λ s. IsRoundOf E.name E.heard E.spare N.store N.job N.number N.before N.ear (record {
      desk = s.desk;
      events = s.events.items;
      made = s.made.items;
      places = s.places.items;
      ear = s.ear;
    }) × IfSome s.first (λ first. first ≡ first_file N.job N.number) };
}

impl<N: RoundName, E: Ear> RoundState<N, E> {
    /// A round that begins: nothing has happened yet. On `NoMemory` desk and ear are dropped.
    pub fn new(
        alloc: Global,
        desk: Desk,
        ear: E,
        controls: u32,
    ) -> Result<RoundState<N, E>, NoMemory>
        requires store { IsDeskOf N.store desk }
        requires journal { journal desk ≡ N.before }
        requires ear { ear_of E.name E.heard E.spare ear ≡ N.ear }
        requires controls { controls ≡ N.job.job.controls }
        requires job { IsLoaded N.job }
        ensures begun { IfOk result (λ s. (s.desk ≡ desk) × (s.events ≡ []) × (s.made ≡ []) × (s.ear ≡ ear)) }
    {
        let places = match vec![in alloc; Place::start(); controls as usize] {
            Ok(places) => places,
            Err(refused) => {
                drop((desk, ear));
                return Err(NoMemory::from(refused));
            }
        };
        Ok(RoundState {
            desk,
            events: Vec::new(alloc),
            made: Vec::new(alloc),
            places,
            ear,
            first: None,
            alloc,
            of: PhantomData,
        })
    }

    /// The desk.
    pub fn desk(&self) -> &Desk
        ensures { result.now ≡ self.now.desk }
    {
        &self.desk
    }

    /// What holds whenever the lock is free.
    pub fn attest(&self)
        ensures { IsRoundOf E.name E.heard E.spare N.store N.job N.number N.before N.ear self.now }
    {
        let _desk = &self.desk;
    }

    /// The number of the line that a control has to meet next, in its batch from 1. `None` exactly where it
    /// has no line left.
    pub fn next_line(&self, job: &LoadedJob, round: u32, control: u32) -> Option<u64>
        requires job { (job.now ≡ N.job) × IsLoaded job.now }
        requires round { (round ≡ N.number) × (1 ≤ round) × (round ≤ length job.now.job.rounds) }
        requires control { (1 ≤ control) × (control ≤ job.now.job.controls) }
        ensures line { IfSome result (IsLineNumber (files_of N.job N.number) self.now.places control) }
        ensures over { IfNone result (IsThroughAll (files_of N.job N.number) control self.now.events) }
        ensures exact { IfSome result (λ _.
            IsThroughAll (files_of N.job N.number) control self.now.events → ⊥) }
    {
        let before = first_file(job, round);
        let next = next_line(job, before, round, control, self.places.as_slice())?;
        Some(next.line)
    }

    /// Meets the next line of a control: applies its edit, where it gives one that is accepted, and notes
    /// what became of it.
    ///
    /// `Over`: exactly where the control has no line left; nothing has changed. `Held` and `NoMemory`: the
    /// line was not met, and nothing that a round tells has changed.
    pub fn turn(&mut self, store: &HookStore, job: &LoadedJob, round: u32, control: u32) -> Turned
        requires store { store_name store.now ≡ N.store }
        requires job { (job.now ≡ N.job) × IsLoaded job.now }
        requires round { (round ≡ N.number) × (1 ≤ round) × (round ≤ length job.now.job.rounds) }
        requires control { (1 ≤ control) × (control ≤ job.now.job.controls) }
        requires few { length N.before + commands_in_all (files_of N.job N.number) ≤ COMMANDS_MAX }
        requires spare { commands_in_all (files_of N.job N.number) ≤ N.ear.spare }
        requires epochs { (sheet_of self.old.desk.place).epoch < 2 ^ 61 }
        ensures turned { IsTurned E.name E.heard E.spare (files_of N.job N.number) N.number control
            self.old self.new result }
        ensures over { result ≡ Over → IsThroughAll (files_of N.job N.number) control self.old.events }
        ensures exact { IsThroughAll (files_of N.job N.number) control self.old.events → result ≡ Over }
    {
        let RoundState {
            desk,
            events,
            made,
            places,
            ear,
            first,
            alloc,
            ..
        } = self;
        let before = first_of(first, job, round);
        let Some(next) = next_line(job, before, round, control, places.as_slice()) else {
            return Turned::Over;
        };
        if let Err(memory) = reserve(events, made) {
            return Turned::NoMemory(memory);
        }
        let kind = match meet_line(*alloc, desk, store, made, next.text) {
            Ok(kind) => kind,
            Err(turned) => return turned,
        };
        let goes = goes_on(next.force, &kind);
        let name = EventName {
            number: desk.journal_len(),
            round,
            control,
            line: next.line,
        };
        tell(ear, &kind, name);
        events.push_reserved(Event {
            control,
            line: next.line,
            kind,
        });
        places[control as usize - 1] = Place {
            at: next.next,
            line: next.line,
            over: !goes,
        };
        Turned::Applied
    }

    /// The desk, the events and the ear.
    pub fn close(self) -> (Desk, Events, E)
        ensures parts { (result.0 ≡ self.desk) × (result.1 ≡ self.events) × (result.2 ≡ self.ear) }
        ensures round { IsRoundOf E.name E.heard E.spare N.store N.job N.number N.before N.ear self }
    {
        let (desk, events, ear, _) = self.close_with_made();
        (desk, events, ear)
    }

    /// The desk, the events, the ear, and the names of all actions that the round made, in order.
    pub fn close_with_made(self) -> (Desk, Events, E, Vec<MadeAction>)
        ensures parts { (result.0 ≡ self.desk) × (result.1 ≡ self.events) × (result.2 ≡ self.ear)
            × (result.3.items ≡ self.made) }
        ensures round { IsRoundOf E.name E.heard E.spare N.store N.job N.number N.before N.ear self }
    {
        let RoundState {
            desk,
            events,
            made,
            ear,
            ..
        } = self;
        (desk, Events::from_vec(events), ear, made)
    }
}

// Reserves the room that a turn needs besides what its edit takes: for an event and for the names of actions.
fn reserve(events: &mut Vec<Event>, made: &mut Vec<MadeAction>) -> Result<(), NoMemory>
    ensures same { (events.new.items ≡ events.old.items) × (made.new.items ≡ made.old.items) }
    ensures room { OnOk result ((vec_len events.new < vec_capacity events.new)
        × (vec_len made.new + LINE_ACTIONS_MAX ≤ vec_capacity made.new)) }
{
    events.reserve(1)?;
    made.reserve(LINE_ACTIONS_MAX)?;
    Ok(())
}

// How many batches the job names before the round. It is counted once.
fn first_of(first: &mut Option<usize>, job: &LoadedJob, round: u32) -> usize
    requires loaded { IsLoaded job.now }
    requires round { (1 ≤ round) × (round ≤ length job.now.job.rounds) }
    requires known { IfSome first.old (λ at. at ≡ first_before job.now round) }
    ensures known { IfSome first.new (λ at. at ≡ first_before job.now round) }
    ensures counted { result ≡ first_before job.now round }
{
    match *first {
        Some(known) => known,
        None => {
            let counted = first_file(job, round);
            *first = Some(counted);
            counted
        }
    }
}

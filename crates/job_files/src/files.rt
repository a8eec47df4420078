//! The files of a job that were loaded so far.
ghost use Rattle.std.specs.Prelude.{◌≡◌, ◌≤◌, [], ◌∷◌, IfErr, OnOk};
ghost use Rattle.tc_base.specs.Outside.{AsksFor};
ghost use Rattle.job_files.specs.Named.{JobFile, AreNames, batch_files, capture_files, round_files};
ghost use Rattle.job_files.specs.Named.{rounds_files};
ghost use Rattle.job_files.specs.Inputs.{names_of};
ghost use Rattle.job_files.specs.Growing.{nothing, Grows, AddFails};

use crate::inputs::{load_batch, load_capture};
use crate::names::text_of;
use batch_run::COMMANDS_MAX;
use job_lines::{BatchName, CaptureName, Job, Round};
use lawful_runs::{Captures, LoadedJob};
use pcap_io::Capture;
use std::alloc::Global;
use std::marker::Model;
use tc_base::{Bytes, Files, Shelf};
use tool_words::Status;
use walk_ends::PACKETS_MAX;

/// Batches and captures, each in the order in which they came, and how many commands and packets they have.
#[derive(Drop)]
pub struct LoadedFiles {
    batches: Vec<Bytes>,
    captures: Vec<Capture>,
    commands: u32,
    packets: usize,
}

impl Model for LoadedFiles {
    ghost use Rattle.job_files.specs.Loaded.{Loaded, IsCounted};

    ghost Value = { Loaded };

    ghost view = { λ l. record { batches = l.batches.items; captures = l.captures.items } };

    ghost invariant = { λ l. IsCounted l.batches.items l.captures.items l.commands l.packets };
}

impl LoadedFiles {
    pub(crate) fn new(alloc: Global) -> Self
        ensures { result ≡ nothing }
    {
        LoadedFiles {
            batches: Vec::new(alloc),
            captures: Vec::new(alloc),
            commands: 0,
            packets: 0,
        }
    }

    // Adds the batch under a name.
    fn add_batch<S: Shelf>(
        &mut self,
        alloc: Global,
        shelf: &mut S,
        name: &[u8],
    ) -> Result<(), Status>
        requires { AreNames (JobFile.Batch name.now ∷ []) }
        ensures done { OnOk result
            (Grows (S.held shelf.old) self.old (JobFile.Batch name.now ∷ []) self.new) }
        ensures cause { IfErr result (AddFails S.held S.read_faults S.failed_name shelf.old shelf.new self.old
            (JobFile.Batch name.now ∷ [])) }
        ensures held { S.held shelf.new ≡ S.held shelf.old }
        ensures later { S.read_faults shelf.old ≤ S.read_faults shelf.new }
        ensures failed_name { OnOk result (S.failed_name shelf.new ≡ S.failed_name shelf.old) }
        ensures write_faults { S.write_faults shelf.new ≡ S.write_faults shelf.old }
        ensures fetched { AsksFor (S.fetched shelf.old) (S.fetched shelf.new) (name.now ∷ []) result }
        ensures put_names { S.put_names shelf.new ≡ S.put_names shelf.old }
    {
        let batch = load_batch(alloc, shelf, text_of(name), COMMANDS_MAX - self.commands)?;
        self.batches.push(batch.bytes)?;
        self.commands += batch.commands;
        Ok(())
    }

    // Adds the capture under a name.
    fn add_capture<S: Shelf>(
        &mut self,
        alloc: Global,
        shelf: &mut S,
        name: &[u8],
    ) -> Result<(), Status>
        requires { AreNames (JobFile.Capture name.now ∷ []) }
        ensures done { OnOk result
            (Grows (S.held shelf.old) self.old (JobFile.Capture name.now ∷ []) self.new) }
        ensures cause { IfErr result (AddFails S.held S.read_faults S.failed_name shelf.old shelf.new self.old
            (JobFile.Capture name.now ∷ [])) }
        ensures held { S.held shelf.new ≡ S.held shelf.old }
        ensures later { S.read_faults shelf.old ≤ S.read_faults shelf.new }
        ensures failed_name { OnOk result (S.failed_name shelf.new ≡ S.failed_name shelf.old) }
        ensures write_faults { S.write_faults shelf.new ≡ S.write_faults shelf.old }
        ensures fetched { AsksFor (S.fetched shelf.old) (S.fetched shelf.new) (name.now ∷ []) result }
        ensures put_names { S.put_names shelf.new ≡ S.put_names shelf.old }
    {
        let capture = load_capture(alloc, shelf, text_of(name), PACKETS_MAX - self.packets)?;
        let packets = capture.packets.len();
        self.captures.push(capture)?;
        self.packets += packets;
        Ok(())
    }

    // Adds the batches of a round.
    fn add_batches<S: Shelf>(
        &mut self,
        alloc: Global,
        shelf: &mut S,
        batches: &[BatchName],
    ) -> Result<(), Status>
        requires { AreNames (batch_files batches.now) }
        ensures done { OnOk result (Grows (S.held shelf.old) self.old (batch_files batches.now) self.new) }
        ensures cause { IfErr result (AddFails S.held S.read_faults S.failed_name shelf.old shelf.new self.old
            (batch_files batches.now)) }
        ensures held { S.held shelf.new ≡ S.held shelf.old }
        ensures later { S.read_faults shelf.old ≤ S.read_faults shelf.new }
        ensures failed_name { OnOk result (S.failed_name shelf.new ≡ S.failed_name shelf.old) }
        ensures write_faults { S.write_faults shelf.new ≡ S.write_faults shelf.old }
        ensures fetched { AsksFor (S.fetched shelf.old) (S.fetched shelf.new) (names_of (batch_files batches.now)) result }
        ensures put_names { S.put_names shelf.new ≡ S.put_names shelf.old }
    {
        for batch in batches {
            self.add_batch(alloc, shelf, batch.name.as_slice())?;
        }
        Ok(())
    }

    // Adds the capture of a round, where it has one.
    fn add_captures<S: Shelf>(
        &mut self,
        alloc: Global,
        shelf: &mut S,
        capture: &Option<CaptureName>,
    ) -> Result<(), Status>
        requires { AreNames (capture_files capture.now) }
        ensures done { OnOk result (Grows (S.held shelf.old) self.old (capture_files capture.now) self.new) }
        ensures cause { IfErr result (AddFails S.held S.read_faults S.failed_name shelf.old shelf.new self.old
            (capture_files capture.now)) }
        ensures held { S.held shelf.new ≡ S.held shelf.old }
        ensures later { S.read_faults shelf.old ≤ S.read_faults shelf.new }
        ensures failed_name { OnOk result (S.failed_name shelf.new ≡ S.failed_name shelf.old) }
        ensures write_faults { S.write_faults shelf.new ≡ S.write_faults shelf.old }
        ensures fetched { AsksFor (S.fetched shelf.old) (S.fetched shelf.new) (names_of (capture_files capture.now)) result }
        ensures put_names { S.put_names shelf.new ≡ S.put_names shelf.old }
    {
        match capture {
            None => Ok(()),
            Some(capture) => self.add_capture(alloc, shelf, capture.name.as_slice()),
        }
    }

    // Adds the files of a round.
    fn add_round<S: Shelf>(
        &mut self,
        alloc: Global,
        shelf: &mut S,
        round: &Round,
    ) -> Result<(), Status>
        requires { AreNames (round_files round.now) }
        ensures done { OnOk result (Grows (S.held shelf.old) self.old (round_files round.now) self.new) }
        ensures cause { IfErr result (AddFails S.held S.read_faults S.failed_name shelf.old shelf.new self.old
            (round_files round.now)) }
        ensures held { S.held shelf.new ≡ S.held shelf.old }
        ensures later { S.read_faults shelf.old ≤ S.read_faults shelf.new }
        ensures failed_name { OnOk result (S.failed_name shelf.new ≡ S.failed_name shelf.old) }
        ensures write_faults { S.write_faults shelf.new ≡ S.write_faults shelf.old }
        ensures fetched { AsksFor (S.fetched shelf.old) (S.fetched shelf.new) (names_of (round_files round.now)) result }
        ensures put_names { S.put_names shelf.new ≡ S.put_names shelf.old }
    {
        self.add_batches(alloc, shelf, round.batches.as_slice())?;
        self.add_captures(alloc, shelf, &round.capture)
    }

    /// Adds the files of rounds, in the order in which the rounds name them.
    pub(crate) fn add_rounds<S: Shelf>(
        &mut self,
        alloc: Global,
        shelf: &mut S,
        rounds: &[Round],
    ) -> Result<(), Status>
        requires { AreNames (rounds_files rounds.now) }
        ensures done { OnOk result (Grows (S.held shelf.old) self.old (rounds_files rounds.now) self.new) }
        ensures cause { IfErr result (AddFails S.held S.read_faults S.failed_name shelf.old shelf.new self.old
            (rounds_files rounds.now)) }
        ensures held { S.held shelf.new ≡ S.held shelf.old }
        ensures later { S.read_faults shelf.old ≤ S.read_faults shelf.new }
        ensures failed_name { OnOk result (S.failed_name shelf.new ≡ S.failed_name shelf.old) }
        ensures write_faults { S.write_faults shelf.new ≡ S.write_faults shelf.old }
        ensures fetched { AsksFor (S.fetched shelf.old) (S.fetched shelf.new) (names_of (rounds_files rounds.now)) result }
        ensures put_names { S.put_names shelf.new ≡ S.put_names shelf.old }
    {
        for round in rounds {
            self.add_round(alloc, shelf, round)?;
        }
        Ok(())
    }

    /// The job whose files these are.
    pub(crate) fn of(self, job: Job) -> LoadedJob
        ensures { result ≡ record { job = job; batches = self.batches; captures = self.captures } }
    {
        LoadedJob {
            job,
            batches: Files::from_vec(self.batches),
            captures: Captures::from_vec(self.captures),
        }
    }
}

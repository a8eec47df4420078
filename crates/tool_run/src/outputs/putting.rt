//! Putting the outputs of a run.
ghost use Rattle.std.specs.Prelude.{◌≡◌, ◌≤◌, drop, IfOk, IfErr, OnOk};
ghost use Rattle.lawful_runs.specs.Given.{IsLoaded, capture_count};
ghost use Rattle.lawful_runs.specs.Lawful.{IsLawfulRun};
ghost use Rattle.tool_run.specs.OfOutputs.Outputs.{output_of, outputs_from, outputs_of};
ghost use Rattle.tc_base.specs.Outside.{AsksFor, AppendsUpTo};
ghost use Rattle.tool_run.specs.Asks.{output_name, output_names};
ghost use Rattle.tool_run.specs.Parts.{PutFails};
ghost use Rattle.tool_run.specs.OfOutputs.Puts.{ArePut, ArePutUpTo};
ghost use Rattle.tool_run.specs.OfOutputs.Ready.{IsReady, AreReady};

use crate::outputs::passing::passed_of;
use job_files::text_of;
use job_lines::Round;
use lawful_runs::LoadedJob;
use pcap_io::Capture;
use run_report::{RoundRecord, RunRecord};
use std::alloc::Global;
use tc_base::Shelf;
use tool_words::Status;

/// Puts the outputs of a lawful run of a job, in the order of its rounds. Where two have one name, the later
/// stands.
///
/// However it ends, the outputs were put in order up to some one, and no name but the next one's may hold
/// something else. `WriteFault`: the shelf could not write. `NoMemory`: memory was refused.
pub fn put_outputs<S: Shelf>(
    alloc: Global,
    loaded: &LoadedJob,
    run: &RunRecord,
    shelf: &mut S,
) -> Result<(), Status>
    requires loaded { IsLoaded loaded.now }
    requires run { IsLawfulRun loaded.now run.now }
    ensures put { OnOk result (ArePut (S.held shelf.old) (S.held shelf.new) (outputs_of loaded.now run.now)) }
    ensures up_to { ArePutUpTo (S.held shelf.old) (S.held shelf.new) (outputs_of loaded.now run.now) }
    ensures later { S.write_faults shelf.old ≤ S.write_faults shelf.new }
    ensures cause { IfErr result (PutFails S.write_faults shelf.old shelf.new) }
    ensures fetched { S.fetched shelf.new ≡ S.fetched shelf.old }
    ensures put_names { AppendsUpTo (S.put_names shelf.old) (S.put_names shelf.new)
        (output_names loaded.now.job.rounds) }
{
    let rounds = loaded.job.rounds.as_slice();
    let captures = loaded.captures.as_slice();
    put_rounds(alloc, rounds, captures, run.rounds.as_slice(), shelf)
}

// Puts the outputs of rounds, of which each takes its capture, where it has one, from those that are left.
fn put_rounds<S: Shelf>(
    alloc: Global,
    rounds: &[Round],
    captures: &[Capture],
    records: &[RoundRecord],
    shelf: &mut S,
) -> Result<(), Status>
    requires { AreReady rounds.now captures.now records.now }
    ensures put { OnOk result (ArePut (S.held shelf.old) (S.held shelf.new)
        (outputs_from rounds.now captures.now records.now)) }
    ensures up_to { ArePutUpTo (S.held shelf.old) (S.held shelf.new)
        (outputs_from rounds.now captures.now records.now) }
    ensures later { S.write_faults shelf.old ≤ S.write_faults shelf.new }
    ensures cause { IfErr result (PutFails S.write_faults shelf.old shelf.new) }
    ensures fetched { S.fetched shelf.new ≡ S.fetched shelf.old }
    ensures put_names { AppendsUpTo (S.put_names shelf.old) (S.put_names shelf.new) (output_names rounds.now) }
{
    let mut left = captures;
    for index in 0..rounds.len() {
        left = put_round(alloc, &rounds[index], left, &records[index], shelf)?;
    }
    Ok(())
}

// Puts the output of a round, where it has a capture: the first of those that are left. Answers those that
// are left then.
fn put_round<'a, S: Shelf>(
    alloc: Global,
    round: &Round,
    captures: &'a [Capture],
    it: &RoundRecord,
    shelf: &mut S,
) -> Result<&'a [Capture], Status>
    requires { IsReady round.now.capture captures.now it.now }
    ensures put { OnOk result (ArePut (S.held shelf.old) (S.held shelf.new)
        (output_of round.now.capture captures.now it.now)) }
    ensures left { IfOk result (λ left. left.now ≡ drop (capture_count round.now.capture) captures.now) }
    ensures up_to { ArePutUpTo (S.held shelf.old) (S.held shelf.new)
        (output_of round.now.capture captures.now it.now) }
    ensures later { S.write_faults shelf.old ≤ S.write_faults shelf.new }
    ensures cause { IfErr result (PutFails S.write_faults shelf.old shelf.new) }
    ensures fetched { S.fetched shelf.new ≡ S.fetched shelf.old }
    ensures put_names { AsksFor (S.put_names shelf.old) (S.put_names shelf.new) (output_name round.now.capture)
        result }
{
    match &round.capture {
        None => Ok(captures),
        Some(name) => {
            let output = passed_of(alloc, &captures[0], &it.outcomes)?;
            shelf.put_pieces(text_of(name.out.as_slice()), &output)?;
            Ok(&captures[1..])
        }
    }
}

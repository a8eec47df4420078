//! The command `gen`, behind the run of its job.
ghost use Rattle.gen_files.specs.declared.limits.TheConstants.{GEN_MAX};
ghost use Rattle.std.specs.Prelude.{◌≡◌, ◌⊎◌, ◌≤◌, ◌++◌, string_bytes, IfOk, IfErr, OnOk, [], ◌∷◌};
ghost use Rattle.batch_run.specs.Runs.{Ran};
ghost use Rattle.lawful_runs.specs.Given.{IsLoaded};
ghost use Rattle.lawful_runs.specs.Lawful.{IsLawfulRun};
ghost use Rattle.tool_run.specs.OfGenerated.Generated.{IsRunOf, IsGenerated};
ghost use Rattle.tool_run.specs.Workloads.{workload_of};
ghost use Rattle.tc_base.specs.Outside.{Appended, AppendsUpTo, OthersStay, Stands};
ghost use Rattle.tool_words.specs.Command.{Gen};
ghost use Rattle.tool_words.specs.Ends.{status_after, IsAllDone};
ghost use Rattle.tc_base.specs.Outside.{AsksFor};
ghost use Rattle.tool_run.specs.Asks.{made_names};
ghost use Rattle.tool_run.specs.Causes.{CausedTo};
ghost use Rattle.tool_run.specs.Made.{AllStand, AllElseStay, PutUpTo, files_in};
ghost use Rattle.tool_run.specs.Parts.{PutFails, DeliveryFails};
ghost use Rattle.tool_run.specs.Delivered.{Made, LeavesAllUnlessRun, MadeSoFar};

use crate::generated::Generated;
use crate::outputs::passed_of;
use crate::text::write_text;
use crate::workloads::closing_text;
use gen_files::{gen_batch, gen_job};
use lawful_runs::LoadedJob;
use pcap_io::write;
use run_report::{RunRecord, summary_of};
use std::alloc::{AllocError, Global};
use tc_base::{NoMemory, Shelf, Sink};
use tool_words::Status;

// A workload with what a lawful run of its job came to.
fn generated(
    alloc: Global,
    count: u32,
    front: &str,
    loaded: &LoadedJob,
    run: &RunRecord,
) -> Result<Generated, NoMemory>
    requires some { 1 ≤ count }
    requires few { count ≤ GEN_MAX }
    requires made { loaded.now ≡ workload_of count }
    requires loaded { IsLoaded loaded.now }
    requires run { IsLawfulRun loaded.now run.now }
    ensures { IfOk result (λ made. (ran : Ran) × IsRunOf count ran × IsGenerated count front.now ran made) }
{
    let capture = &loaded.captures.as_slice()[0];
    let rounds = run.rounds.as_slice();
    let summary = summary_of(rounds);
    Ok(Generated {
        batch: gen_batch(alloc, count)?,
        capture: write(alloc, capture)?,
        job: gen_job(alloc, front)?,
        output: passed_of(alloc, capture, &rounds[1].outcomes)?.joined()?,
        text: closing_text(alloc, run, &summary)?,
        refused: summary.refused > 0,
    })
}

// The name of a file.
fn name_of(alloc: Global, front: &str, ending: &str) -> Result<String, AllocError>
    ensures { IfOk result (λ name. string_bytes name ≡ front.now ++ ending.now) }
{
    let mut name = String::from_str(alloc, front)?;
    name.push_str(ending)?;
    Ok(name)
}

// Puts one file.
fn put_file<S: Shelf>(
    alloc: Global,
    front: &str,
    ending: &str,
    bytes: &[u8],
    shelf: &mut S,
) -> Result<(), Status>
    ensures stands { OnOk result (Stands (S.held shelf.new) (front.now ++ ending.now) bytes.now) }
    ensures others { OthersStay (S.held shelf.old) (S.held shelf.new) (front.now ++ ending.now) }
    ensures later { S.write_faults shelf.old ≤ S.write_faults shelf.new }
    ensures cause { IfErr result (PutFails S.write_faults shelf.old shelf.new) }
    ensures fetched { S.fetched shelf.new ≡ S.fetched shelf.old }
    ensures put_names { AsksFor (S.put_names shelf.old) (S.put_names shelf.new)
        ((front.now ++ ending.now) ∷ []) result }
{
    let name = name_of(alloc, front, ending)?;
    Ok(shelf.put(name.as_str(), bytes)?)
}

// Puts the four files, in the order in which the job's run needs them.
fn put_all<S: Shelf>(
    alloc: Global,
    front: &str,
    made: &Generated,
    shelf: &mut S,
) -> Result<(), Status>
    ensures all { OnOk result (AllStand (S.held shelf.new) (files_in front.now made.now)) }
    ensures others { OnOk result (AllElseStay (S.held shelf.old) (S.held shelf.new)
        (files_in front.now made.now)) }
    ensures up_to { PutUpTo (S.held shelf.old) (S.held shelf.new) (files_in front.now made.now) }
    ensures cause { IfErr result (PutFails S.write_faults shelf.old shelf.new) }
    ensures fetched { S.fetched shelf.new ≡ S.fetched shelf.old }
    ensures put_names { AppendsUpTo (S.put_names shelf.old) (S.put_names shelf.new) (made_names front.now) }
{
    put_file(alloc, front, ".tc", &made.batch, shelf)?;
    put_file(alloc, front, ".pcap", &made.capture, shelf)?;
    put_file(alloc, front, ".job", &made.job, shelf)?;
    put_file(alloc, front, ".out.pcap", &made.output, shelf)
}

// Puts the files, and writes the text.
fn deliver<S: Shelf, O: Sink>(
    alloc: Global,
    front: &str,
    made: &Generated,
    shelf: &mut S,
    out: &mut O,
) -> Result<(), Status>
    ensures all { OnOk result (AllStand (S.held shelf.new) (files_in front.now made.now)) }
    ensures others { OnOk result (AllElseStay (S.held shelf.old) (S.held shelf.new)
        (files_in front.now made.now)) }
    ensures wrote { OnOk result (Appended (O.written out.old) (O.written out.new) made.now.text.items) }
    ensures up_to { PutUpTo (S.held shelf.old) (S.held shelf.new) (files_in front.now made.now) }
    ensures front { (O.written out.new ≡ O.written out.old)
        ⊎ (AllStand (S.held shelf.new) (files_in front.now made.now)
        × AppendsUpTo (O.written out.old) (O.written out.new) made.now.text.items) }
    ensures cause { IfErr result (DeliveryFails S.write_faults O.faults shelf.old shelf.new out.old out.new) }
    ensures fetched { S.fetched shelf.new ≡ S.fetched shelf.old }
    ensures put_names { AppendsUpTo (S.put_names shelf.old) (S.put_names shelf.new) (made_names front.now) }
{
    put_all(alloc, front, made, shelf)?;
    Ok(write_text(&made.text, out)?)
}

/// Puts the files of a workload of so many filters, with the output of a lawful run of its job, under names
/// that begin with `front`, and writes the counters and the summary of the run. Answers whether a line was
/// refused.
pub fn deliver_workload<S: Shelf, O: Sink>(
    alloc: Global,
    count: u32,
    front: &str,
    loaded: &LoadedJob,
    run: &RunRecord,
    shelf: &mut S,
    out: &mut O,
) -> Result<bool, Status>
    requires some { 1 ≤ count }
    requires few { count ≤ GEN_MAX }
    requires made { loaded.now ≡ workload_of count }
    requires loaded { IsLoaded loaded.now }
    requires run { IsLawfulRun loaded.now run.now }
    ensures done { IfOk result (λ refused. Made (S.held shelf.old) (S.held shelf.new) (O.written out.old)
        (O.written out.new) count front.now (status_after refused)) }
    ensures cause { IfErr result (CausedTo S.held S.read_faults S.failed_name S.write_faults O.faults
        shelf.old shelf.new out.old out.new (Gen count front.now)) }
    ensures not_done { IfErr result (λ status. IsAllDone status → ⊥) }
    ensures nothing { IfErr result (LeavesAllUnlessRun (S.held shelf.old) (S.held shelf.new)
        (O.written out.old) (O.written out.new)) }
    ensures so_far { MadeSoFar (S.held shelf.old) (S.held shelf.new) (O.written out.old) (O.written out.new)
        count front.now }
    ensures fetched { S.fetched shelf.new ≡ S.fetched shelf.old }
    ensures put_names { AppendsUpTo (S.put_names shelf.old) (S.put_names shelf.new) (made_names front.now) }
{
    let made = generated(alloc, count, front, loaded, run)?;
    deliver(alloc, front, &made, shelf, out)?;
    Ok(made.refused)
}

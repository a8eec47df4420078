//! All that `gen` makes, and its capture.
ghost use Rattle.gen_files.specs.declared.limits.TheConstants.{GEN_MAX};
ghost use Rattle.std.specs.Prelude.{◌≡◌, ◌≤◌, ℕ, length, IfOk};
ghost use Rattle.pcap_io.specs.Captures.{AreShort};
ghost use Rattle.batch_run.specs.declared.limit.TheConstants.{COMMANDS_MAX};
ghost use Rattle.batch_run.specs.Commands.{commands_of};
ghost use Rattle.gen_files.specs.Generated.{batch_text};
ghost use Rattle.tool_run.specs.OfGenerated.Generated.{capture_of};

use gen_files::gen_packets;
use pcap_io::Capture;
use std::alloc::Global;
use tc_base::NoMemory;

/// A workload: its files, and what its job comes to.
#[derive(Drop)]
pub struct Generated {
    /// The lines of the batch.
    pub batch: Vec<u8>,
    /// The bytes of the capture.
    pub capture: Vec<u8>,
    /// The lines of the job.
    pub job: Vec<u8>,
    /// The bytes of the capture that the job's run puts.
    pub output: Vec<u8>,
    /// The counters of the run, the summary, `end`.
    pub text: Vec<u8>,
    /// Whether a line of the batch was refused.
    pub refused: bool,
}

/// A batch for at most 4,096 filters has far fewer commands than a run may have. An empty function that
/// carries this law.
pub fn few_commands()
    ensures { (filters : ℕ) → filters ≤ GEN_MAX → length (commands_of (batch_text filters)) ≤ COMMANDS_MAX }
{}

/// The capture that meets each filter of the generated batch twelve times.
///
/// `NoMemory`: memory was refused.
pub fn capture_of(alloc: Global, filters: u32) -> Result<Capture, NoMemory>
    requires some { 1 ≤ filters }
    requires few { filters ≤ GEN_MAX }
    ensures is { IfOk result (λ capture. capture ≡ capture_of filters) }
    ensures short { IfOk result (λ capture. AreShort capture.packets) }
{
    Ok(Capture {
        big: false,
        nanos: false,
        packets: gen_packets(alloc, filters)?,
    })
}

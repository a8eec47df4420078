//! The packets of a round.
ghost use Rattle.std.specs.Prelude.{◌≡◌, ◌≤◌, ◌-◌, ◌+◌, [], length, take, slice_get, Some};
ghost use Rattle.pcap_io.specs.Captures.{AreShort};
ghost use Rattle.lawful_runs.specs.Given.{GivenRound, IsLoaded, given_rounds, captures_named};
ghost use Rattle.worker_rounds.specs.Worked.{arrivals_of};
ghost use Rattle.job_rounds.specs.Left.{packets_left};

use pcap_io::Packets;
use round_terms::LoadedJob;
use tc_base::Hook;

/// The packets of a round of a job.
#[derive(Clone, Copy, Drop)]
pub(crate) struct RoundPackets<'a> {
    pub hook: Hook,
    pub packets: &'a Packets,
    /// How many captures they are of: one, or none.
    pub captures: usize,
}

/// The packets of a round, before which the job names so many captures: those of its capture, or none.
pub(crate) fn packets_of<'a>(
    job: &'a LoadedJob,
    number: u32,
    before: usize,
    none: &'a Packets,
) -> RoundPackets<'a>
    requires loaded { IsLoaded job.now }
    requires number { (1 ≤ number) × (number ≤ length job.now.job.rounds) }
    requires before { before ≡ captures_named (take (number - 1) job.now.job.rounds) }
    requires none { none.now ≡ [] }
    ensures captures { before + result.captures ≡ captures_named (take number job.now.job.rounds) }
    ensures arrivals { (given : GivenRound) → slice_get (given_rounds job.now) (number - 1) ≡ Some given
        → given.arrivals ≡ arrivals_of result.hook result.packets.now }
    ensures short { AreShort result.packets.now }
    ensures left { packets_left job.now (number - 1) ≡ length result.packets.now + packets_left job.now number }
{
    match &job.job.rounds.as_slice()[number as usize - 1].capture {
        Some(capture) => RoundPackets {
            hook: capture.hook,
            packets: &job.captures.as_slice()[before].packets,
            captures: 1,
        },
        None => RoundPackets {
            hook: Hook::Ingress,
            packets: none,
            captures: 0,
        },
    }
}

//! A job with the contents of its files.
ghost use Rattle.std.specs.Prelude.{◌≡◌};

use job_lines::Job;
use pcap_io::Capture;
use std::marker::Model;
use tc_base::Files;

/// The captures of a job, in the order in which it names them.
#[derive(Drop)]
pub struct Captures {
    items: Vec<Capture>,
}

impl Model for Captures {
    ghost use Rattle.std.specs.Prelude.{List};
    ghost use Rattle.pcap_io.specs.declared.capture.Capture.{Capture};

    ghost Value = { List Capture };

    ghost view = { λ c. c.items.items };
}

impl Captures {
    /// The list of these items.
    pub fn from_vec(items: Vec<Capture>) -> Self
        ensures { result ≡ items.items }
    {
        Captures { items }
    }

    /// The items, in order.
    pub fn as_slice(&self) -> &[Capture]
        ensures { result.now ≡ self.now }
    {
        &self.items
    }
}

/// A job, and what its files hold: batches and captures each in the order in which the job names them, round
/// by round. A file that is named twice stands there twice.
#[derive(Drop)]
pub struct LoadedJob {
    pub job: Job,
    pub batches: Files,
    pub captures: Captures,
}

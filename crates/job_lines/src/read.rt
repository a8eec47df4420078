//! Reading a job file.
ghost use Rattle.std.specs.Prelude.{◌≡◌, IfOk, IfErr};
ghost use Rattle.job_lines.specs.Files.{IsJobOf, IsFaultOf};

use crate::draft::Draft;
use crate::fault::{JobFault, JobKind};
use crate::job::Job;
use std::alloc::Global;
use tc_words::lines;

/// The job that a file says, or where it first fails to be one. The format is this project's own:
///
/// ```text
/// clsact job 1
/// workers W
/// controls C
/// { round
///   { batch K NAME [ force ] }
///   [ capture HOOK NAME OUT ] }
/// end
/// ```
///
/// Lines, words and comments are cut as those of a batch file. W is 1 to 8, C is 1 to 4, and K is 1 to C and
/// rises in a round; each stands in decimal digits without a needless 0. HOOK is `ingress` or `egress`. A
/// name is a word of printed ASCII. There are at most 1,024 rounds. Blank lines and comments may stand
/// anywhere; they are counted, and say nothing.
///
/// `JobSyntax`: the first line such that no job's lines begin with the lines up to it, or the number of the
/// file's lines plus 1, where lines are missing. `TooManyRounds`: the 1,025th line `round`. The first fault
/// in the file counts. `NoMemory`: memory was refused.
pub fn read_job(alloc: Global, bytes: &[u8]) -> Result<Job, JobFault>
    ensures job { IfOk result (IsJobOf bytes.now) }
    ensures fault { IfErr result (IsFaultOf bytes.now) }
{
    let lines = lines(alloc, bytes)?;
    let mut draft = Draft::new(alloc);
    for (index, line) in lines.iter().enumerate() {
        draft.read_line(alloc, index as u64 + 1, line)?;
    }
    draft.job().ok_or(JobFault::Form {
        line: lines.len() as u64 + 1,
        kind: JobKind::JobSyntax,
    })
}

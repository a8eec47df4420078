//! Job files, and the lines of their faults.
use crate::same::same;
use job_lines::{BatchName, CaptureName, Job, JobFault, JobKind, Round, read_job};
use std::alloc::{AllocError, Global};
use tc_base::Hook;

const HEAD: &[u8] = b"clsact job 1\nworkers 1\ncontrols 2\n";

// The line of a file's fault, or 0 where it is a job.
fn bad_line(alloc: Global, file: &[u8]) -> u64 {
    match read_job(alloc, file) {
        Ok(_) => 0,
        Err(JobFault::Form { line, .. }) => line,
        Err(JobFault::NoMemory(_)) => u64::MAX,
    }
}

// Files with the lines of their faults.
const FILES: &[(&[u8], u64)] = &[
    (b"", 1),
    (b"clsact job 2\n", 1),
    (b"clsact job 1\nworkers 9\n", 2),
    (b"clsact job 1\nworkers 0\n", 2),
    (b"clsact job 1\nworkers 1\ncontrols 1\n", 4),
    (b"# a job\nclsact job 1\n\nworkers 01\n", 4),
];

// The same, behind the three lines of the head.
const RESTS: &[(&[u8], u64)] = &[
    (b"end\n\n# over\n", 0),
    (b"end\n\n# over\nround\n", 7),
    (b"round\nbatch 2 a\nbatch 1 b\nend\n", 6),
    (b"round\nbatch 1 a\nbatch 1 b\nend\n", 6),
    (b"round\nbatch 3 a\nend\n", 5),
    (b"round\nbatch 0 a\nend\n", 5),
    (b"round\nbatch 01 a\nend\n", 5),
    (b"round\nbatch 0x1 a\nend\n", 5),
    (b"round\nbatch 1 a b\nend\n", 5),
    (b"round\nbatch 1 \x7f\nend\n", 5),
    (b"round\ncapture ingress a b\nbatch 1 a\nend\n", 6),
    (b"batch 1 a\nend\n", 4),
    (b"round\nround\n", 6),
];

// The line of the fault of a file with this behind the head.
fn bad_line_behind(alloc: Global, rest: &[u8]) -> Result<u64, AllocError> {
    let mut file = HEAD.to_vec(alloc)?;
    file.extend_from_slice(rest)?;
    Ok(bad_line(alloc, &file))
}

#[test]
fn lines_of_faults(rt: HostRuntime) -> Result<(), AllocError> {
    for (file, line) in FILES {
        same(&rt, bad_line(rt.alloc(), file), *line);
    }
    for (rest, line) in RESTS {
        same(&rt, bad_line_behind(rt.alloc(), rest)?, *line);
    }
    Ok(())
}

// So many rounds, without an end.
fn rounds(alloc: Global, count: u32) -> Result<Vec<u8>, AllocError> {
    let mut file = HEAD.to_vec(alloc)?;
    for _ in 0..count {
        file.extend_from_slice(b"round\n")?;
    }
    Ok(file)
}

fn fault_of(alloc: Global, file: &[u8]) -> Option<JobFault> {
    read_job(alloc, file).err()
}

// 1,024 rounds, and then one more.
#[test]
fn too_many_rounds(rt: HostRuntime) -> Result<(), AllocError> {
    same(&rt, bad_line(rt.alloc(), &rounds(rt.alloc(), 1024)?), 1028);
    let fault = JobFault::Form {
        line: 1028,
        kind: JobKind::TooManyRounds,
    };
    let found = fault_of(rt.alloc(), &rounds(rt.alloc(), 1025)?);
    same(&rt, found, Some(fault));
    Ok(())
}

fn is_batch(batch: &BatchName, control: u32, name: &[u8], force: bool) -> bool {
    batch.control == control && batch.name.as_slice() == name && batch.force == force
}

fn is_capture(capture: &CaptureName, hook: Hook, name: &[u8], out: &[u8]) -> bool {
    capture.hook == hook && capture.name.as_slice() == name && capture.out.as_slice() == out
}

fn is_first_round(round: &Round) -> bool {
    let [one, two] = round.batches.as_slice() else {
        return false;
    };
    let Some(capture) = &round.capture else {
        return false;
    };
    is_batch(one, 1, b"force", false)
        && is_batch(two, 2, b"b", true)
        && is_capture(capture, Hook::Egress, b"c", b"d")
}

fn is_job(job: &Job) -> bool {
    let [first, second] = job.rounds.as_slice() else {
        return false;
    };
    job.workers == 8
        && job.controls == 4
        && is_first_round(first)
        && second.batches.as_slice().is_empty()
}

#[test]
fn parts_of_a_job(rt: HostRuntime) -> Result<(), JobFault> {
    let job = read_job(
        rt.alloc(),
        b"clsact job 1\nworkers 8\ncontrols 4\nround # one\n\tbatch 1 force\r\nbatch 2 b force\n\
        capture egress c d\nround\nend",
    )?;
    assert!(rt; is_job(&job));
    Ok(())
}

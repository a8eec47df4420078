//! The draft of a job, one line on.
//!
//! Each step answers whether a job goes on with the line. Where none does, the draft means nothing. A part of
//! the draft is begun where the file comes to it.
ghost use Rattle.std.specs.Prelude.{◌≡◌, map, Some, None, IfOk, IfErr, if◌then◌else◌};
ghost use Rattle.tc_words.specs.Lines.{words_of};
ghost use Rattle.job_lines.specs.States.{State, state_of, whole_job};
ghost use Rattle.job_lines.specs.Steps.{after_round, after_batches, in_round, next_state, after_line};
ghost use Rattle.job_lines.specs.Steps.{IsWithin, LineFails};

use crate::batches::read_batch;
use crate::captures::read_capture;
use crate::counts::read_count;
use crate::draft::{Draft, Stage};
use crate::fault::{JobFault, JobKind};
use crate::words::{are_texts, words};
use std::alloc::{AllocError, Global};

const MOST_WORKERS: u32 = 8;

const MOST_CONTROLS: u32 = 4;

const MOST_ROUNDS: usize = 1024;

impl Draft {
    fn read_header(&mut self, words: &[&[u8]]) -> bool
        ensures { (if result then Some (state_of self.new) else None)
            ≡ next_state State.Begun (map (λ word. word.now) words.now) }
    {
        self.stage = Stage::Headed;
        are_texts(words, &["clsact", "job", "1"])
    }

    fn read_workers(&mut self, words: &[&[u8]]) -> bool
        ensures { (if result then Some (state_of self.new) else None)
            ≡ next_state State.Headed (map (λ word. word.now) words.now) }
    {
        let Some(workers) = read_count(words, "workers", MOST_WORKERS) else {
            return false;
        };
        self.workers = workers;
        self.stage = Stage::Staffed;
        true
    }

    fn read_controls(&mut self, alloc: Global, words: &[&[u8]]) -> bool
        ensures { (if result then Some (state_of self.new) else None)
            ≡ next_state (State.Staffed self.old.workers) (map (λ word. word.now) words.now) }
    {
        let Some(controls) = read_count(words, "controls", MOST_CONTROLS) else {
            return false;
        };
        self.controls = controls;
        self.rounds = Vec::new(alloc);
        self.stage = Stage::Ready;
        true
    }

    // Reads the line behind a whole round: the next round, or the end.
    fn read_round(&mut self, alloc: Global, words: &[&[u8]]) -> bool
        ensures { (if result then Some (state_of self.new) else None)
            ≡ after_round (whole_job self.old) (map (λ word. word.now) words.now) }
    {
        if are_texts(words, &["round"]) {
            self.batches = Vec::new(alloc);
            self.stage = Stage::Open(0);
            true
        } else {
            self.stage = Stage::Ended;
            are_texts(words, &["end"])
        }
    }

    // Reads a line behind the batches of a round, where it is no batch itself.
    fn read_capture(&mut self, alloc: Global, words: &[&[u8]]) -> Result<bool, AllocError>
        ensures { IfOk result (λ goes. (if goes then Some (state_of self.new) else None)
            ≡ in_round (whole_job self.old) self.old.batches.items (map (λ word. word.now) words.now) None) }
    {
        match read_capture(alloc, words)? {
            Some(capture) => {
                self.end_round(alloc, Some(capture))?;
                self.stage = Stage::Ready;
                Ok(true)
            }
            None => {
                self.end_round(alloc, None)?;
                Ok(self.read_round(alloc, words))
            }
        }
    }

    // Reads a line in a round, whose last control with a batch is given.
    fn read_batch(&mut self, alloc: Global, last: u32, words: &[&[u8]]) -> Result<bool, AllocError>
        ensures { IfOk result (λ goes. (if goes then Some (state_of self.new) else None)
            ≡ next_state (State.Open (whole_job self.old) self.old.batches.items last)
            (map (λ word. word.now) words.now)) }
    {
        match read_batch(alloc, words, self.controls, last)? {
            Some(batch) => {
                self.stage = Stage::Open(batch.control);
                self.batches.push(batch)?;
                Ok(true)
            }
            None => self.read_capture(alloc, words),
        }
    }

    // Reads a line that has words.
    fn read_words(&mut self, alloc: Global, words: &[&[u8]]) -> Result<bool, AllocError>
        ensures { IfOk result (λ goes. (if goes then Some (state_of self.new) else None)
            ≡ next_state (state_of self.old) (map (λ word. word.now) words.now)) }
    {
        match self.stage {
            Stage::Begun => Ok(self.read_header(words)),
            Stage::Headed => Ok(self.read_workers(words)),
            Stage::Staffed => Ok(self.read_controls(alloc, words)),
            Stage::Ready => Ok(self.read_round(alloc, words)),
            Stage::Open(last) => self.read_batch(alloc, last, words),
            Stage::Ended => Ok(false),
        }
    }

    // Reads a line of this number, which may have no words.
    pub(crate) fn read_line(
        &mut self,
        alloc: Global,
        number: u64,
        line: &[u8],
    ) -> Result<(), JobFault>
        requires { IsWithin (state_of self.old) }
        ensures state { IfOk result (λ _. after_line (state_of self.old) (words_of line.now)
            ≡ Some (state_of self.new)) }
        ensures within { IfOk result (λ _. IsWithin (state_of self.new)) }
        ensures fault { IfErr result (LineFails (state_of self.old) number (words_of line.now)) }
    {
        let words = words(alloc, line)?;
        if words.is_empty() {
            return Ok(());
        }
        let kind = if !self.read_words(alloc, &words)? {
            JobKind::JobSyntax
        } else if self.begun() > MOST_ROUNDS {
            JobKind::TooManyRounds
        } else {
            return Ok(());
        };
        Err(JobFault::Form { line: number, kind })
    }
}

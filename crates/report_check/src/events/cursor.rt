//! How far a report has been gone through.

use crate::reading::next_line;
use tool_words::Reason;

/// A place in a report's bytes, before a line or at the end.
#[derive(Clone, Copy)]
pub struct Cursor {
    /// The byte at which the next line begins.
    pub at: usize,
    /// How many lines stand before it.
    pub line: u64,
    /// Why the report is stuck there. Of one that isn't stuck it means nothing.
    pub reason: Reason,
}

impl Cursor {
    ghost use Rattle.std.specs.Prelude.{◌≡◌, ◌<◌, ◌+◌, ◌^◌, [], List, ℕ, true, false, length, IfSome};
    ghost use Rattle.std.specs.Option.{IfNone};
    ghost use Rattle.lawful_runs.specs.declared.loaded.LoadedJob.{LoadedJob};
    ghost use Rattle.report_laws.specs.Stands.{Stand, Takes};
    ghost use Rattle.report_laws.specs.OfWholePaths.FirstBadLines.{IsOpen};
    ghost use Rattle.tool_words.specs.declared.reason.Reason.TheVariants as reasons;
    ghost use Rattle.report_check.specs.OfEvents.Cursors.{IsWithin, IsNextLine, lines_left};
    ghost use Rattle.report_check.specs.OfEvents.Cursors.{IsAt, IsStuck, IsRefused, IsReasonUnless, MustBe};

    /// Before the first line.
    pub fn start() -> Cursor
        ensures { result ≡ record { at = 0; line = 0; reason = reasons.Cut } }
    {
        Cursor {
            at: 0,
            line: 0,
            reason: Reason::Cut,
        }
    }

    /// The next line, with its 0x0A where it has one; none at the end of the report.
    pub fn next_line(self, report: &[u8]) -> Option<&[u8]>
        requires { IsWithin report.now self }
        ensures none { IfNone result (lines_left report.now self ≡ []) }
        ensures some { IfSome result (λ line. IsNextLine report.now self line.now) }
    {
        match next_line(&report[self.at..]) {
            Some((line, _)) => Some(line),
            None => None,
        }
    }

    // Goes behind the next line.
    fn pass(&mut self, line: &[u8])
        requires at { self.old.at + length line.now < 2 ^ 64 }
        requires line { self.old.line + 1 < 2 ^ 64 }
        ensures { self.new
            ≡ record self.old { at = self.old.at + length line.now; line = self.old.line + 1 } }
    {
        self.at += line.len();
        self.line += 1;
    }

    /// Goes behind the next line where it is this text, and tells whether it was. A text that may come leads
    /// to where the report then stands.
    pub fn take(&mut self, report: &[u8], text: &[u8]) -> bool
        requires { IsWithin report.now self.old }
        ensures within { IsWithin report.now self.new }
        ensures taken { result ≡ true → (loaded : LoadedJob) (stand next : Stand)
            → IsAt loaded report.now self.old stand → Takes loaded stand text.now next
            → IsAt loaded report.now self.new next }
        ensures further { result ≡ true → self.new.line ≡ self.old.line + 1 }
        ensures next { result ≡ true → IsNextLine report.now self.old text.now }
        ensures stays { result ≡ false → self.new ≡ self.old }
        ensures other { result ≡ false → (line : List ℕ) → IsNextLine report.now self.old line
            → line ≡ text.now → ⊥ }
    {
        match self.next_line(report) {
            Some(line) if line == text => {
                self.pass(line);
                true
            }
            _ => false,
        }
    }

    // That reason, or that the report is cut, where no line is left.
    fn reason_there(self, report: &[u8], reason: Reason) -> Reason
        requires { IsWithin report.now self }
        ensures cut { lines_left report.now self ≡ [] → result ≡ reasons.Cut }
        ensures told { (line : List ℕ) → IsNextLine report.now self line → result ≡ reason }
    {
        match self.next_line(report) {
            Some(_) => reason,
            None => Reason::Cut,
        }
    }

    /// Notes that the report is stuck for that reason, or cut, where no line is left.
    pub fn refuse(&mut self, report: &[u8], reason: Reason)
        requires { IsWithin report.now self.old }
        ensures within { IsWithin report.now self.new }
        ensures stays { self.new ≡ record self.old { reason = self.new.reason } }
        ensures stuck { (loaded : LoadedJob) (stand : Stand) → IsAt loaded report.now self.old stand
            → (lines_left report.now self.old ≡ [] → IsOpen stand)
            → IsRefused loaded report.now self.old stand reason → IsStuck loaded report.now self.new }
    {
        self.reason = self.reason_there(report, reason);
    }

    /// Goes behind the next line where it is this text, and tells whether it was. Where it isn't, and no
    /// other may come, the report is stuck for that reason, or cut.
    pub fn demand(&mut self, report: &[u8], text: &[u8], reason: Reason) -> bool
        requires { IsWithin report.now self.old }
        ensures within { IsWithin report.now self.new }
        ensures taken { result ≡ true → (loaded : LoadedJob) (stand next : Stand)
            → IsAt loaded report.now self.old stand → Takes loaded stand text.now next
            → IsAt loaded report.now self.new next }
        ensures further { result ≡ true → self.new.line ≡ self.old.line + 1 }
        ensures next { result ≡ true → IsNextLine report.now self.old text.now }
        ensures stays { result ≡ false → self.new.line ≡ self.old.line }
        ensures stuck { result ≡ false → (loaded : LoadedJob) (stand : Stand)
            → IsAt loaded report.now self.old stand → IsOpen stand
            → MustBe loaded report.now self.old stand text.now
            → IsReasonUnless loaded report.now self.old stand text.now reason
            → IsStuck loaded report.now self.new }
    {
        if self.take(report, text) {
            return true;
        }
        self.refuse(report, reason);
        false
    }
}

//! The line of a packet.
ghost use Rattle.std.specs.Prelude.{◌≡◌, ◌++◌, OnOk};
ghost use Rattle.tool_run.specs.Endings.{ending_of};

use capture_walk::PacketEnd;
use frame_edit::Meta;
use std::alloc::{AllocError, Global};
use walk_rules::Verdict;
use walk_texts::{push_count, push_end};

/// What stands before a packet's number.
const LABEL: &str = "packet ";

/// The line of a packet. It is kept, since the next packet's differs in few bytes: its number is one more,
/// and often it ended as this one did.
#[derive(Drop)]
pub struct PacketLine {
    pub number: u64,
    pub end: PacketEnd,
    pub text: Vec<u8>,
    /// Where the number ends in the text.
    pub digits_end: usize,
}

impl PacketLine {
    ghost use Rattle.std.specs.Prelude.{◌≡◌, ◌+◌, ◌<◌, ◌^◌, true, IfOk, OnOk, if◌then◌else◌};
    ghost use Rattle.tool_run.specs.Endings.{IsLine};

    /// The line of a packet 0 of no byte that passed.
    pub fn new(alloc: Global) -> Result<Self, AllocError>
        ensures line { IfOk result IsLine }
        ensures number { IfOk result (λ line. line.number ≡ 0) }
    {
        let end = PacketEnd {
            verdict: Verdict::Pass,
            length: 0,
            meta: Meta::default(),
        };
        let mut line = PacketLine {
            number: 0,
            end,
            text: Vec::new(alloc),
            digits_end: 0,
        };
        line.make(0, end)?;
        Ok(line)
    }

    /// Turns to the next packet. Refused, it is no packet's line.
    #[inline]
    pub fn turn_to(&mut self, end: PacketEnd) -> Result<(), AllocError>
        requires line { IsLine self.old }
        requires more { self.old.number + 1 < 2 ^ 64 }
        ensures number { OnOk result (self.new.number ≡ self.old.number + 1) }
        ensures end { OnOk result (self.new.end ≡ end) }
        ensures line { OnOk result (IsLine self.new) }
    {
        if !self.count_up() {
            return self.make(self.number + 1, end);
        }
        if self.end == end {
            return Ok(());
        }
        self.text.truncate(self.digits_end);
        push_ending(&mut self.text, end)?;
        self.end = end;
        Ok(())
    }

    // Counts the number up, in its digits too, if it has as many then. If it hasn't, the digits are all 0.
    #[inline]
    fn count_up(&mut self) -> bool
        requires line { IsLine self.old }
        requires more { self.old.number + 1 < 2 ^ 64 }
        ensures line { result ≡ true → IsLine self.new }
        ensures number { self.new.number ≡ (if result then self.old.number + 1 else self.old.number) }
        ensures end { self.new.end ≡ self.old.end }
    {
        let mut at = self.digits_end;
        while at > LABEL.len() {
            at -= 1;
            if self.text[at] < b'9' {
                self.text[at] += 1;
                self.number += 1;
                return true;
            }
            self.text[at] = b'0';
        }
        false
    }

    // Makes the line of that packet anew.
    fn make(&mut self, number: u64, end: PacketEnd) -> Result<(), AllocError>
        ensures number { OnOk result (self.new.number ≡ number) }
        ensures end { OnOk result (self.new.end ≡ end) }
        ensures line { OnOk result (IsLine self.new) }
    {
        self.text.clear();
        push_count(&mut self.text, LABEL, number)?;
        self.digits_end = self.text.len();
        push_ending(&mut self.text, end)?;
        self.number = number;
        self.end = end;
        Ok(())
    }
}

// Puts what the line of a packet that ended so tells behind its number.
fn push_ending(out: &mut Vec<u8>, end: PacketEnd) -> Result<(), AllocError>
    ensures { OnOk result (out.new.items ≡ out.old.items ++ ending_of end) }
{
    push_end(out, end.verdict, u64::from(end.length), end.meta)?;
    out.push(b'\n')?;
    Ok(())
}

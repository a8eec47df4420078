//! What the line of a packet begins with: its number.
ghost use Rattle.std.specs.Prelude.{◌≡◌};

use std::alloc::{AllocError, Global};
use walk_texts::push_count;

// What stands before a packet's number.
const LABEL: &str = "packet ";

/// The label of a packet's line, and the packet's number. It is kept, since the next one's differs in few
/// bytes, most often in the last.
#[derive(Drop)]
pub(crate) struct LineHead {
    pub(crate) number: u64,
    pub(crate) text: Vec<u8>,
}

impl LineHead {
    ghost use Rattle.std.specs.Prelude.{◌≡◌, ◌+◌, ◌<◌, ◌^◌, true, IfOk, OnOk, if◌then◌else◌};
    ghost use Rattle.run_report.specs.PacketTails.{IsHead};

    /// That of a packet 0.
    pub(crate) fn new(alloc: Global) -> Result<Self, AllocError>
        ensures head { IfOk result IsHead }
        ensures number { IfOk result (λ head. head.number ≡ 0) }
    {
        let mut head = LineHead {
            number: 0,
            text: Vec::new(alloc),
        };
        head.make(0)?;
        Ok(head)
    }

    /// Turns to the next packet. Refused, it is no packet's.
    #[inline]
    pub(crate) fn turn_to_next(&mut self) -> Result<(), AllocError>
        requires head { IsHead self.old }
        requires more { self.old.number + 1 < 2 ^ 64 }
        ensures head { OnOk result (IsHead self.new) }
        ensures number { OnOk result (self.new.number ≡ self.old.number + 1) }
    {
        if self.count_up() {
            return Ok(());
        }
        self.make(self.number + 1)
    }

    // Counts the number up, in its digits too, if it has as many then. If it hasn't, the digits are all 0.
    #[inline]
    fn count_up(&mut self) -> bool
        requires head { IsHead self.old }
        requires more { self.old.number + 1 < 2 ^ 64 }
        ensures head { result ≡ true → IsHead self.new }
        ensures number { self.new.number ≡ (if result then self.old.number + 1 else self.old.number) }
    {
        let mut at = self.text.len();
        while at > LABEL.len() {
            at -= 1;
            if self.text[at] < b'9' {
                self.text[at] += 1;
                self.number += 1;
                return true;
            }
            self.text[at] = b'0';
        }
        false
    }

    // Makes that of a packet anew.
    fn make(&mut self, number: u64) -> Result<(), AllocError>
        ensures head { OnOk result (IsHead self.new) }
        ensures number { OnOk result (self.new.number ≡ number) }
    {
        self.text.clear();
        push_count(&mut self.text, LABEL, number)?;
        self.number = number;
        Ok(())
    }
}

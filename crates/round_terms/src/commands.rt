//! The next command of a batch file.
ghost use Rattle.std.specs.Prelude.{◌≡◌, ◌≤◌, [], length, IfSome, IfNone};
ghost use Rattle.round_terms.specs.Places.{left_from, IsFound};

use tc_batch::is_command;
use tc_words::line_from;

/// A command line of a batch file.
#[derive(Clone, Copy, Debug)]
pub struct FoundCommand<'a> {
    pub text: &'a [u8],
    /// Its number in the file, from 1; blank lines and comments count.
    pub line: u64,
    /// The byte at which the line behind it begins.
    pub next: usize,
}

/// The next command of a batch file from the byte `from` on, before which `before` lines stand. `None`
/// exactly where no command is left.
pub fn next_command(bytes: &[u8], from: usize, before: u64) -> Option<FoundCommand<'_>>
    requires from { from ≤ length bytes.now }
    requires before { before ≤ from }
    ensures some { IfSome result (λ found.
        IsFound bytes.now from before found.text.now found.line found.next) }
    ensures none { IfNone result (left_from bytes.now from before ≡ []) }
{
    let mut at = from;
    let mut line = before;
    while let Some(cut) = line_from(bytes, at) {
        line += 1;
        if is_command(cut.text) {
            return Some(FoundCommand {
                text: cut.text,
                line,
                next: cut.next,
            });
        }
        at = cut.next;
    }
    None
}

//! Lines and their edits.
ghost use Rattle.std.specs.Prelude.{◌≡◌, ◌==◌, ◌⊎◌, not, ℕ, List, length, IfOk, IfErr};
ghost use Rattle.tc_words.specs.Lines.{words_of};
ghost use Rattle.filter_state.specs.declared.edit.Edit.{Edit};
ghost use Rattle.tc_batch.specs.Grammar.{Gives};
ghost use Rattle.tc_batch.specs.FirstBad.{HasFault, IsFirstBad};

use crate::draft::Draft;
use crate::fault::LineFault;
use crate::stage::Stage;
use crate::steps::{end, step};
use filter_state::Edit;
use std::alloc::Global;
use tc_base::check_room;
use tc_words::{first_word, has_words};

/// A line as far as it was read: what it says, and how far it has come.
#[derive(Drop)]
struct Reading {
    draft: Draft,
    stage: Stage,
}

// More words have no number that fits the answer, which may be one past the last word.
const MOST_WORDS: u32 = 0xFFFF_FFFE;

/// Whether a line of a batch file is a command: whether it is neither blank nor a comment.
pub fn is_command(bytes: &[u8]) -> bool
    ensures { result ≡ not (length (words_of bytes.now) == 0) }
{
    has_words(bytes)
}

/// The edit that a line of a batch file asks for, or the first bad word.
///
/// `bytes` is one line, as `tc_words::lines` cuts it. A bad word is one at which no line goes on: no line has
/// the words up to it as its own first words. Where the words are all good and yet no line, one past the last
/// word is bad.
///
/// A line that is good up to its 4,294,967,294th word and has a word more is answered with `NoMemory`: the
/// number of a bad word behind it has no room in the answer.
pub fn line(alloc: Global, bytes: &[u8]) -> Result<Edit, LineFault>
    ensures line { IfOk result (Gives (words_of bytes.now)) }
    ensures fault { IfErr result (HasFault (words_of bytes.now)) }
{
    let mut reading = Reading {
        draft: Draft::new(alloc),
        stage: Stage::Start,
    };
    let mut count = 0;
    let mut rest = bytes;
    while let Some((word, more)) = first_word(rest) {
        check_room(count as usize + 1, MOST_WORDS as usize)?;
        count += 1;
        if !step(alloc, &mut reading.draft, &mut reading.stage, word)? {
            return Err(LineFault::Syntax { word: count });
        }
        rest = more;
    }
    match end(alloc, reading.draft, reading.stage)? {
        Some(edit) => Ok(edit),
        None => Err(LineFault::Syntax { word: count + 1 }),
    }
}

/// A list of words gives an edit or has a first bad word, never both, and one at most of either. So `line`
/// answers exactly by the grammar.
pub fn one_line()
    ensures some { (words : List (List ℕ)) → ((edit : Edit) × Gives words edit)
        ⊎ ((at : ℕ) × IsFirstBad words at) }
    ensures edit { (words : List (List ℕ)) (a b : Edit) → Gives words a → Gives words b → a ≡ b }
    ensures no_fault { (words : List (List ℕ)) (edit : Edit) (at : ℕ) → Gives words edit → IsFirstBad words at
        → ⊥ }
    ensures one_fault { (words : List (List ℕ)) (a b : ℕ) → IsFirstBad words a → IsFirstBad words b → a ≡ b }
{}

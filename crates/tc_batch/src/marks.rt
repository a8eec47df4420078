//! What skbedit sets.
ghost use Rattle.std.specs.Prelude.{◌≡◌};
ghost use Rattle.tc_batch.specs.Actions.{no_marks, is_marked, with_mark, has_mark, mark_params};

use crate::action_keywords::MarkName;
use act_kinds::{Control, Params};
use line_words::{read_class, read_number_between};

/// What stood of skbedit's three so far: `None` where the word didn't.
#[derive(Clone, Copy)]
pub struct Marks {
    pub priority: Option<u32>,
    pub mark: Option<u32>,
    pub queue: Option<u16>,
}

impl Marks {
    pub(crate) fn none() -> Self
        ensures { result ≡ no_marks }
    {
        Marks {
            priority: None,
            mark: None,
            queue: None,
        }
    }

    pub(crate) fn has(self, name: MarkName) -> bool
        ensures { result ≡ is_marked self name }
    {
        match name {
            MarkName::Priority => self.priority.is_some(),
            MarkName::Mark => self.mark.is_some(),
            MarkName::Queue => self.queue.is_some(),
        }
    }

    // The marks with one more, where the word is a value of that name.
    pub(crate) fn with(self, name: MarkName, word: &[u8]) -> Option<Self>
        ensures { result ≡ with_mark self name word.now }
    {
        match name {
            MarkName::Priority => {
                let priority = read_class(word)?;
                Some(Marks {
                    priority: Some(priority),
                    ..self
                })
            }
            MarkName::Mark => {
                let mark = read_number_between(word, 0, 4_294_967_295)?;
                Some(Marks {
                    mark: Some(mark),
                    ..self
                })
            }
            MarkName::Queue => {
                let queue = read_number_between(word, 0, 65_535)? as u16;
                Some(Marks {
                    queue: Some(queue),
                    ..self
                })
            }
        }
    }

    pub(crate) fn any(self) -> bool
        ensures { result ≡ has_mark self }
    {
        self.priority.is_some() || self.mark.is_some() || self.queue.is_some()
    }

    // What the action does if no control follows.
    pub(crate) fn params(self) -> Params
        ensures { result ≡ mark_params self }
    {
        Params::Skbedit {
            priority: self.priority,
            mark: self.mark,
            queue: self.queue,
            control: Control::Pipe,
        }
    }
}

//! What a trace tells beside a walk's answers.

use edit_lines::{Line, Origin};
use flow_fields::Key;
use tc_base::Point;

/// Who knows the words of masks, and by which lines filters and actions were brought, at each point of a
/// journal. What isn't known isn't told.
pub trait Naming {
    ghost use Rattle.std.specs.Prelude.{◌≡◌};
    ghost use Rattle.std.specs.Option.{option_copied};
    ghost use Rattle.trace_lines.specs.Names.{Names, words_or_none};

    // What is known.
    ghost names: { Self → Names };

    /// The words of the mask of a serial; none, where it doesn't stand.
    fn mask(&self, point: Point, mask: u32) -> Option<&Key<14>>
        ensures { (names self.now).words point mask ≡ words_or_none (option_copied result) };

    /// The handle of the filter of a mask and a key, and the edit that brought it.
    fn filter(&self, point: Point, mask: u32, key: &Key<14>) -> Option<Origin>
        ensures { (names self.now).filter point mask key.now.words ≡ result };

    /// The edit that brought the action of a serial as it is.
    fn action(&self, point: Point, serial: u32) -> Option<Line>
        ensures { (names self.now).action point serial ≡ result };

    /// The index of the action of a serial.
    fn index(&self, serial: u32) -> u32
        ensures { (names self.now).index serial ≡ result };
}

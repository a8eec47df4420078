//! Where two texts part.
ghost use Rattle.std.specs.Prelude.{◌≡◌};
ghost use Rattle.report_check.specs.Reasons.{parting};

/// In which word two texts part, counted from 0.
pub(crate) fn parting(text: &[u8], other: &[u8]) -> u64
    ensures { result ≡ parting text.now other.now }
{
    let shared = text.len().min(other.len());
    let mut word = 0;
    let mut place = 0;
    while place < shared {
        if text[place] != other[place] {
            return word;
        }
        word += u64::from(text[place] == b' ');
        place += 1;
    }
    word
}

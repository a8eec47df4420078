//! How many buckets a table has.
ghost use Rattle.std.specs.Prelude.{◌≡◌, ◌*◌, ◌≤◌, ◌⊎◌, ℕ, IsTrue};
ghost use Rattle.flow_mask.specs.Sizes.{is_size, size_of};

const LEAST: u32 = 16;

const GREATEST: u32 = 1024;

/// The number of buckets for some filters: the least power of two from 16 to 1,024 of which they fill three
/// quarters at most, and 1,024 where none is enough.
pub fn size_for(filters: u32) -> u32
    ensures size { result ≡ size_of filters }
    ensures power { IsTrue (is_size result) }
    ensures at_least { 16 ≤ result }
    ensures at_most { result ≤ 1024 }
    ensures room { (4 * filters ≤ 3 * result) ⊎ (result ≡ 1024) }
    ensures least { (size : ℕ) → IsTrue (is_size size) → 4 * filters ≤ 3 * size → result ≤ size }
{
    let mut size = LEAST;
    while size < GREATEST && 3 * u64::from(size) < 4 * u64::from(filters) {
        size *= 2;
    }
    size
}

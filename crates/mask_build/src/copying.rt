//! A mask copied.
ghost use Rattle.std.specs.Prelude.{◌≡◌, ◌≤◌, length};

use block_codec::{RowNumbers, StoredMask};

/// The list of these rows, 64 at most.
pub fn rows_of(rows: &[u32]) -> RowNumbers
    requires { length rows.now ≤ 64 }
    ensures { result ≡ rows.now }
{
    let mut list = RowNumbers::new();
    for row in rows {
        list.push(*row);
    }
    list
}

/// The same mask once more.
pub fn copy_of_mask(mask: &StoredMask) -> StoredMask
    ensures { result ≡ mask.now }
{
    StoredMask {
        serial: mask.serial,
        size: mask.size,
        mask: mask.mask,
        rows: rows_of(mask.rows.items()),
    }
}

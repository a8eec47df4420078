//! What a test stops for.
use std::fmt::Debug;
use std::process::Abort;

/// Stops the test where what was found isn't what is due, and prints both. Proved once for all that is
/// compared.
pub(crate) fn same<T: PartialEq + Debug + Copy>(rt: &impl Abort, found: T, due: T) {
    assert_eq!(rt; found, due);
}

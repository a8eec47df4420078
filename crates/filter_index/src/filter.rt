//! One filter.

use flow_fields::Key;
use tc_base::Numbers;

/// One filter of a mask.
#[derive(Drop, Debug)]
pub struct Filter {
    /// Tells the filters of one table apart; at least 1.
    pub handle: u32,
    /// The values of the fields, under the mask.
    pub key: Key<14>,
    /// The serials of its actions, in order.
    pub actions: Numbers,
}

//! What the desk hands to a reader.
ghost use Rattle.std.specs.Prelude.{◌≡◌};
ghost use Rattle.pin_store.specs.Calls.{seen_by};
ghost use Rattle.hook_law.specs.Meaning.{point_of};

use hook_store_law::HookLaw;
use pin_store::Receipt;
use tc_base::Point;

/// A receipt of the store that has seen commits with so many edits.
#[derive(Drop)]
pub struct HookReceipt {
    pub receipt: Receipt<HookLaw>,
    pub point: Point,
    pub ghost at: { point ≡ point_of (seen_by receipt.place) },
}

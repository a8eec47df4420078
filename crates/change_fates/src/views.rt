//! A fate, as it is read.
ghost use Rattle.std.specs.Prelude.{◌≡◌, ◌<◌, length, IfSome};
ghost use Rattle.std.specs.List.{slice_get};
ghost use Rattle.change_fates.specs.Views.{fate_seen};

use fate_search::Fates;
use frame_edit::Meta;
use tc_base::Point;
use walk_rules::Verdict;

/// How the first walk with a fate ended, and the point of each of its visits.
#[derive(Clone, Copy)]
pub(crate) struct FateView<'a> {
    pub(crate) verdict: Verdict,
    pub(crate) length: usize,
    pub(crate) meta: Meta,
    pub(crate) bytes: &'a [u8],
    pub(crate) points: &'a [Point],
}

/// The fate at a place.
pub(crate) fn fate_at(fates: &Fates, place: usize) -> FateView<'_>
    requires { place < length fates.now }
    ensures { IfSome (slice_get fates.now place) (λ found. fate_seen result ≡ found) }
{
    FateView {
        verdict: fates.verdict(place),
        length: fates.length(place),
        meta: fates.meta(place),
        bytes: fates.bytes(place),
        points: fates.points(place),
    }
}

//! What can become of a packet while a change is applied.
//!
//! A walk asks question after question, and while a hook is edited each is answered at a point of the
//! journal. A packet that comes while a change goes in has many walks, then, and of each some end: its fate.
//! `CanHave` (`specs/Meeting.antt`) says which fates a packet can have between two points: those of all
//! lawful walks.
//!
//! They are found without trying all lists of points, for points are bound from below alone, but for one
//! ceiling. Lower bounds let every walk be that higher ones let be (`least_suffices`), so of all points at
//! which a visit gets one answer the least is enough. `ways_of` (`specs/Walks.antt`) takes at each visit each
//! distinct answer once, at the least point that gives it, and goes on from there: each way found is a lawful
//! walk (`ways_are_met`), and each lawful walk has a way with the same end whose points are nowhere higher
//! (`met_has_way`). The ways come in the order of their points (`ways_rise`), so the first with a fate has
//! the least points of all walks with that fate and is its witness. As long as there are no more ways than
//! are looked at, the fates of the ways are all that there are (`fates_are_all`). `ways_in_turn` says how one
//! goes from way to way with no more kept than the one that is followed, and `branches_are_changes` that no
//! points need be looked at but those at which an answer changes.
//!
//! The fates tell whether a change is seen between: whether some packet can be let go or let through that
//! neither the state before nor the state after would (`kinds_mean`), and whether one state on the way would
//! (`whens_mean`). A walk whose visits are all made at one point has the fate of that state's plain walk
//! (`one_point_is_plain`), and is a way (`stays_are_told`). The fates of the states before and after are
//! always among them (`each_state_is_had`), and where nothing changes there is no other
//! (`no_change_is_plain`). How many workers there are makes no difference: a floor that a worker saw leaves a
//! packet fewer walks, and none but these (`one_packet_alone`).
//!
//! How a walk asks and which of its points bound others is given to the search (`Game`), and the laws about
//! it hold for any standings, questions and answers: rules under which less is bound would be another game,
//! with the same search.
//!
//! Definitions and laws alone, and the names of times and kinds: there is nothing here to call at run time,
//! so any thread may do anything with it.
//!
//! Not promised: when, or how likely, a fate comes; anything of several packets together; and how many ways
//! there are: a packet that meets many changed filters has many.
#![tactic(auto)]

mod games;
mod kinds;
mod laws;
mod limits;

pub use games::{
    bounds_are_points, branches_are_changes, first_is_least, least_suffices, ways_are_all,
    ways_differ, ways_in_turn,
};
pub use kinds::{Kind, When};
pub use laws::{
    each_state_is_had, fates_are_all, kinds_mean, met_has_way, no_change_is_plain,
    one_packet_alone, one_point_is_plain, stays_are_told, times_agree, ways_are_met, ways_rise,
    whens_mean,
};
pub use limits::WAYS_MAX;

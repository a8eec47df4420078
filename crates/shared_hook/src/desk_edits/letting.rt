//! The last part of each edit of filters: actions go.
ghost use Rattle.std.specs.Prelude.{◌≡◌, ℕ};
ghost use Rattle.desk_actions.specs.OfLedgers.Kept.{commits, base};
ghost use Rattle.desk_parts.specs.OfLineActions.Dropped.{MayGo, AreDropped};
ghost use Rattle.desk_parts.specs.Desk.{IsDesk};

use desk_parts::Parts;
use desk_parts::line_actions::drop_dead_actions;

/// Lets the actions go of these serials that are live no more, once the edit's commits are made: their slots
/// and blocks leave, each once. A serial may be named more than once, or be of an action that others hold.
pub fn let_go(parts: &mut Parts, serials: &[u32])
    requires desk { IsDesk parts.old }
    requires gone { (after : ℕ) × MayGo parts.old.ledger.lists parts.old.pools parts.old.actions
        (commits parts.old.ledger) (base parts.old.ledger) after serials.now }
    ensures desk { IsDesk parts.new }
    ensures dropped { AreDropped parts.old.pools parts.new.pools parts.old.actions parts.new.actions
        (commits parts.old.ledger) (base parts.old.ledger) serials.now }
    ensures rest { parts.new
        ≡ record parts.old { pools = parts.new.pools; actions = parts.new.actions } }
{
    drop_dead_actions(
        &parts.ledger.lists,
        &mut parts.pools,
        &mut parts.actions,
        serials,
    );
}

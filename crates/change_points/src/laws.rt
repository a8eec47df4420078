//! What a search over the answers of a change finds.
ghost use Rattle.std.specs.Prelude.{◌≡◌, ◌≤◌, ℕ, List};
ghost use Rattle.walk_rules.specs.Questions.{heads_of, filter_of, params_of};
ghost use Rattle.walk_fate_laws.specs.Walks.{answers_over, ways_of};
ghost use Rattle.walk_fate_laws.specs.Told.{told_fates, has_more};
ghost use Rattle.change_points.specs.Answers.{HookChange, states_of, answer_in};

/// The answers are those of the journal's states: of masks and actions at every point, of the hook's tables
/// from the point before the change on.
pub fn answers_agree()
    ensures tables { (change : HookChange) (at : ℕ) → change.before ≤ at
        → answer_in change at (heads_of change.hook)
        ≡ answers_over (states_of change) at (heads_of change.hook) }
    ensures masks { (change : HookChange) (at table mask : ℕ) (values : List ℕ)
        → answer_in change at (filter_of table mask values)
        ≡ answers_over (states_of change) at (filter_of table mask values) }
    ensures actions { (change : HookChange) (at serial : ℕ) → answer_in change at (params_of serial)
        ≡ answers_over (states_of change) at (params_of serial) }
{}

/// So the ways of a packet at the hook from that point on are those over the states, and its fates too.
pub fn ways_agree()
    ensures ways { (change : HookChange) (ceiling : ℕ) (bytes : List ℕ)
        → ways_of (answer_in change) change.before ceiling change.hook bytes
        ≡ ways_of (answers_over (states_of change)) change.before ceiling change.hook bytes }
    ensures fates { (change : HookChange) (ceiling : ℕ) (bytes : List ℕ)
        → told_fates (answer_in change) change.before ceiling change.hook bytes
        ≡ told_fates (answers_over (states_of change)) change.before ceiling change.hook bytes }
    ensures more { (change : HookChange) (ceiling : ℕ) (bytes : List ℕ)
        → has_more (answer_in change) change.before ceiling change.hook bytes
        ≡ has_more (answers_over (states_of change)) change.before ceiling change.hook bytes }
{}

//! The laws of the fates.
ghost use Rattle.std.specs.Prelude.{◌≡◌, ◌≢◌, ◌⊎◌, ◌↔◌, ◌<◌, ◌≤◌, ℕ, List, length, slice_get, Some};
ghost use Rattle.tc_base.specs.declared.hook.Hook.{Hook};
ghost use Rattle.filter_state.specs.Sound.{Sound};
ghost use Rattle.filter_state.specs.States.{State};
ghost use Rattle.walk_rules.specs.Plain.{plain_walk};
ghost use Rattle.walk_rules.specs.Questions.{Answer};
ghost use Rattle.point_walks.specs.Over.{Answering};
ghost use Rattle.walk_rules.specs.Steps.{Standing};
ghost use Rattle.walk_rules.specs.Walks.{Outcome, outcome_of};
ghost use Rattle.walk_fate_laws.specs.declared.limits.TheConstants.{WAYS_MAX};
ghost use Rattle.walk_fate_laws.specs.Fates.{Fate, fate_of};
ghost use Rattle.walk_fate_laws.specs.Firsts.{IsAmong};
ghost use Rattle.walk_fate_laws.specs.Order.{AreAtMost, EachBefore, IsEarlier};
ghost use Rattle.walk_fate_laws.specs.Meeting.{IsMet, CanHave, IsWitness};
ghost use Rattle.walk_fate_laws.specs.Ways.{Way, AreRising};
ghost use Rattle.walk_fate_laws.specs.Walks.{answers_over, ways_of};
ghost use Rattle.walk_fate_laws.specs.Told.{Told, told_fates, has_more};
ghost use Rattle.walk_fate_laws.specs.Stays.{fate_there, plain_fate, IsAnsweredAs};
ghost use Rattle.walk_fate_laws.specs.Times.{when_of, whens_at};
ghost use Rattle.walk_fate_laws.specs.Kinds.{kind_at, AreSound, IsNeither, IsOfOneBetween, HasNoMore};
ghost use Rattle.walk_fate_laws.specs.Kinds.{HasOneFate, HasOldAndNew, HasBetween, HasNeither, NoneIsBetween};
ghost use Rattle.walk_fate_laws.specs.Rounds.{Walked, AreMet};

use crate::kinds::{Kind, When};

/// Each way comes to an end, and is a walk that the packet can have.
pub fn ways_are_met()
    ensures { (states : ℕ → State) (before ceiling : ℕ) (hook : Hook) (bytes : List ℕ)
        (way : Way Standing Answer) → IsAmong way (ways_of (answers_over states) before ceiling hook bytes)
        → (outcome : Outcome) × (outcome_of way.end ≡ Some outcome)
        × IsMet states before ceiling hook bytes way.points outcome }
{}

/// Each walk that the packet can have has a way with the same outcome, whose points are nowhere higher.
pub fn met_has_way()
    ensures { (states : ℕ → State) (before ceiling : ℕ) (hook : Hook) (bytes points : List ℕ)
        (outcome : Outcome) → IsMet states before ceiling hook bytes points outcome
        → (way : Way Standing Answer) × IsAmong way (ways_of (answers_over states) before ceiling hook bytes)
        × (outcome_of way.end ≡ Some outcome) × AreAtMost way.points points }
{}

/// The ways come in the order of their points, and no two have the same answers.
pub fn ways_rise()
    ensures rise { (states : ℕ → State) (before ceiling : ℕ) (hook : Hook) (bytes : List ℕ)
        → AreRising (ways_of (answers_over states) before ceiling hook bytes) }
    ensures differ { (states : ℕ → State) (before ceiling : ℕ) (hook : Hook) (bytes : List ℕ)
        (one other : Way Standing Answer)
        → IsAmong one (ways_of (answers_over states) before ceiling hook bytes)
        → IsAmong other (ways_of (answers_over states) before ceiling hook bytes)
        → one.answers ≡ other.answers → one ≡ other }
{}

/// The fates that are told can be had; they come in the order of their ways' points, each once, and its way
/// is its witness. Where there are no more ways than are looked at, no other fate can be had.
pub fn fates_are_all()
    ensures had { (states : ℕ → State) (before ceiling : ℕ) (hook : Hook) (bytes : List ℕ) (told : Told)
        → IsAmong told (told_fates (answers_over states) before ceiling hook bytes)
        → CanHave states before ceiling hook bytes told.key }
    ensures all { (states : ℕ → State) (before ceiling : ℕ) (hook : Hook) (bytes : List ℕ) (fate : Fate)
        → length (ways_of (answers_over states) before ceiling hook bytes) ≤ WAYS_MAX
        → CanHave states before ceiling hook bytes fate → (told : Told)
        × IsAmong told (told_fates (answers_over states) before ceiling hook bytes) × (told.key ≡ fate) }
    ensures once { (states : ℕ → State) (before ceiling : ℕ) (hook : Hook) (bytes : List ℕ)
        → EachBefore (λ (one other : Told). IsEarlier one.item.points other.item.points
        × (one.key ≢ other.key)) (told_fates (answers_over states) before ceiling hook bytes) }
    ensures witness { (states : ℕ → State) (before ceiling : ℕ) (hook : Hook) (bytes : List ℕ) (told : Told)
        → IsAmong told (told_fates (answers_over states) before ceiling hook bytes) → (outcome : Outcome)
        × IsWitness states before ceiling hook bytes told.item.points outcome
        × (fate_of outcome ≡ told.key) }
{}

/// A walk whose visits are all made at one point, which answers as a sound state does, ends with the fate of
/// that state's plain walk.
pub fn one_point_is_plain()
    ensures { (answers : Answering) (s : State) (point : ℕ) (hook : Hook) (bytes : List ℕ) → Sound s
        → IsAnsweredAs answers point hook s
        → fate_there answers hook bytes point ≡ Some (fate_of (plain_walk s hook bytes)) }
{}

/// Such a walk is a way, whoever answers. So its fate is told, where there are no more ways than are looked
/// at.
pub fn stays_are_told()
    ensures { (answers : Answering) (before ceiling : ℕ) (hook : Hook) (bytes : List ℕ) (point : ℕ)
        (fate : Fate) → length (ways_of answers before ceiling hook bytes) ≤ WAYS_MAX → before ≤ point
        → point ≤ ceiling → fate_there answers hook bytes point ≡ Some fate → (told : Told)
        × IsAmong told (told_fates answers before ceiling hook bytes) × (told.key ≡ fate) }
{}

/// When a fate is had, by the states of the points.
pub fn whens_mean()
    ensures before { (states : ℕ → State) (before ceiling : ℕ) (hook : Hook) (bytes : List ℕ) (fate : Fate)
        → AreSound states before ceiling → before ≤ ceiling
        → (when_of (answers_over states) before ceiling hook bytes fate ≡ When.Before)
        ↔ ((fate ≡ plain_fate states hook bytes before) × (fate ≢ plain_fate states hook bytes ceiling)) }
    ensures after { (states : ℕ → State) (before ceiling : ℕ) (hook : Hook) (bytes : List ℕ) (fate : Fate)
        → AreSound states before ceiling → before ≤ ceiling
        → (when_of (answers_over states) before ceiling hook bytes fate ≡ When.After)
        ↔ ((fate ≢ plain_fate states hook bytes before) × (fate ≡ plain_fate states hook bytes ceiling)) }
    ensures both { (states : ℕ → State) (before ceiling : ℕ) (hook : Hook) (bytes : List ℕ) (fate : Fate)
        → AreSound states before ceiling → before ≤ ceiling
        → (when_of (answers_over states) before ceiling hook bytes fate ≡ When.Both)
        ↔ ((fate ≡ plain_fate states hook bytes before) × (fate ≡ plain_fate states hook bytes ceiling)) }
    ensures between { (states : ℕ → State) (before ceiling : ℕ) (hook : Hook) (bytes : List ℕ) (fate : Fate)
        → AreSound states before ceiling → before ≤ ceiling
        → (when_of (answers_over states) before ceiling hook bytes fate ≡ When.Between)
        ↔ (IsNeither (plain_fate states hook bytes before) (plain_fate states hook bytes ceiling) fate
        × IsOfOneBetween (plain_fate states hook bytes) before ceiling fate) }
    ensures mixed { (states : ℕ → State) (before ceiling : ℕ) (hook : Hook) (bytes : List ℕ) (fate : Fate)
        → AreSound states before ceiling → before ≤ ceiling
        → (when_of (answers_over states) before ceiling hook bytes fate ≡ When.Mixed)
        ↔ (IsNeither (plain_fate states hook bytes before) (plain_fate states hook bytes ceiling) fate
        × (IsOfOneBetween (plain_fate states hook bytes) before ceiling fate → ⊥)) }
{}

/// What a packet's kind says of the fates that it can have, where all ways are looked at. Where there are
/// more, a fate that is between or neither is one still, and the packet is neither steady nor moved.
pub fn kinds_mean()
    ensures steady { (states : ℕ → State) (before ceiling : ℕ) (hook : Hook) (bytes : List ℕ)
        → AreSound states before ceiling → before ≤ ceiling → HasNoMore states before ceiling hook bytes
        → (kind_at (answers_over states) before ceiling hook bytes ≡ Kind.Steady)
        ↔ HasOneFate (CanHave states before ceiling hook bytes) }
    ensures moved { (states : ℕ → State) (before ceiling : ℕ) (hook : Hook) (bytes : List ℕ)
        → AreSound states before ceiling → before ≤ ceiling → HasNoMore states before ceiling hook bytes
        → (kind_at (answers_over states) before ceiling hook bytes ≡ Kind.Moved)
        ↔ HasOldAndNew (CanHave states before ceiling hook bytes) (plain_fate states hook bytes before)
        (plain_fate states hook bytes ceiling) }
    ensures between { (states : ℕ → State) (before ceiling : ℕ) (hook : Hook) (bytes : List ℕ)
        → AreSound states before ceiling → before ≤ ceiling → HasNoMore states before ceiling hook bytes
        → (kind_at (answers_over states) before ceiling hook bytes ≡ Kind.Between)
        ↔ HasBetween (CanHave states before ceiling hook bytes) (plain_fate states hook bytes) before ceiling }
    ensures mixed { (states : ℕ → State) (before ceiling : ℕ) (hook : Hook) (bytes : List ℕ)
        → AreSound states before ceiling → before ≤ ceiling → HasNoMore states before ceiling hook bytes
        → (kind_at (answers_over states) before ceiling hook bytes ≡ Kind.Mixed)
        ↔ (HasNeither (CanHave states before ceiling hook bytes) (plain_fate states hook bytes before)
        (plain_fate states hook bytes ceiling)
        × NoneIsBetween (plain_fate states hook bytes) before ceiling) }
    ensures left_open { (states : ℕ → State) (before ceiling : ℕ) (hook : Hook) (bytes : List ℕ)
        → AreSound states before ceiling → before ≤ ceiling
        → (kind_at (answers_over states) before ceiling hook bytes ≡ Kind.Open)
        ↔ ((WAYS_MAX < length (ways_of (answers_over states) before ceiling hook bytes))
        × ((told : Told) → IsAmong told (told_fates (answers_over states) before ceiling hook bytes)
        → (told.key ≡ plain_fate states hook bytes before)
        ⊎ (told.key ≡ plain_fate states hook bytes ceiling))) }
    ensures found { (states : ℕ → State) (before ceiling : ℕ) (hook : Hook) (bytes : List ℕ)
        → AreSound states before ceiling → before ≤ ceiling
        → (kind_at (answers_over states) before ceiling hook bytes ≡ Kind.Between
        → HasBetween (CanHave states before ceiling hook bytes) (plain_fate states hook bytes) before ceiling)
        × (kind_at (answers_over states) before ceiling hook bytes ≡ Kind.Mixed
        → HasNeither (CanHave states before ceiling hook bytes) (plain_fate states hook bytes before)
        (plain_fate states hook bytes ceiling)) }
    ensures all { (states : ℕ → State) (before ceiling : ℕ) (hook : Hook) (bytes : List ℕ)
        → (kind_at (answers_over states) before ceiling hook bytes ≡ Kind.Steady)
        ⊎ (kind_at (answers_over states) before ceiling hook bytes ≡ Kind.Moved)
        → HasNoMore states before ceiling hook bytes }
{}

/// Times and kinds are made of the fates that are told and of the walks at one point: where these agree,
/// those do.
pub fn times_agree()
    ensures { (answers others : Answering) (before ceiling : ℕ) (hook : Hook) (bytes : List ℕ)
        → before ≤ ceiling
        → told_fates answers before ceiling hook bytes ≡ told_fates others before ceiling hook bytes
        → has_more answers before ceiling hook bytes ≡ has_more others before ceiling hook bytes
        → ((point : ℕ) → before ≤ point → point ≤ ceiling
        → fate_there answers hook bytes point ≡ fate_there others hook bytes point)
        → (whens_at answers before ceiling hook bytes ≡ whens_at others before ceiling hook bytes)
        × (kind_at answers before ceiling hook bytes ≡ kind_at others before ceiling hook bytes) }
{}

/// The fate of the plain walk of each state between the two points can be had: so can those of the states
/// before and after the change.
pub fn each_state_is_had()
    ensures { (states : ℕ → State) (before ceiling at : ℕ) (hook : Hook) (bytes : List ℕ) → before ≤ at
        → at ≤ ceiling → Sound (states at) → CanHave states before ceiling hook bytes
        (fate_of (plain_walk (states at) hook bytes)) }
{}

/// Where all points between the two have one state, the fate of its plain walk is the only one.
pub fn no_change_is_plain()
    ensures { (states : ℕ → State) (s : State) (before ceiling : ℕ) (hook : Hook) (bytes : List ℕ)
        (fate : Fate) → ((point : ℕ) → before ≤ point → point ≤ ceiling → states point ≡ s) → Sound s
        → CanHave states before ceiling hook bytes fate → fate ≡ fate_of (plain_walk s hook bytes) }
{}

/// Whatever a packet can have from the point before the change on, it has in some round of one worker, whose
/// other packets are walked too; and what it has in a round of a worker it can have.
pub fn one_packet_alone()
    ensures there { (states : ℕ → State) (before ceiling : ℕ) (hook : Hook) (packets : List (List ℕ))
        (place : ℕ) (bytes : List ℕ) (walk : Walked) → ((point : ℕ) → Sound (states point))
        → before ≤ ceiling → slice_get packets place ≡ Some bytes
        → IsMet states before ceiling hook bytes walk.points walk.outcome → (walks : List Walked)
        × AreMet states before ceiling hook before packets walks × (slice_get walks place ≡ Some walk) }
    ensures back { (states : ℕ → State) (before ceiling : ℕ) (hook : Hook) (packets : List (List ℕ))
        (walks : List Walked) (place : ℕ) (bytes : List ℕ) (walk : Walked)
        → AreMet states before ceiling hook before packets walks → slice_get packets place ≡ Some bytes
        → slice_get walks place ≡ Some walk
        → IsMet states before ceiling hook bytes walk.points walk.outcome }
{}

//! The way through the tables of a hook.
ghost use Rattle.std.specs.Prelude.{◌≡◌, ◌≤◌, ℕ, List, ◌∷◌, length};
ghost use Rattle.frame_edit.specs.declared.limits.TheConstants.{FRAME_MAX};
ghost use Rattle.act_list.specs.declared.limits.TheConstants.{LIST_MAX};
ghost use Rattle.filter_state.specs.States.{State};
ghost use Rattle.filter_state.specs.Sound.{Each};
ghost use Rattle.filter_tables.specs.Seen.{plain_table};
ghost use Rattle.filter_lists.specs.Spells.{Spells};
ghost use Rattle.walk_rules.specs.Questions.{Head};
ghost use Rattle.walk_rules.specs.Walks.{Outcome};
ghost use Rattle.walk_rules.specs.Heads.{heads_on};
ghost use Rattle.walk_rules.specs.Steps.{tries};
ghost use Rattle.walk_rules.specs.Plain.{Carried, ends_with, decider, filter_outcome, table_outcome};
ghost use Rattle.walk_rules.specs.Plain.{tables_outcome, plain_walk};
ghost use Rattle.head_laws.specs.Heads.{head_of};
ghost use Rattle.classify_walk.specs.Answered.{StandsAction};
ghost use Rattle.plain_walk.specs.Courses.{frame_from, carried_from, IsCourse};
ghost use Rattle.plain_walk.specs.Ends.{chain_end, table_end};
ghost use Rattle.plain_walk.specs.Places.{IsTableOf};

use crate::actions::run_list;
use crate::course::Course;
use crate::lookups::{LookUp, look_up, words_of};
use act_list::Ending;
use filter_lists::{FilterTable, Lists};
use tc_base::Hook;
use walk_rules::{RESTARTS_MAX, Verdict};
use walk_steps::admits;

/// How the tables of a chain end: the walk is over, or begins anew at a chain.
#[derive(Clone, Copy)]
pub(crate) enum ChainEnd {
    Over(Verdict),
    Restart(u32),
}

/// Takes a frame through the tables of a hook, from chain 0 on.
pub(crate) fn walk(course: &mut Course, lists: &Lists, hook: Hook, came: &[u8]) -> Verdict
    requires { length came.now ≤ FRAME_MAX }
    ensures { (s : State) → Spells lists.now s
        → ends_with result (carried_from came.now course.new) ≡ plain_walk s hook came.now }
{
    course.begin(came);
    let mut chain = 0;
    let mut restarts = RESTARTS_MAX;
    loop {
        match walk_chain(course, lists, hook, chain, came) {
            ChainEnd::Over(verdict) => return verdict,
            ChainEnd::Restart(to) => {
                if restarts == 0 {
                    return Verdict::Drop;
                }
                restarts -= 1;
                chain = to;
            }
        }
    }
}

// Takes the frame through the tables of a chain. Those of later chains stand behind them.
fn walk_chain(course: &mut Course, lists: &Lists, hook: Hook, chain: u32, came: &[u8]) -> ChainEnd
    requires { IsCourse came.now course.old }
    ensures plain { (s : State) → Spells lists.now s → (restart : ℕ → ℕ → Carried → Outcome)
        → tables_outcome s restart chain (heads_on hook s) course.old.left (carried_from came.now course.old)
        ≡ chain_end restart result course.new.left (carried_from came.now course.new) }
    ensures course { IsCourse came.now course.new }
{
    let tables = lists.tables(hook);
    for table in tables {
        if table.chain > chain {
            break;
        }
        if let Some(end) = pass_table(course, lists, table, chain, came) {
            return end;
        }
    }
    ChainEnd::Over(Verdict::Pass)
}

// Takes the frame through one table, if it is tried. `None`: the walk goes on with the next table.
fn pass_table(
    course: &mut Course,
    lists: &Lists,
    table: &FilterTable,
    chain: u32,
    came: &[u8],
) -> Option<ChainEnd>
    requires table { IsTableOf lists.now (plain_table table.now) }
    requires course { IsCourse came.now course.old }
    ensures plain { (s : State) → Spells lists.now s
        → (restart : ℕ → ℕ → Carried → Outcome) → (tables : List Head)
        → tables_outcome s restart chain (head_of (plain_table table.now) ∷ tables) course.old.left
        (carried_from came.now course.old)
        ≡ table_end restart (tables_outcome s restart chain tables) result course.new.left
        (carried_from came.now course.new) }
    ensures course { IsCourse came.now course.new }
{
    if tries(table, chain, course.ether) {
        search_table(course, lists, table, came)
    } else {
        None
    }
}

// Whether the table is in the chain, and takes frames of that EtherType.
fn tries(table: &FilterTable, chain: u32, ether: u16) -> bool
    ensures { result ≡ tries chain ether (head_of (plain_table table.now)) }
{
    table.chain == chain && admits(table.protocol, ether)
}

// Takes the frame through a table that is tried.
fn search_table(
    course: &mut Course,
    lists: &Lists,
    table: &FilterTable,
    came: &[u8],
) -> Option<ChainEnd>
    requires table { IsTableOf lists.now (plain_table table.now) }
    requires course { IsCourse came.now course.old }
    ensures plain { (s : State) → Spells lists.now s
        → (restart : ℕ → ℕ → Carried → Outcome) → (next : ℕ → Carried → Outcome)
        → table_outcome s restart next course.old.left (carried_from came.now course.old)
        (head_of (plain_table table.now))
        (decider s (head_of (plain_table table.now)) (frame_from came.now course.old))
        ≡ table_end restart next result course.new.left (carried_from came.now course.new) }
    ensures course { IsCourse came.now course.new }
{
    let _words = words_of(&course.key);
    match look_up(table.masks.as_slice(), &course.key, &mut course.left) {
        LookUp::Met(filter) => run_filter(course, lists, filter.actions.as_slice(), came),
        LookUp::Missed => None,
        LookUp::Spent => Some(ChainEnd::Over(Verdict::Drop)),
    }
}

// Runs the actions of the filter that decides.
fn run_filter(course: &mut Course, lists: &Lists, serials: &[u32], came: &[u8]) -> Option<ChainEnd>
    requires few { length serials.now ≤ LIST_MAX }
    requires stand { Each (StandsAction lists.now) serials.now }
    requires course { IsCourse came.now course.old }
    ensures plain { (s : State) → Spells lists.now s
        → (restart : ℕ → ℕ → Carried → Outcome) → (next : ℕ → Carried → Outcome)
        → filter_outcome s restart next course.old.left (carried_from came.now course.old) serials.now
        ≡ table_end restart next result course.new.left (carried_from came.now course.new) }
    ensures course { IsCourse came.now course.new }
{
    if serials.is_empty() {
        return Some(ChainEnd::Over(Verdict::Pass));
    }
    match run_list(course, lists, serials, came) {
        None | Some(Ending::Shot) => Some(ChainEnd::Over(Verdict::Drop)),
        Some(Ending::Accept | Ending::Pipe) => Some(ChainEnd::Over(Verdict::Pass)),
        Some(Ending::Unspec) => None,
        Some(Ending::Reclassify) => Some(ChainEnd::Restart(0)),
        Some(Ending::Goto(chain)) => Some(ChainEnd::Restart(chain)),
    }
}

//! Where a walk stops next among the tables that the head told.
ghost use Rattle.std.specs.Prelude.{◌≡◌, ◌<◌, ◌≤◌, List, [], length, drop};
ghost use Rattle.visit_room.specs.declared.names.ActionName.{ActionName as ActionValue};
ghost use Rattle.walk_rules.specs.Steps.{admits, tries, first_stop};
ghost use Rattle.walk_steps.specs.Told.{head_told, heads_told};
ghost use Rattle.walk_steps.specs.Standings.{place_of, IsStop, IsMask, actions_at, mask_place, place_unhit};
ghost use Rattle.walk_steps.specs.Standings.{place_hit};

use crate::course::Stage;
use act_list::ListRun;
use tc_base::Proto;
use visit_room::{HeadRoom, Hit, TableHead};
use walk_rules::Verdict;

/// Whether a table of that protocol takes frames of that EtherType.
#[inline]
pub fn admits(protocol: Proto, ether: u16) -> bool
    ensures { result ≡ admits protocol ether }
{
    match protocol {
        Proto::All => true,
        Proto::Ether(taken) => taken == ether,
    }
}

fn tries(head: &TableHead, chain: u32, ether: u16) -> bool
    ensures { result ≡ tries chain ether (head_told head.now) }
{
    head.chain == chain && admits(head.protocol, ether)
}

/// The first mask of that chain's tables that are tried, among the tables from a place on.
pub(crate) fn first_stop(heads: &HeadRoom, from: usize, chain: u32, ether: u16) -> Stage
    ensures stop { (hit : List ActionValue) → IsStop heads.now.tables hit result }
    ensures place { (hit : List ActionValue) → place_of heads.now.tables hit result
        ≡ first_stop chain ether (heads_told (drop from heads.now.tables)) }
    ensures unhit { (hit : List ActionValue) → actions_at hit result ≡ [] }
{
    let heads = heads.heads();
    let mut table = from;
    while table < heads.len() {
        if tries(&heads[table], chain, ether) && !heads[table].masks.as_slice().is_empty() {
            return Stage::AtMask { table, mask: 0 };
        }
        table += 1;
    }
    Stage::Over(Verdict::Pass)
}

/// The stop after a mask that has no filter for the frame.
pub(crate) fn unhit_stop(heads: &HeadRoom, table: usize, mask: usize, ether: u16) -> Stage
    requires table { table < length heads.now.tables }
    requires mask { IsMask heads.now.tables table mask }
    ensures stop { (hit : List ActionValue) → IsStop heads.now.tables hit result }
    ensures place { (hit : List ActionValue) → place_of heads.now.tables hit result
        ≡ place_unhit ether (mask_place (heads_told (drop table heads.now.tables)) mask) }
    ensures unhit { (hit : List ActionValue) → actions_at hit result ≡ [] }
{
    let head = &heads.heads()[table];
    let masks = head.masks.as_slice();
    if mask + 1 < masks.len() {
        return Stage::AtMask {
            table,
            mask: mask + 1,
        };
    }
    first_stop(heads, table + 1, head.chain, ether)
}

/// The stop after a mask that has a filter with these actions for the frame.
pub(crate) fn hit_stop(heads: &HeadRoom, hit: &Hit, table: usize, mask: usize) -> Stage
    requires table { table < length heads.now.tables }
    requires mask { IsMask heads.now.tables table mask }
    ensures stop { IsStop heads.now.tables hit.now result }
    ensures place { place_of heads.now.tables hit.now result
        ≡ place_hit hit.now (mask_place (heads_told (drop table heads.now.tables)) mask) }
    ensures actions { actions_at hit.now result ≡ hit.now }
{
    let length = hit.actions().len();
    if length == 0 {
        return Stage::Over(Verdict::Pass);
    }
    Stage::AtAction {
        table,
        run: ListRun::start(length as u32),
    }
}

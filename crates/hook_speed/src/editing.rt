//! Filters of one mask come and go.
ghost use Rattle.std.specs.Prelude.{◌≡◌};
ghost use Rattle.pin_store.specs.Calls.{IsSeatOf};

use crate::lines::{Line, apply_all, step_all};
use filter_lists::Lists;
use hook_store_law::HookStore;
use shared_hook::{Desk, make_hook};
use std::alloc::Global;
use std::test::Fail;

// Each filter has this action, so that none is made or let go.
const BEFORE: &[&[u8]] = &[
    b"qdisc add dev eth0 clsact",
    b"actions add action drop index 100",
];

// How many filters stand meanwhile: in a mask of few buckets, and in one of the most buckets, full but for
// the filter that comes and goes.
const FEW: u32 = 15;

const MANY: u32 = 4_095;

// How many filters come and go, each before the next one.
const PAIRS: u32 = 100;

// How often all of that is done in a long test, which so has 10,000 pairs more than a short one.
const OFTEN: u32 = 101;

fn addition(alloc: Global, number: u32) -> Result<Line, Fail> {
    let (high, low) = (number / 256, number % 256);
    let text = format!(in alloc;
        "filter add dev eth0 ingress protocol ip pref 10 handle {number} \
        flower dst_ip 10.0.{high}.{low} action gact index 100"
    )?;
    Line::read(alloc, text.as_bytes())
}

fn removal(alloc: Global, number: u32) -> Result<Line, Fail> {
    let text = format!(in alloc;
        "filter del dev eth0 ingress protocol ip pref 10 handle {number} flower"
    )?;
    Line::read(alloc, text.as_bytes())
}

// The lines up to so many filters.
fn begin(alloc: Global, filters: u32) -> Result<Vec<Line>, Fail> {
    let mut lines = Vec::new(alloc);
    for text in BEFORE {
        lines.push(Line::read(alloc, text)?)?;
    }
    for number in 0..filters {
        lines.push(addition(alloc, number.saturating_add(1))?)?;
    }
    Ok(lines)
}

// Lines in which filters come and go.
fn pairs(alloc: Global) -> Result<Vec<Line>, Fail> {
    let mut lines = Vec::new(alloc);
    for count in 0..PAIRS {
        let number = 10_000 + count;
        lines.push(addition(alloc, number)?)?;
        lines.push(removal(alloc, number)?)?;
    }
    Ok(lines)
}

// Does the lines of a beginning, and then those in which filters come and go so often.
fn step_often(
    lists: &mut Lists,
    beginning: &[Line],
    pairs: &[Line],
    rounds: u32,
) -> Result<(), Fail> {
    step_all(lists, beginning)?;
    for _ in 0..rounds {
        step_all(lists, pairs)?;
    }
    Ok(())
}

fn edit_lists(alloc: Global, filters: u32, rounds: u32) -> Result<(), Fail> {
    let beginning = begin(alloc, filters)?;
    let pairs = pairs(alloc)?;
    let mut lists = Lists::new(alloc);
    let done = step_often(&mut lists, &beginning, &pairs, rounds);
    drop((lists, beginning, pairs));
    done
}

// The same by a desk.
fn edit_often(
    desk: &mut Desk,
    store: &HookStore,
    beginning: &[Line],
    pairs: &[Line],
    rounds: u32,
) -> Result<(), Fail>
    requires store { IsSeatOf store.now desk.old.place }
{
    apply_all(desk, store, beginning)?;
    for _ in 0..rounds {
        apply_all(desk, store, pairs)?;
    }
    Ok(())
}

// All lines are read before the hook is made, so that nothing is left to do when its edits are done.
fn edit_hook(alloc: Global, filters: u32, rounds: u32) -> Result<(), Fail> {
    let beginning = begin(alloc, filters)?;
    let pairs = pairs(alloc)?;
    let (store, mut desk, passes) = make_hook(alloc)?;
    let done = edit_often(&mut desk, &store, &beginning, &pairs, rounds);
    drop((store, desk, passes));
    drop((beginning, pairs));
    done
}

#[test]
fn lists_of_few_once(rt: HostRuntime) -> Result<(), Fail> {
    edit_lists(rt.alloc(), FEW, 1)
}

#[test]
fn lists_of_few_often(rt: HostRuntime) -> Result<(), Fail> {
    edit_lists(rt.alloc(), FEW, OFTEN)
}

#[test]
fn lists_of_many_once(rt: HostRuntime) -> Result<(), Fail> {
    edit_lists(rt.alloc(), MANY, 1)
}

#[test]
fn lists_of_many_often(rt: HostRuntime) -> Result<(), Fail> {
    edit_lists(rt.alloc(), MANY, OFTEN)
}

#[test]
fn hook_of_few_once(rt: HostRuntime) -> Result<(), Fail> {
    edit_hook(rt.alloc(), FEW, 1)
}

#[test]
fn hook_of_few_often(rt: HostRuntime) -> Result<(), Fail> {
    edit_hook(rt.alloc(), FEW, OFTEN)
}

#[test]
fn hook_of_many_once(rt: HostRuntime) -> Result<(), Fail> {
    edit_hook(rt.alloc(), MANY, 1)
}

#[test]
fn hook_of_many_often(rt: HostRuntime) -> Result<(), Fail> {
    edit_hook(rt.alloc(), MANY, OFTEN)
}

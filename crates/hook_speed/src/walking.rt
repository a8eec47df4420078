//! The frames of a gateway walk, where nothing changes.
ghost use Rattle.std.specs.Prelude.{◌≡◌, ◌+◌, ◌<◌, ◌^◌, length, IfOk};
ghost use Rattle.pin_store.specs.Calls.{pin_of, IsInside, IsOutside, IsSeatOf};
ghost use Rattle.desk_parts.specs.Desk.{hook_shape};
ghost use Rattle.walk_steps.specs.Walking.{IsOnWay, progress_of};
ghost use Rattle.hook_speed.specs.Known.{Knows};

use crate::gateway::{FRAMES, RULES};
use crate::lines::{Line, apply_all, step_all};
use classify_walk::walk_still;
use filter_lists::Lists;
use hook_reader::{HookReader, Walking};
use hook_store_law::HookStore;
use plain_walk::PlainWalk;
use shared_hook::{Desk, make_hook};
use std::alloc::Global;
use std::test::Fail;
use tc_base::Hook;
use walk_rules::VISITS_MAX;
use walk_steps::{Progress, Walk};

// The length of a frame.
const LENGTH: usize = 64;

// How many frames walk in a short test and in a long one.
const ONCE: u32 = 80;

const OFTEN: u32 = 880;

fn rules(alloc: Global) -> Result<Vec<Line>, Fail> {
    let mut lines = Vec::new(alloc);
    for text in RULES {
        lines.push(Line::read(alloc, text)?)?;
    }
    Ok(lines)
}

// The frames, at least one.
fn frames(alloc: Global) -> Result<Vec<[u8; LENGTH]>, Fail>
    ensures { IfOk result (λ frames. 0 < length frames.items) }
{
    let mut frames = Vec::new(alloc);
    for begin in FRAMES {
        let mut frame = [0; LENGTH];
        for (byte, given) in frame.iter_mut().zip(begin.iter()) {
            *byte = *given;
        }
        frames.push(frame)?;
    }
    if frames.is_empty() {
        return Err(Fail::new("no frame"));
    }
    Ok(frames)
}

// The frame that comes as the one with a number, of those that come again and again.
fn frame_at(frames: &[[u8; LENGTH]], number: u32) -> &[u8]
    requires { 0 < length frames.now }
    ensures { length result.now ≡ 64 }
{
    &frames[number as usize % frames.len()]
}

fn walk_lists(alloc: Global, count: u32) -> Result<(), Fail> {
    let frames = frames(alloc)?;
    let mut lists = Lists::new(alloc);
    step_all(&mut lists, &rules(alloc)?)?;
    let mut walk = PlainWalk::with_room(alloc)?;
    for number in 0..count {
        walk.run(&lists, Hook::Ingress, frame_at(&frames, number));
    }
    Ok(())
}

fn visit_lists(alloc: Global, count: u32) -> Result<(), Fail> {
    let frames = frames(alloc)?;
    let mut lists = Lists::new(alloc);
    step_all(&mut lists, &rules(alloc)?)?;
    let mut walk = Walk::with_room(alloc)?;
    for number in 0..count {
        walk_still(
            &mut walk,
            &lists,
            0,
            Hook::Ingress,
            frame_at(&frames, number),
        );
    }
    Ok(())
}

// A hook without a qdisc: its store, its desk and the first of its readers.
fn new_hook(alloc: Global) -> Result<(HookStore, Desk, HookReader), Fail>
    ensures shape { IfOk result (λ made. made.0.shape ≡ hook_shape) }
    ensures desk { IfOk result (λ made. IsSeatOf made.0 made.1.place) }
    ensures reader { IfOk result (λ made. IsSeatOf made.0 made.2.place) }
    ensures outside { IfOk result (λ made. IsOutside made.2.place × (pin_of made.2.place ≡ 0)) }
{
    let (store, desk, mut passes) = make_hook(alloc)?;
    match passes.take() {
        Some(reader) => {
            drop(passes);
            Ok((store, desk, reader))
        }
        None => {
            drop((store, desk, passes));
            Err(Fail::new("no reader"))
        }
    }
}

// Makes a visit.
fn step(store: &HookStore, reader: &mut HookReader, walk: &mut Walk) -> Progress
    requires store { IsSeatOf store.now reader.old.place × (store.now.shape ≡ hook_shape) }
    requires inside { IsInside reader.old.place }
    requires going { IsOnWay walk.old.standing }
    requires known { Knows reader.old walk.old }
    ensures store { IsSeatOf store.now reader.new.place }
    ensures inside { IsInside reader.new.place }
    ensures pin { pin_of reader.new.place ≡ pin_of reader.old.place }
    ensures progress { result ≡ progress_of walk.new.standing }
    ensures known { Knows reader.new walk.new }
{
    let mut walking = Walking { store, reader };
    walk.step(&mut walking)
}

// A walk of a frame through the hook of a reader that is inside.
fn visit_all(store: &HookStore, reader: &mut HookReader, walk: &mut Walk, frame: &[u8])
    requires store { IsSeatOf store.now reader.old.place × (store.now.shape ≡ hook_shape) }
    requires inside { IsInside reader.old.place }
    requires frame { length frame.now ≡ 64 }
    ensures store { IsSeatOf store.now reader.new.place }
    ensures inside { IsInside reader.new.place }
    ensures pin { pin_of reader.new.place ≡ pin_of reader.old.place }
{
    walk.begin(Hook::Ingress, frame);
    for _ in 0..VISITS_MAX {
        match step(store, reader, walk) {
            Progress::Going => {}
            Progress::Ended => return,
        }
    }
}

// The same, with going inside and out.
fn walk_once(store: &HookStore, reader: &mut HookReader, walk: &mut Walk, frame: &[u8])
    requires store { IsSeatOf store.now reader.old.place × (store.now.shape ≡ hook_shape) }
    requires outside { IsOutside reader.old.place × (pin_of reader.old.place < 2 ^ 63) }
    requires frame { length frame.now ≡ 64 }
    ensures store { IsSeatOf store.now reader.new.place }
    ensures outside { IsOutside reader.new.place × (pin_of reader.new.place ≡ pin_of reader.old.place + 2) }
{
    reader.enter_walk(store);
    visit_all(store, reader, walk, frame);
    reader.leave_walk(store);
}

// Walks of so many frames.
fn walk_often(
    store: &HookStore,
    reader: &mut HookReader,
    walk: &mut Walk,
    frames: &[[u8; LENGTH]],
    count: u32,
)
    requires store { IsSeatOf store.now reader.old.place × (store.now.shape ≡ hook_shape) }
    requires outside { IsOutside reader.old.place × (pin_of reader.old.place ≡ 0) }
    requires frames { 0 < length frames.now }
{
    for number in 0..count {
        walk_once(store, reader, walk, frame_at(frames, number));
    }
}

// Does the rules, and lets the reader walk behind them.
fn learn_and_walk(
    desk: &mut Desk,
    store: &HookStore,
    rules: &[Line],
    reader: &mut HookReader,
    walk: &mut Walk,
    frames: &[[u8; LENGTH]],
    count: u32,
) -> Result<(), Fail>
    requires store { IsSeatOf store.now desk.old.place × IsSeatOf store.now reader.old.place
        × (store.now.shape ≡ hook_shape) }
    requires outside { IsOutside reader.old.place × (pin_of reader.old.place ≡ 0) }
    requires frames { 0 < length frames.now }
{
    apply_all(desk, store, rules)?;
    let receipt = desk.receipt(store);
    reader.learn(store, receipt);
    walk_often(store, reader, walk, frames, count);
    Ok(())
}

// All memory but the hook's is taken before the hook is made.
fn walk_hook(alloc: Global, count: u32) -> Result<(), Fail> {
    let rules = rules(alloc)?;
    let frames = frames(alloc)?;
    let mut walk = Walk::with_room(alloc)?;
    let (store, mut desk, mut reader) = new_hook(alloc)?;
    let done = learn_and_walk(
        &mut desk,
        &store,
        &rules,
        &mut reader,
        &mut walk,
        &frames,
        count,
    );
    drop((store, desk, reader));
    drop((rules, frames, walk));
    done
}

#[test]
fn walks_of_lists_once(rt: HostRuntime) -> Result<(), Fail> {
    walk_lists(rt.alloc(), ONCE)
}

#[test]
fn walks_of_lists_often(rt: HostRuntime) -> Result<(), Fail> {
    walk_lists(rt.alloc(), OFTEN)
}

#[test]
fn visits_of_lists_once(rt: HostRuntime) -> Result<(), Fail> {
    visit_lists(rt.alloc(), ONCE)
}

#[test]
fn visits_of_lists_often(rt: HostRuntime) -> Result<(), Fail> {
    visit_lists(rt.alloc(), OFTEN)
}

#[test]
fn visits_of_hook_once(rt: HostRuntime) -> Result<(), Fail> {
    walk_hook(rt.alloc(), ONCE)
}

#[test]
fn visits_of_hook_often(rt: HostRuntime) -> Result<(), Fail> {
    walk_hook(rt.alloc(), OFTEN)
}

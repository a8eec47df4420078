//! A reader of a hook's store.

use crate::head_seen::HeadSeen;
use crate::kept_head::KeptHead;
use crate::receipt::HookReceipt;
use crate::slot_points::SlotPoints;
use hook_store_law::{HookLaw, HookStore};
use kept_records::HookRecords;
use pin_store::{Reader, Writer};
use std::alloc::Global;
use std::marker::Model;
use tc_base::{NoMemory, Point};

/// A reader of a hook's store, which answers the questions of walks.
#[derive(Drop)]
pub struct HookReader {
    pub(crate) reader: Reader<HookLaw>,
    pub(crate) visits: u64,
    pub(crate) latest: Point,
    pub(crate) head: Option<HeadSeen>,
    pub(crate) points: SlotPoints,
    pub(crate) ingress: KeptHead,
    pub(crate) egress: KeptHead,
    pub(crate) records: HookRecords,
}

impl Model for HookReader {
    ghost use Rattle.pin_store.specs.Calls.{seen_by};
    ghost use Rattle.hook_reader.specs.Seats.{HookSeat, first_head_of, IsReading};
    ghost use Rattle.hook_reader.specs.KeptHeads.{KeepsHeads};
    ghost use Rattle.kept_records.specs.Keeping.{KeepsRecords};

    ghost Value = { HookSeat };

    ghost view = { λ r. record {
      place = r.reader.place;
      visits = r.visits;
      latest = r.latest;
      head = first_head_of r.head;
      points = r.points;
    } };

    ghost invariant = { λ r. IsReading (record {
      place = r.reader.place;
      visits = r.visits;
      latest = r.latest;
      head = first_head_of r.head;
      points = r.points;
    }) × KeepsHeads (seen_by r.reader.place) r.ingress r.egress
        × KeepsRecords (seen_by r.reader.place) r.records };
}

impl HookReader {
    ghost use Rattle.store_history.specs.declared.places.TheConstants.{MASK_SLOTS};
    ghost use Rattle.std.specs.Prelude.{◌≡◌, ◌+◌, ◌^◌, ◌<◌, [], max, replicate, None, IfOk};
    ghost use mathlib.Core.List.{IsPrefix};
    ghost use Rattle.pin_store.specs.Calls.{seen_by, number_of, pin_of, floor_of, IsInside, IsOutside};
    ghost use Rattle.pin_store.specs.Calls.{IsSeatOf, IsSameReader, sheet_of};

    /// A reader that has made no walk.
    ///
    /// `NoMemory`: memory was refused. No other call takes any.
    pub fn new(alloc: Global, reader: Reader<HookLaw>) -> Result<HookReader, NoMemory>
        requires outside { floor_of reader.place ≡ None }
        ensures place { IfOk result (λ r. r.place ≡ reader.place) }
        ensures visits { IfOk result (λ r. r.visits ≡ 0) }
        ensures latest { IfOk result (λ r. r.latest ≡ 0) }
    {
        Ok(HookReader {
            reader,
            visits: 0,
            latest: 0,
            head: None,
            points: SlotPoints::with_room(alloc)?,
            ingress: KeptHead::with_room(alloc)?,
            egress: KeptHead::with_room(alloc)?,
            records: HookRecords::with_room(alloc)?,
        })
    }

    /// How many visits it has made, at most 2^64 - 1.
    pub fn visits(&self) -> u64
        ensures { result ≡ self.now.visits }
    {
        self.visits
    }

    /// Goes inside, for one walk.
    pub fn enter_walk(&mut self, store: &HookStore)
        requires store { IsSeatOf store.now self.old.place }
        requires outside { IsOutside self.old.place }
        requires few { pin_of self.old.place < 2 ^ 63 }
        ensures store { IsSeatOf store.now self.new.place }
        ensures inside { IsInside self.new.place }
        ensures pin { (number_of self.new.place ≡ number_of self.old.place)
            × (pin_of self.new.place ≡ pin_of self.old.place + 1) }
        ensures longer { IsPrefix (seen_by self.old.place) (seen_by self.new.place) }
        ensures same { (self.new.visits ≡ self.old.visits) × (self.new.latest ≡ self.old.latest) }
        ensures head { self.new.head ≡ None }
        ensures points { self.new.points ≡ replicate MASK_SLOTS 0 }
    {
        let HookReader {
            reader,
            head,
            points,
            ..
        } = self;
        reader.enter(store);
        *head = None;
        points.forget();
    }

    /// Goes outside. What the walk was told is known no more.
    pub fn leave_walk(&mut self, store: &HookStore)
        requires store { IsSeatOf store.now self.old.place }
        requires inside { IsInside self.old.place }
        ensures store { IsSeatOf store.now self.new.place }
        ensures outside { IsOutside self.new.place }
        ensures pin { (number_of self.new.place ≡ number_of self.old.place)
            × (pin_of self.new.place ≡ pin_of self.old.place + 1) }
        ensures seen { seen_by self.new.place ≡ seen_by self.old.place }
        ensures same { (self.new.visits ≡ self.old.visits) × (self.new.latest ≡ self.old.latest) }
    {
        self.reader.leave(store);
    }

    /// Sees all that the receipt has seen, and loses nothing of what it had seen.
    pub fn learn(&mut self, store: &HookStore, receipt: HookReceipt)
        requires store { IsSeatOf store.now self.old.place }
        requires receipt { IsSeatOf store.now receipt.receipt.place }
        requires outside { IsOutside self.old.place }
        ensures store { IsSeatOf store.now self.new.place }
        ensures same { IsSameReader self.old.place self.new.place × (self.new.visits ≡ self.old.visits) }
        ensures longer { IsPrefix (seen_by self.old.place) (seen_by self.new.place) }
        ensures learnt { IsPrefix (seen_by receipt.receipt.place) (seen_by self.new.place) }
        ensures latest { self.new.latest ≡ max self.old.latest receipt.point }
    {
        let HookReader { reader, latest, .. } = self;
        let HookReceipt { receipt, point } = receipt;
        reader.learn(store, receipt);
        *latest = point.max(*latest);
    }

    /// Tells the writer of the store that what the reader has seen is a beginning of all commits, and leaves
    /// both as they are.
    pub fn meet(&mut self, store: &HookStore, writer: &mut Writer<HookLaw>)
        requires store { IsSeatOf store.now self.old.place × IsSeatOf store.now writer.old.place }
        ensures store { IsSeatOf store.now self.new.place × IsSeatOf store.now writer.new.place }
        ensures same { (self.new.place.me ≡ self.old.place.me)
            × (self.new ≡ record self.old { place = self.new.place }) }
        ensures writer { (seen_by writer.new.place ≡ seen_by writer.old.place)
            × (sheet_of writer.new.place ≡ sheet_of writer.old.place) }
        ensures met { IsPrefix (seen_by self.old.place) (seen_by writer.old.place) }
    {
        writer.meet(store, &mut self.reader);
    }
}

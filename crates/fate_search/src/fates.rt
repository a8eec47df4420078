//! The fates that were found of a packet.
ghost use Rattle.std.specs.Prelude.{◌≡◌, ◌++◌, ℕ, List, [], map, OnOk, OnErr};
ghost use Rattle.std.specs.List.{All};
ghost use Rattle.walk_fate_laws.specs.Fates.{same_fate};
ghost use Rattle.fate_search.specs.Found.{kept_bytes, found_with, fate_found, is_known};
ghost use Rattle.fate_search.specs.Kept.{found_in, IsKept};
ghost use Rattle.fate_search.specs.Paths.{points_of};

use crate::branch_points::Branch;
use frame_edit::{Frame, Meta};
use std::alloc::Global;
use std::marker::Model;
use tc_base::{NoMemory, Point};
use walk_rules::Verdict;

/// One of them: its bytes and points lie from one place to another among those of all.
#[derive(Clone, Copy)]
pub(crate) struct KeptFate {
    pub(crate) verdict: Verdict,
    pub(crate) length: usize,
    pub(crate) meta: Meta,
    pub(crate) bytes_from: usize,
    pub(crate) bytes_to: usize,
    pub(crate) points_from: usize,
    pub(crate) points_to: usize,
}

/// The fates of a packet, each once, in the order of their points; and room for those of the next packet.
/// A fate is named by its place, from 0.
#[derive(Drop)]
pub struct Fates {
    kept: Vec<KeptFate>,
    bytes: Vec<u8>,
    points: Vec<Point>,
}

impl Model for Fates {
    ghost use Rattle.std.specs.Prelude.{List, map};
    ghost use Rattle.std.specs.List.{All};
    ghost use Rattle.fate_search.specs.Found.{Found};
    ghost use Rattle.fate_search.specs.Kept.{found_in, IsKept};

    ghost Value = { List Found };

    ghost view = { λ f. map (found_in f.bytes.items f.points.items) f.kept.items };

    ghost invariant = { λ f. All (IsKept f.bytes.items f.points.items) f.kept.items };
}

impl Fates {
    ghost use Rattle.std.specs.Prelude.{◌≡◌, ◌<◌, [], ◌∷◌, ◌++◌, length, OnOk, IfSome};
    ghost use Rattle.std.specs.List.{slice_get};
    ghost use Rattle.fate_search.specs.Found.{Found, found_with, noted};
    ghost use Rattle.fate_search.specs.Paths.{points_of};

    /// None. Nothing is taken yet.
    pub fn new(alloc: Global) -> Fates
        ensures { result ≡ [] }
    {
        Fates {
            kept: Vec::new(alloc),
            bytes: Vec::new(alloc),
            points: Vec::new(alloc),
        }
    }

    /// How many there are.
    pub fn len(&self) -> usize
        ensures { result ≡ length self.now }
    {
        self.kept.len()
    }

    /// What becomes of the packet.
    pub fn verdict(&self, place: usize) -> Verdict
        requires { place < length self.now }
        ensures { IfSome (slice_get self.now place) (λ found. result ≡ found.verdict) }
    {
        self.kept[place].verdict
    }

    /// The length of its frame at the end of the walk, in bytes.
    pub fn length(&self, place: usize) -> usize
        requires { place < length self.now }
        ensures { IfSome (slice_get self.now place) (λ found. result ≡ found.length) }
    {
        self.kept[place].length
    }

    /// The metadata of its frame at the end of the walk.
    pub fn meta(&self, place: usize) -> Meta
        requires { place < length self.now }
        ensures { IfSome (slice_get self.now place) (λ found. result ≡ found.meta) }
    {
        self.kept[place].meta
    }

    /// The bytes of its frame at the end of the walk; none, where the packet is dropped.
    pub fn bytes(&self, place: usize) -> &[u8]
        requires { place < length self.now }
        ensures { IfSome (slice_get self.now place) (λ found. result.now ≡ found.bytes) }
    {
        let kept = self.kept[place];
        &self.bytes[kept.bytes_from..kept.bytes_to]
    }

    /// The points of the first walk with that fate: one for each of its visits, in order.
    pub fn points(&self, place: usize) -> &[Point]
        requires { place < length self.now }
        ensures { IfSome (slice_get self.now place) (λ found. result.now ≡ found.points) }
    {
        let kept = self.kept[place];
        &self.points[kept.points_from..kept.points_to]
    }

    /// Forgets all.
    pub(crate) fn clear(&mut self)
        ensures { self.new ≡ [] }
    {
        self.kept.clear();
        self.bytes.clear();
        self.points.clear();
    }

    /// Puts a fate behind the others, with the points of its way, unless one of them is the same.
    pub(crate) fn note(
        &mut self,
        verdict: Verdict,
        frame: &Frame,
        path: &[Branch],
    ) -> Result<(), NoMemory>
        ensures { OnOk result (self.new ≡ noted self.old (found_with (points_of path.now) verdict frame.now)) }
    {
        if is_among(&self.kept, &self.bytes, verdict, frame) {
            return Ok(());
        }
        self.keep(verdict, frame, path)
    }

    // Puts a fate behind the others.
    fn keep(&mut self, verdict: Verdict, frame: &Frame, path: &[Branch]) -> Result<(), NoMemory>
        ensures { OnOk result (self.new
            ≡ self.old ++ (found_with (points_of path.now) verdict frame.now ∷ [])) }
    {
        let bytes_from = self.bytes.len();
        let points_from = self.points.len();
        push_bytes(&mut self.bytes, verdict, frame.bytes())?;
        push_points(&mut self.points, path)?;
        self.kept.push(KeptFate {
            verdict,
            length: frame.bytes().len(),
            meta: frame.meta(),
            bytes_from,
            bytes_to: self.bytes.len(),
            points_from,
            points_to: self.points.len(),
        })?;
        Ok(())
    }
}

// Puts the bytes of a frame behind others; none, where it is dropped.
fn push_bytes(bytes: &mut Vec<u8>, verdict: Verdict, frame: &[u8]) -> Result<(), NoMemory>
    ensures ok { OnOk result (bytes.new.items ≡ bytes.old.items ++ kept_bytes verdict frame.now) }
    ensures err { OnErr result (bytes.new.items ≡ bytes.old.items) }
{
    if let Verdict::Pass = verdict {
        bytes.extend_from_slice(frame)?;
    }
    Ok(())
}

// Puts the points of a path behind others.
fn push_points(points: &mut Vec<Point>, path: &[Branch]) -> Result<(), NoMemory>
    ensures ok { OnOk result (points.new.items ≡ points.old.items ++ points_of path.now) }
    ensures err { OnErr result ((more : List ℕ) × (points.new.items ≡ points.old.items ++ more)) }
{
    for branch in path {
        points.push(branch.point)?;
    }
    Ok(())
}

// Whether a fate is one of those that are kept.
fn is_among(kept: &[KeptFate], bytes: &[u8], verdict: Verdict, frame: &Frame) -> bool
    requires { (points : List ℕ) × All (IsKept bytes.now points) kept.now }
    ensures { (points : List ℕ) → result
        ≡ is_known (map (found_in bytes.now points) kept.now) (found_with [] verdict frame.now) }
{
    for fate in kept {
        if is_same(fate, bytes, verdict, frame) {
            return true;
        }
    }
    false
}

// Whether a fate that is kept is that of a frame: of what is dropped nothing is left to differ.
fn is_same(fate: &KeptFate, bytes: &[u8], verdict: Verdict, frame: &Frame) -> bool
    requires { (points : List ℕ) × IsKept bytes.now points fate.now }
    ensures { result ≡ same_fate (fate_found (found_with [] verdict frame.now))
        (fate_found (found_in bytes.now [] fate.now)) }
{
    match (verdict, fate.verdict) {
        (Verdict::Drop, Verdict::Drop) => true,
        (Verdict::Pass, Verdict::Pass) => {
            let kept = &bytes[fate.bytes_from..fate.bytes_to];
            frame.meta() == fate.meta && frame.bytes() == kept
        }
        _ => false,
    }
}

ghost use Rattle.std.specs.Prelude.{◌≡◌, ◌==◌, ◌≤◌, ◌<◌, ◌-◌, ◌++◌, ℕ, List, [], length, map, take, drop};
ghost use Rattle.std.specs.Prelude.{◌+◌, slice_get, slice_index_or, vec_capacity, Some, IfOk, IfSome};
ghost use Rattle.std.specs.Prelude.{OnOk, OnErr};
ghost use Rattle.tc_base.specs.declared.pieces.Stretch.{Stretch};
ghost use Rattle.tc_base.specs.Pieces.{joined, piece_of, IsWithin, AreWithin, GoesOn};

use crate::{NoMemory, check_room};
use std::alloc::Global;
use std::marker::Model;

// How many bytes of their own pieces have at most: a stretch has 32 bits.
const OWN_MAX: usize = 4_294_967_295;

// A stretch of the lent bytes, or of the own ones.
#[derive(Clone, Copy)]
struct Stretch {
    start: u32,
    end: u32,
    is_own: bool,
}

/// Bytes in pieces, one behind the other: stretches of bytes that are lent, and bytes of its own. What is put
/// in place of one long piece takes no copy of the lent bytes.
#[derive(Drop)]
pub struct Pieces<'a> {
    lent: &'a [u8],
    own: Vec<u8>,
    stretches: Vec<Stretch>,
}

impl<'a> Model for Pieces<'a> {
    ghost use Rattle.std.specs.Prelude.{map};
    ghost use Rattle.tc_base.specs.Pieces.{BytesInPieces, piece_of, AreWithin};

    ghost Value = { BytesInPieces };

    ghost view = { λ p. record {
      lent = p.lent.now;
      pieces = map (piece_of p.lent.now p.own.items) p.stretches.items;
    } };

    ghost invariant = { λ p. AreWithin p.lent.now p.own.items p.stretches.items };
}

impl<'a> Pieces<'a> {
    /// No piece yet, and bytes of which stretches can be lent. Takes no memory.
    pub fn over(alloc: Global, lent: &'a [u8]) -> Pieces<'a>
        ensures lent { result.lent ≡ lent.now }
        ensures pieces { result.pieces ≡ [] }
    {
        Pieces {
            lent,
            own: Vec::new(alloc),
            stretches: Vec::new(alloc),
        }
    }

    /// Puts a stretch of the lent bytes, from one offset up to another, behind what is there. Where it goes
    /// on from a stretch that was put last, the two are one piece.
    ///
    /// `NoMemory`: memory was refused.
    pub fn lend(&mut self, start: u32, end: u32) -> Result<(), NoMemory>
        requires order { start ≤ end }
        requires within { end ≤ length self.old.lent }
        ensures lent { self.new.lent ≡ self.old.lent }
        ensures ok { OnOk result
            (joined self.new.pieces
            ≡ joined self.old.pieces ++ take (end - start) (drop start self.old.lent)) }
        ensures err { OnErr result (self.new ≡ self.old) }
    {
        let stretch = Stretch {
            start,
            end,
            is_own: false,
        };
        self.stretches.reserve(1)?;
        lay(&mut self.stretches, stretch);
        Ok(())
    }

    /// Puts a copy of these bytes behind what is there. Refused, all stays as it was. Copies that come to
    /// 4 GiB together are refused as want of memory.
    pub fn push(&mut self, bytes: &[u8]) -> Result<(), NoMemory>
        ensures lent { self.new.lent ≡ self.old.lent }
        ensures ok { OnOk result (joined self.new.pieces ≡ joined self.old.pieces ++ bytes.now) }
        ensures err { OnErr result (self.new ≡ self.old) }
    {
        let start = self.own.len();
        let end = start.saturating_add(bytes.len());
        check_room(end, OWN_MAX)?;
        // Room for the stretch comes first: then nothing can fail once the bytes are there.
        self.stretches.reserve(1)?;
        self.own.extend_from_slice(bytes)?;
        let stretch = Stretch {
            start: start as u32,
            end: end as u32,
            is_own: true,
        };
        lay(&mut self.stretches, stretch);
        Ok(())
    }

    /// How many pieces there are.
    pub fn len(&self) -> usize
        ensures { result ≡ length self.now.pieces }
    {
        self.stretches.len()
    }

    /// Whether there is no piece.
    pub fn is_empty(&self) -> bool
        ensures { result ≡ (length self.now.pieces == 0) }
    {
        self.stretches.is_empty()
    }

    /// One piece, counted from 0.
    pub fn piece(&self, index: usize) -> &[u8]
        requires { index < length self.now.pieces }
        ensures { slice_get self.now.pieces index ≡ Some result.now }
    {
        let stretch = self.stretches[index];
        let bytes = if stretch.is_own {
            self.own.as_slice()
        } else {
            self.lent
        };
        &bytes[stretch.start as usize..stretch.end as usize]
    }

    /// A copy of all pieces, joined.
    ///
    /// `NoMemory`: memory was refused.
    pub fn joined(&self) -> Result<Vec<u8>, NoMemory>
        ensures { IfOk result (λ bytes. bytes.items ≡ joined self.now.pieces) }
    {
        let mut bytes = Vec::new(*self.own.allocator());
        for index in 0..self.len() {
            bytes.extend_from_slice(self.piece(index))?;
        }
        Ok(bytes)
    }
}

// Puts a stretch behind the others. Where it goes on from the last one, that one becomes longer.
fn lay(stretches: &mut Vec<Stretch>, stretch: Stretch)
    requires room { length stretches.old.items < vec_capacity stretches.old }
    ensures within { (lent own : List ℕ) → AreWithin lent own stretches.old.items → IsWithin lent own stretch
        → AreWithin lent own stretches.new.items }
    ensures joined { (lent own : List ℕ) → AreWithin lent own stretches.old.items → IsWithin lent own stretch
        → joined (map (piece_of lent own) stretches.new.items)
        ≡ joined (map (piece_of lent own) stretches.old.items) ++ piece_of lent own stretch }
{
    match place_before(stretches, stretch) {
        Some(last) => stretches[last].end = stretch.end,
        None => stretches.push_reserved(stretch),
    }
}

// The place of the last stretch, if this one goes on from it.
fn place_before(stretches: &[Stretch], stretch: Stretch) -> Option<usize>
    ensures last { IfSome result (λ at. at + 1 ≡ length stretches.now) }
    ensures goes_on { IfSome result (λ at. (default : Stretch)
        → GoesOn (slice_index_or stretches.now at default) stretch) }
{
    let last = stretches.len().checked_sub(1)?;
    let before = stretches[last];
    if before.is_own != stretch.is_own || before.end != stretch.start {
        return None;
    }
    Some(last)
}

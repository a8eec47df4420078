//! The slots in which a digest stands.
ghost use Rattle.std.specs.Prelude.{◌≡◌, ◌<◌, ◌≤◌, ◌+◌, ◌++◌, ◌∷◌, [], ℕ, length, get_or, slice_set, nat_le};
ghost use Rattle.std.specs.Prelude.{Some, None, IsOk, IfOk, OnOk, IfSome, IfNone, true, false};
ghost use Rattle.filter_index.specs.Chains.{passes, last_of, is_digest, chain_of, is_on, AreLinked, IsBehind};

use std::alloc::Global;
use std::marker::Model;
use tc_base::{NoMemory, check_room};

// For how many slots there are chains at most (this project's own): the number of a slot has 32 bits.
const SLOTS_MAX: usize = 1 << 30;

/// The digest in each slot, if one is there, and the slots of a digest, from the last to the first.
#[derive(Drop)]
pub(crate) struct Chains {
    // The last slot of each chain, counted from 1; 0 where the chain is empty.
    heads: Vec<u32>,
    digests: Vec<Option<u64>>,
    // For each slot with a digest the one before it on its chain, counted from 1; 0 where there is none.
    nexts: Vec<u32>,
}

impl Model for Chains {
    ghost use Rattle.std.specs.Prelude.{◌-◌, length, min, vec_capacity};
    ghost use Rattle.filter_index.specs.Chains.{ChainRoom, AreLinked};

    ghost Value = { ChainRoom };

    ghost view = { λ c. record {
      digests = c.digests.items;
      spare = min (length c.heads.items - length c.digests.items)
          (min (vec_capacity c.digests - length c.digests.items)
          (vec_capacity c.nexts - length c.nexts.items));
      slots = length c.heads.items;
    } };

    ghost invariant = { λ c. AreLinked (length c.heads.items) c.heads.items c.digests.items c.nexts.items };
}

impl Chains {
    /// No slots. It takes no memory yet.
    pub(crate) fn new(alloc: Global) -> Chains
        ensures { result.digests ≡ [] }
    {
        Chains {
            heads: Vec::new(alloc),
            digests: Vec::new(alloc),
            nexts: Vec::new(alloc),
        }
    }

    /// No slots, and room for so many.
    pub(crate) fn with_room(alloc: Global, room: usize) -> Result<Chains, NoMemory>
        ensures digests { IfOk result (λ c. c.digests ≡ []) }
        ensures room { IfOk result (λ c. room ≤ c.spare) }
    {
        check_room(room, SLOTS_MAX)?;
        Ok(Chains {
            heads: vec![in alloc; 0u32; room.next_power_of_two()]?,
            digests: Vec::with_capacity(alloc, room)?,
            nexts: Vec::with_capacity(alloc, room)?,
        })
    }

    /// Whether each slot that there are chains for is taken.
    pub(crate) fn is_full(&self) -> bool
        ensures full { result ≡ nat_le self.now.slots (length self.now.digests) }
        ensures spare { result ≡ true → self.now.spare ≡ 0 }
    {
        self.heads.len() <= self.digests.len()
    }

    /// Makes room for one slot more among those that there are chains for, of which one isn't taken, and
    /// changes nothing else.
    ///
    /// `NoMemory`: there was no room, and memory was refused.
    pub(crate) fn reserve(&mut self) -> Result<(), NoMemory>
        requires free { nat_le self.old.slots (length self.old.digests) ≡ false }
        ensures digests { self.new.digests ≡ self.old.digests }
        ensures room { OnOk result (0 < self.new.spare) }
        ensures spare { self.old.spare ≤ self.new.spare }
        ensures enough { 0 < self.old.spare → IsOk result }
    {
        self.digests.reserve(1)?;
        self.nexts.reserve(1)?;
        Ok(())
    }

    /// Puts a digest into a slot behind the others. It takes no memory.
    pub(crate) fn push(&mut self, digest: u64)
        requires { 0 < self.old.spare }
        ensures digests { self.new.digests ≡ self.old.digests ++ Some digest ∷ [] }
        ensures spare { self.old.spare ≤ self.new.spare + 1 }
    {
        let chain = chain(digest, self.heads.len());
        let before = self.heads[chain];
        let number = self.digests.len() as u32 + 1;
        self.nexts.push_reserved(before);
        self.digests.push_reserved(Some(digest));
        self.heads[chain] = number;
    }

    /// The last slot that has the digest, counted from 1; 0 where none has it.
    #[inline]
    pub(crate) fn last(&self, digest: u64) -> u32
        ensures { result ≡ last_of (is_digest digest) self.now.digests (length self.now.digests) }
    {
        if self.heads.is_empty() {
            return 0;
        }
        let from = self.heads[chain(digest, self.heads.len())];
        skip(&self.heads, &self.digests, &self.nexts, digest, from)
    }

    /// The last slot before that one, of the same digest, counted from 1; 0 where there is none.
    #[inline]
    pub(crate) fn before(&self, digest: u64, slot: usize) -> u32
        requires { get_or self.now.digests slot None ≡ Some digest }
        ensures { result ≡ last_of (is_digest digest) self.now.digests slot }
    {
        skip(
            &self.heads,
            &self.digests,
            &self.nexts,
            digest,
            self.nexts[slot],
        )
    }

    /// Empties the slot, which has that digest. It takes no memory.
    pub(crate) fn remove(&mut self, digest: u64, slot: usize)
        requires { get_or self.old.digests slot None ≡ Some digest }
        ensures digests { self.new.digests ≡ slice_set self.old.digests slot None }
        ensures spare { self.new.spare ≡ self.old.spare }
    {
        let chain = chain(digest, self.heads.len());
        let before = self.nexts[slot];
        let behind = behind(&self.heads, &self.digests, &self.nexts, chain, slot);
        self.digests[slot] = None;
        match behind {
            None => self.heads[chain] = before,
            Some(next) => self.nexts[next] = before,
        }
    }
}

// The last slot of the digest, from that slot of its chain on.
#[inline]
fn skip(heads: &[u32], digests: &[Option<u64>], nexts: &[u32], digest: u64, from: u32) -> u32
    requires linked { AreLinked (length heads.now) heads.now digests.now nexts.now }
    requires there { from ≤ length digests.now }
    requires chain { from ≡ last_of (is_on (length heads.now) (chain_of (length heads.now) digest))
        digests.now from }
    ensures { result ≡ last_of (is_digest digest) digests.now from }
{
    let mut at = from;
    while at != 0 {
        let slot = (at - 1) as usize;
        if digests[slot] == Some(digest) {
            return at;
        }
        at = nexts[slot];
    }
    0
}

// The slot right behind that one on its chain, if it isn't the last.
fn behind(
    heads: &[u32],
    digests: &[Option<u64>],
    nexts: &[u32],
    chain: usize,
    slot: usize,
) -> Option<usize>
    requires linked { AreLinked (length heads.now) heads.now digests.now nexts.now }
    requires chain { chain < length heads.now }
    requires there { slot < length digests.now }
    requires on { passes (is_on (length heads.now) chain) (get_or digests.now slot None) ≡ true }
    ensures none { IfNone result
        (last_of (is_on (length heads.now) chain) digests.now (length digests.now) ≡ slot + 1) }
    ensures some { IfSome result (IsBehind (is_on (length heads.now) chain) digests.now slot) }
{
    let number = slot as u32 + 1;
    let mut at = heads[chain];
    if at == number {
        return None;
    }
    while nexts[(at - 1) as usize] != number {
        at = nexts[(at - 1) as usize];
    }
    Some((at - 1) as usize)
}

// Which of so many chains the digest belongs to.
#[inline]
fn chain(digest: u64, size: usize) -> usize
    requires { 0 < size }
    ensures chain { result ≡ chain_of size digest }
    ensures within { result < size }
{
    (digest >> 32) as usize & (size - 1)
}

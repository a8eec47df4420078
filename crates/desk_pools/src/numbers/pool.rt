//! The numbers of a pool.

use std::alloc::Global;
use std::marker::Model;
use tc_base::NoMemory;

/// Of the numbers below a size those that are free, and those that left.
#[derive(Drop)]
pub struct Pool {
    size: u32,
    // The last one is given next.
    free: Vec<u32>,
    left: Vec<u32>,
}

impl Model for Pool {
    ghost use Rattle.std.specs.Prelude.{◌+◌, ◌<◌, ◌≤◌, ◌^◌, length, vec_capacity};
    ghost use Rattle.desk_pools.specs.OfNumbers.Numbers.{PoolNumbers};

    ghost Value = { PoolNumbers };

    ghost view = { λ p. record { size = p.size; free = p.free.items; left = p.left.items } };

    ghost invariant = { λ p. (length p.free.items + length p.left.items ≤ p.size) × (p.size < 2 ^ 32)
        × (p.size ≤ vec_capacity p.free) × (p.size ≤ vec_capacity p.left) };
}

impl Pool {
    ghost use Rattle.std.specs.Prelude.{◌≡◌, ◌<◌, ◌≤◌, ◌+◌, ◌++◌, ◌∷◌, [], length, vec_capacity, IfOk};
    ghost use Rattle.std.specs.List.{range_with_len};

    /// All numbers from 0 on below the size, free.
    ///
    /// `NoMemory`: memory was refused.
    pub fn with_size(alloc: Global, size: u32) -> Result<Pool, NoMemory>
        ensures size { IfOk result (λ p. p.size ≡ size) }
        ensures free { IfOk result (λ p. p.free ≡ range_with_len 0 size) }
        ensures left { IfOk result (λ p. p.left ≡ []) }
    {
        let mut free = Vec::with_capacity(alloc, size as usize)?;
        for number in 0..size {
            free.push_reserved(number);
        }
        Ok(Pool {
            size,
            free,
            left: Vec::with_capacity(alloc, size as usize)?,
        })
    }

    /// How many numbers are free.
    pub fn free(&self) -> u32
        ensures { result ≡ length self.now.free }
    {
        self.free.len() as u32
    }

    /// How many numbers left and aren't free.
    pub fn left(&self) -> u32
        ensures { result ≡ length self.now.left }
    {
        self.left.len() as u32
    }

    /// The numbers that left and aren't free, in the order in which they left.
    pub fn gone(&self) -> &[u32]
        ensures { result.now ≡ self.now.left }
    {
        &self.left
    }

    /// Gives a free number.
    pub fn take(&mut self) -> u32
        requires { 0 < length self.old.free }
        ensures free { self.old.free ≡ self.new.free ++ result ∷ [] }
        ensures left { self.new.left ≡ self.old.left }
        ensures size { self.new.size ≡ self.old.size }
        ensures room { length self.new.free + length self.new.left < self.new.size }
    {
        self.free.take_last()
    }

    /// Gives so many free numbers at once, into an empty list that has room for them.
    pub fn take_some(&mut self, count: u32, into: &mut Vec<u32>)
        requires enough { count ≤ length self.old.free }
        requires empty { into.old.items ≡ [] }
        requires capacity { count ≤ vec_capacity into.old }
        ensures free { self.old.free ≡ self.new.free ++ into.new.items }
        ensures count { length into.new.items ≡ count }
        ensures left { self.new.left ≡ self.old.left }
        ensures size { self.new.size ≡ self.old.size }
    {
        let rest = self.free.len() - count as usize;
        match into.extend_from_slice(&self.free[rest..]) {
            Ok(()) => {}
            Err(_) => unreachable!(),
        }
        self.free.truncate(rest);
    }

    /// A number that was given leaves.
    pub fn leave(&mut self, number: u32)
        requires { length self.old.free + length self.old.left < self.old.size }
        ensures free { self.new.free ≡ self.old.free }
        ensures left { self.new.left ≡ self.old.left ++ number ∷ [] }
        ensures size { self.new.size ≡ self.old.size }
    {
        self.left.push_reserved(number);
    }

    /// Numbers that were given leave, one behind the other.
    pub fn leave_some(&mut self, numbers: &[u32])
        requires { length self.old.free + length self.old.left + length numbers.now ≤ self.old.size }
        ensures free { self.new.free ≡ self.old.free }
        ensures left { self.new.left ≡ self.old.left ++ numbers.now }
        ensures size { self.new.size ≡ self.old.size }
    {
        match self.left.extend_from_slice(numbers) {
            Ok(()) => {}
            Err(_) => unreachable!(),
        }
    }

    /// All that left is free.
    pub fn free_all(&mut self)
        ensures free { self.new.free ≡ self.old.free ++ self.old.left }
        ensures left { self.new.left ≡ [] }
        ensures size { self.new.size ≡ self.old.size }
    {
        let Pool { free, left, .. } = self;
        for at in 0..left.len() {
            free.push_reserved(left[at]);
        }
        left.clear();
    }
}

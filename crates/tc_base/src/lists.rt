//! Lists that contracts see as lists, so that a struct of them is plain data in a clause.
//! Each is made from a `Vec`, which takes no memory.
ghost use Rattle.std.specs.Prelude.{◌≡◌, ℕ, List};

use std::marker::Model;

/// A list of bytes.
#[derive(Drop, Debug)]
pub struct Bytes {
    items: Vec<u8>,
}

impl Model for Bytes {
    ghost Value = { List ℕ };

    ghost view = { λ b. b.items.items };
}

impl Bytes {
    /// The list of these items.
    pub fn from_vec(items: Vec<u8>) -> Self
        ensures { result ≡ items.items }
    {
        Bytes { items }
    }

    /// The items, in order.
    pub fn as_slice(&self) -> &[u8]
        ensures { result.now ≡ self.now }
    {
        &self.items
    }
}

/// A list of numbers.
#[derive(Drop, Debug)]
pub struct Numbers {
    items: Vec<u32>,
}

impl Model for Numbers {
    ghost Value = { List ℕ };

    ghost view = { λ n. n.items.items };
}

impl Numbers {
    /// The list of these items.
    pub fn from_vec(items: Vec<u32>) -> Self
        ensures { result ≡ items.items }
    {
        Numbers { items }
    }

    /// The items, in order.
    pub fn as_slice(&self) -> &[u32]
        ensures { result.now ≡ self.now }
    {
        &self.items
    }
}

/// A list of pairs of numbers.
#[derive(Drop, Debug)]
pub struct Pairs {
    items: Vec<(u32, u32)>,
}

impl Model for Pairs {
    ghost Value = { List (ℕ × ℕ) };

    ghost view = { λ p. p.items.items };
}

impl Pairs {
    /// The list of these items.
    pub fn from_vec(items: Vec<(u32, u32)>) -> Self
        ensures { result ≡ items.items }
    {
        Pairs { items }
    }

    /// The items, in order.
    pub fn as_slice(&self) -> &[(u32, u32)]
        ensures { result.now ≡ self.now }
    {
        &self.items
    }
}

/// A list of files' contents. In a clause it is a list of lists of bytes.
#[derive(Drop, Debug)]
pub struct Files {
    items: Vec<Bytes>,
}

impl Model for Files {
    ghost Value = { List (List ℕ) };

    ghost view = { λ f. f.items.items };
}

impl Files {
    /// The list of these items.
    pub fn from_vec(items: Vec<Bytes>) -> Self
        ensures { result ≡ items.items }
    {
        Files { items }
    }

    /// The items, in order.
    pub fn as_slice(&self) -> &[Bytes]
        ensures { result.now ≡ self.now }
    {
        &self.items
    }
}

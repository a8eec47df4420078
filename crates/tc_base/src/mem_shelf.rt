ghost use Rattle.std.specs.Prelude.{◌≡◌, ◌≢◌, ◌≤◌, ◌↔◌, List, [], ◌∷◌, ◌++◌, ℕ, Some};
ghost use Rattle.std.specs.Prelude.{None, IsErrOf, IsTrue, OnOk, OnErr};
ghost use Rattle.std.specs.Option.{option_map};
ghost use Rattle.tc_base.specs.Counts.{one_more, count_after_fetch, name_after_fetch, count_after_put};
ghost use Rattle.tc_base.specs.Outside.{Fetched, FetchCounts, OthersStay, Stands, PutCounts};
ghost use Rattle.tc_base.specs.Outside.{FetchAsks, AsksFor, AppendsUpTo};
ghost use Rattle.tc_base.specs.MemShelf.{held_in, held_of, calls_of, fails_of, read_faults_of};
ghost use Rattle.tc_base.specs.MemShelf.{write_faults_of, failed_name_of, fails_next, FetchAnswers};
ghost use Rattle.tc_base.specs.MemShelf.{CountsStay, names_in, fetched_of, put_names_of};
ghost use Rattle.tc_base.specs.Pieces.{joined};

use crate::calls::Calls;
use crate::faults::Faults;
use crate::{Fetch, NoMemory, Numbers, Pieces, Put, Shelf};
use std::alloc::{AllocError, Global};
use std::collections::BTreeMap;

/// A shelf in memory, which tells all that it holds and fails where it is told to.
///
/// `fetch`, `put` and `put_pieces` are numbered together from 1, each as soon as it is called, also where it
/// then wants memory. `insert` and `get` have no number and never fail. A call whose number is
/// listed is answered `Failed`, unless a fetch first wants memory for the copy of its name. It keeps the
/// names that it was asked for, apart for fetches and for puts.
#[derive(Drop)]
pub struct MemShelf {
    alloc: Global,
    files: BTreeMap<String, Vec<u8>>,
    calls: Calls,
    faults: Faults,
    fetched: Vec<String>,
    put: Vec<String>,
}

impl MemShelf {
    /// A shelf that holds nothing. `fails` lists the numbers of the calls that are to fail.
    pub fn new(alloc: Global, fails: Numbers) -> Self
        ensures held { (name : List ℕ) → held_of result name ≡ None }
        ensures calls { calls_of result ≡ 0 }
        ensures fails { fails_of result ≡ fails }
        ensures read_faults { read_faults_of result ≡ 0 }
        ensures write_faults { write_faults_of result ≡ 0 }
        ensures failed_name { failed_name_of result ≡ None }
        ensures fetched { fetched_of result ≡ [] }
        ensures put_names { put_names_of result ≡ [] }
    {
        MemShelf {
            alloc,
            files: BTreeMap::new(alloc),
            calls: Calls::new(fails),
            faults: Faults::new(),
            fetched: Vec::new(alloc),
            put: Vec::new(alloc),
        }
    }

    /// Holds these bytes under the name, in place of any others. It is no call that can fail by its
    /// number.
    ///
    /// `NoMemory`: memory was refused, and every name holds what it held.
    pub fn insert(&mut self, name: &str, bytes: &[u8]) -> Result<(), NoMemory>
        ensures stands { OnOk result (held_of self.new name.now ≡ Some bytes.now) }
        ensures others { (other : List ℕ) → other ≢ name.now
            → held_of self.new other ≡ held_of self.old other }
        ensures err { OnErr result (held_of self.new ≡ held_of self.old) }
        ensures counts { CountsStay self.old self.new }
    {
        Ok(store(self.alloc, &mut self.files, name, bytes)?)
    }

    // Counts a put that failed, and keeps its name where there is memory for it.
    fn put_failed(&mut self, name: &str) -> Put
        ensures answer { result ≡ Put.Failed }
        ensures put_names { AppendsUpTo (Some (put_names_of self.old)) (Some (put_names_of self.new))
            (name.now ∷ []) }
        ensures write_faults { write_faults_of self.new ≡ one_more (write_faults_of self.old) }
        ensures later { write_faults_of self.old ≤ write_faults_of self.new }
        ensures read_faults { read_faults_of self.new ≡ read_faults_of self.old }
        ensures failed_name { failed_name_of self.new ≡ failed_name_of self.old }
        ensures files { self.new.files ≡ self.old.files }
        ensures fetched { self.new.fetched ≡ self.old.fetched }
        ensures calls { self.new.calls ≡ self.old.calls }
    {
        let _ = note(self.alloc, &mut self.put, name);
        self.faults.put_failed()
    }

    /// The bytes under the name.
    pub fn get(&self, name: &str) -> Option<&[u8]>
        ensures { option_map (λ bytes. bytes.now) result ≡ held_of self.now name.now }
    {
        match self.files.get(name) {
            None => None,
            Some(bytes) => Some(bytes.as_slice()),
        }
    }
}

impl Shelf for MemShelf {
    ghost held = { λ s. Some (held_of s) };

    ghost read_faults = { read_faults_of };

    ghost failed_name = { failed_name_of };

    ghost write_faults = { write_faults_of };

    ghost fetched = { λ s. Some (fetched_of s) };

    ghost put_names = { λ s. Some (put_names_of s) };

    fn fetch(&mut self, name: &str) -> Result<Vec<u8>, Fetch>
        ensures bytes { Fetched (Some (held_of self.old)) name.now result }
        ensures held { held_of self.new ≡ held_of self.old }
        ensures counts { FetchCounts (read_faults_of self.old) (read_faults_of self.new)
            (failed_name_of self.old) (failed_name_of self.new) name.now result }
        ensures write_faults { write_faults_of self.new ≡ write_faults_of self.old }
        ensures fetched { FetchAsks (Some (fetched_of self.old)) (Some (fetched_of self.new)) name.now result }
        ensures put_names { put_names_of self.new ≡ put_names_of self.old }

        // When each answer comes, and what it does to the counts.
        ensures answer { FetchAnswers (fails_next self.old) (held_of self.old name.now) result }
        ensures read_faults { read_faults_of self.new ≡ count_after_fetch (read_faults_of self.old) result }
        ensures failed_name { failed_name_of self.new
            ≡ name_after_fetch (failed_name_of self.old) name.now result }
        ensures calls { calls_of self.new ≡ one_more (calls_of self.old) }
        ensures fails { fails_of self.new ≡ fails_of self.old }
    {
        let fails = self.calls.next_fails();
        note(self.alloc, &mut self.fetched, name)?;
        let copy = String::from_str(self.alloc, name)?;
        if fails {
            return Err(self.faults.fetch_failed(copy));
        }
        match self.files.get(name) {
            None => Err(Fetch::Missing),
            Some(bytes) => Ok(bytes.to_vec(self.alloc)?),
        }
    }

    fn put(&mut self, name: &str, bytes: &[u8]) -> Result<(), Put>
        ensures stands { OnOk result (Stands (Some (held_of self.new)) name.now bytes.now) }
        ensures others { OthersStay (Some (held_of self.old)) (Some (held_of self.new)) name.now }
        ensures counts { PutCounts (write_faults_of self.old) (write_faults_of self.new) result }
        ensures read_faults { read_faults_of self.new ≡ read_faults_of self.old }
        ensures failed_name { failed_name_of self.new ≡ failed_name_of self.old }
        ensures fetched { fetched_of self.new ≡ fetched_of self.old }
        ensures put_names { AsksFor (Some (put_names_of self.old)) (Some (put_names_of self.new))
            (name.now ∷ []) result }

        // When it fails, and what an error leaves.
        ensures failed { IsErrOf result Put.Failed ↔ IsTrue (fails_next self.old) }
        ensures err { OnErr result (held_of self.new ≡ held_of self.old) }
        ensures write_faults { write_faults_of self.new ≡ count_after_put (write_faults_of self.old) result }
        ensures calls { calls_of self.new ≡ one_more (calls_of self.old) }
        ensures fails { fails_of self.new ≡ fails_of self.old }
    {
        if self.calls.next_fails() {
            return Err(self.put_failed(name));
        }
        note(self.alloc, &mut self.put, name)?;
        Ok(store(self.alloc, &mut self.files, name, bytes)?)
    }

    fn put_pieces(&mut self, name: &str, pieces: &Pieces<'_>) -> Result<(), Put>
        ensures stands { OnOk result (Stands (Some (held_of self.new)) name.now (joined pieces.now.pieces)) }
        ensures others { OthersStay (Some (held_of self.old)) (Some (held_of self.new)) name.now }
        ensures counts { PutCounts (write_faults_of self.old) (write_faults_of self.new) result }
        ensures read_faults { read_faults_of self.new ≡ read_faults_of self.old }
        ensures failed_name { failed_name_of self.new ≡ failed_name_of self.old }
        ensures fetched { fetched_of self.new ≡ fetched_of self.old }
        ensures put_names { AsksFor (Some (put_names_of self.old)) (Some (put_names_of self.new))
            (name.now ∷ []) result }

        // It is numbered as a put, and fails as one.
        ensures failed { IsErrOf result Put.Failed ↔ IsTrue (fails_next self.old) }
        ensures err { OnErr result (held_of self.new ≡ held_of self.old) }
        ensures write_faults { write_faults_of self.new ≡ count_after_put (write_faults_of self.old) result }
        ensures calls { calls_of self.new ≡ one_more (calls_of self.old) }
        ensures fails { fails_of self.new ≡ fails_of self.old }
    {
        if self.calls.next_fails() {
            return Err(self.put_failed(name));
        }
        note(self.alloc, &mut self.put, name)?;
        let bytes = pieces.joined()?;
        Ok(store(self.alloc, &mut self.files, name, &bytes)?)
    }
}

// Puts a copy of the bytes under a copy of the name. Both copies come first, so that an error
// leaves the map as it was.
fn store(
    alloc: Global,
    files: &mut BTreeMap<String, Vec<u8>>,
    name: &str,
    bytes: &[u8],
) -> Result<(), AllocError>
    ensures stands { OnOk result (held_in files.new name.now ≡ Some bytes.now) }
    ensures others { (other : List ℕ) → other ≢ name.now → held_in files.new other ≡ held_in files.old other }
    ensures err { OnErr result (held_in files.new ≡ held_in files.old) }
{
    let key = String::from_str(alloc, name)?;
    let copy = bytes.to_vec(alloc)?;
    files.insert(key, copy)?;
    Ok(())
}

// Notes a name behind the others.
fn note(alloc: Global, names: &mut Vec<String>, name: &str) -> Result<(), AllocError>
    ensures noted { OnOk result (names_in names.new ≡ names_in names.old ++ (name.now ∷ [])) }
    ensures err { OnErr result (names_in names.new ≡ names_in names.old) }
{
    let copy = String::from_str(alloc, name)?;
    names.push(copy)?;
    Ok(())
}

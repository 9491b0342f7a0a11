// A store in memory whose failures are planned.
ghost use Rattle.std.specs.Prelude.{◌≡◌, ◌+◌, [], ◌∷◌, OnOk, OnErr, Some};
ghost use Rattle.std.specs.Option.{option_map};
ghost use Rattle.std.specs.FinMap.{get, insert, empty};
ghost use Rattle.dsc_base.specs.InMemory.{Reads, Writes, called};

use super::file_map::FileMap;
use super::planned::{Planned, count_call, first_bytes, next_failure};
use super::store::{GetFault, PutFault, Store};
use crate::NoMemory;
use std::alloc::Global;
use std::marker::Model;

/// Keeps its files in memory, tells them, and fails where it was told to.
#[derive(Drop)]
pub struct MemStore {
    alloc: Global,
    files: FileMap,
    planned: Vec<Planned>,
    get_faults: u64,
    put_faults: u64,
}

impl Model for MemStore {
    ghost use Rattle.dsc_base.specs.InMemory.{StoreState, store_code};

    ghost Value = { StoreState };

    ghost coded = { store_code };

    ghost view = { λ s. record { files = s.files; planned = s.planned.items; get_faults = s.get_faults; put_faults = s.put_faults } };
}

impl MemStore {
    /// A store with no files and no planned failure.
    pub fn new(alloc: Global) -> MemStore
        ensures { result ≡ record { files = empty; planned = []; get_faults = 0; put_faults = 0 } }
    {
        MemStore {
            alloc,
            files: FileMap::new(alloc),
            planned: Vec::new(alloc),
            get_faults: 0,
            put_faults: 0,
        }
    }

    /// Plans a failure: of the gets and puts from now on, counted together from 0, the one with the
    /// number `call` fails. A put that fails so leaves the first `taken` bytes at its name. Where two
    /// plans fall on one call, the later one counts. At `NoMemory` nothing is planned.
    pub fn fail_at(&mut self, call: u32, taken: u64) -> Result<(), NoMemory>
        ensures ok { OnOk result (self.new ≡ record self.old { planned = record { turn = call + 1; taken = taken } ∷ self.old.planned }) }
        ensures err { OnErr result (self.new ≡ self.old) }
    {
        let turn = u64::from(call) + 1;
        self.planned.insert(0, Planned { turn, taken })?;
        Ok(())
    }

    /// Puts a file there without counting a call. At `NoMemory` nothing has changed.
    pub fn insert(&mut self, name: &str, bytes: Vec<u8>) -> Result<(), NoMemory>
        ensures ok { OnOk result (self.new ≡ record self.old { files = insert self.old.files name.now bytes.items }) }
        ensures err { OnErr result (self.new ≡ self.old) }
    {
        self.files.insert(self.alloc, name, bytes)
    }

    /// Puts the bytes there and counts the call.
    fn write(&mut self, name: &str, bytes: &[u8]) -> Result<(), NoMemory>
        ensures ok { OnOk result (self.new ≡ record (called self.old) { files = insert self.old.files name.now bytes.now }) }
        ensures err { OnErr result (self.new ≡ self.old) }
    {
        let copy = Vec::from_slice(self.alloc, bytes)?;
        self.insert(name, copy)?;
        count_call(&mut self.planned);
        Ok(())
    }

    /// The bytes at the name, without counting a call.
    pub fn file(&self, name: &str) -> Option<&[u8]>
        ensures { option_map (λ bytes. bytes.now) result ≡ get self.now.files name.now }
    {
        self.files.get(name)
    }
}

impl Store for MemStore {
    ghost files = { λ s. Some s.files };

    ghost get_faults = { λ s. s.get_faults };

    ghost put_faults = { λ s. s.put_faults };

    fn get(&mut self, alloc: Global, name: &str, limit: u64) -> Result<Vec<u8>, GetFault>
        ensures { Reads self.old name.now limit result self.new }
    {
        if next_failure(&self.planned).is_some() {
            count_call(&mut self.planned);
            self.get_faults = self.get_faults.saturating_add(1);
            return Err(GetFault::Failed);
        }
        let answer = self.files.read(alloc, name, limit);
        if answer != Err(GetFault::Memory) {
            count_call(&mut self.planned);
        }
        answer
    }

    fn put(&mut self, _alloc: Global, name: &str, bytes: &[u8]) -> Result<(), PutFault>
        ensures { Writes self.old name.now bytes.now result self.new }
    {
        let Some(taken) = next_failure(&self.planned) else {
            return Ok(self.write(name, bytes)?);
        };
        self.write(name, first_bytes(bytes, taken))?;
        self.put_faults = self.put_faults.saturating_add(1);
        Err(PutFault::Failed)
    }
}

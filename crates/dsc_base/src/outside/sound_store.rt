// A store in memory that never fails.
ghost use Rattle.std.specs.Prelude.{◌≡◌, OnOk, OnErr, IfErr, Some};
ghost use Rattle.std.specs.Option.{option_map};
ghost use Rattle.std.specs.FinMap.{get, insert, empty};
ghost use Rattle.dsc_base.specs.InMemory.{Finds};

use super::file_map::FileMap;
use super::store::{GetFault, PutFault, Store};
use crate::NoMemory;
use std::alloc::Global;
use std::marker::Model;

/// Keeps its files in memory and tells them. Neither of its counts ever rises, so it never fails.
///
/// A contract sees it as the map from names to bytes.
#[derive(Drop)]
pub struct SoundStore {
    alloc: Global,
    files: FileMap,
}

impl Model for SoundStore {
    ghost use Rattle.dsc_base.specs.Outside.{Files, files_code};

    ghost Value = { Files };

    ghost coded = { files_code };

    ghost view = { λ s. s.files };
}

impl SoundStore {
    /// A store with no files.
    pub fn new(alloc: Global) -> SoundStore
        ensures { result ≡ empty }
    {
        SoundStore {
            alloc,
            files: FileMap::new(alloc),
        }
    }

    /// Puts a file there. At `NoMemory` nothing has changed.
    pub fn insert(&mut self, name: &str, bytes: Vec<u8>) -> Result<(), NoMemory>
        ensures ok { OnOk result (self.new ≡ insert self.old name.now bytes.items) }
        ensures err { OnErr result (self.new ≡ self.old) }
    {
        self.files.insert(self.alloc, name, bytes)
    }

    /// The bytes at the name.
    pub fn file(&self, name: &str) -> Option<&[u8]>
        ensures { option_map (λ bytes. bytes.now) result ≡ get self.now name.now }
    {
        self.files.get(name)
    }
}

impl Store for SoundStore {
    ghost files = { λ s. Some s };

    ghost get_faults = { λ _. 0 };

    ghost put_faults = { λ _. 0 };

    fn get(&mut self, alloc: Global, name: &str, limit: u64) -> Result<Vec<u8>, GetFault>
        ensures answer { Finds self.old name.now limit result }
        ensures same { self.new ≡ self.old }
    {
        self.files.read(alloc, name, limit)
    }

    fn put(&mut self, alloc: Global, name: &str, bytes: &[u8]) -> Result<(), PutFault>
        ensures put { OnOk result (self.new ≡ insert self.old name.now bytes.now) }
        ensures memory { IfErr result (λ fault. (fault ≡ PutFault.Memory) × (self.new ≡ self.old)) }
    {
        let copy = Vec::from_slice(alloc, bytes).map_err(NoMemory::from)?;
        Ok(self.files.insert(alloc, name, copy)?)
    }
}

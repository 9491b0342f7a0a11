// The file system as a store.
ghost use Rattle.std.specs.Prelude.{◌≡◌, ◌≤◌, IfOk, None, length};
ghost use Rattle.dsc_base.specs.Counted.{CountsGet, CountsPut};

use super::store::{GetFault, PutFault, Store};
use std::alloc::Global;
use std::fs::OpenFile;
use std::io::{ErrorKind, Read, Write};
use std::marker::Model;
use std::rt::Files;
use std::{fs, io};

/// Real files under their paths. It doesn't tell what they hold, and counts a fault at every answer
/// other than `Ok` and `Memory`. A contract sees it as its counts.
#[derive(Drop)]
pub struct FileStore<R: Files + Drop> {
    rt: R,
    get_faults: u64,
    put_faults: u64,
}

impl<R: Files + Drop> Model for FileStore<R> {
    ghost use Rattle.dsc_base.specs.Counted.{Counts};

    ghost Value = { Counts };

    ghost view = { λ s. record { get_faults = s.get_faults; put_faults = s.put_faults } };
}

impl<R: Files + Drop> FileStore<R> {
    /// A store over the files of this runtime.
    pub fn new(rt: R) -> FileStore<R>
        ensures { result ≡ record { get_faults = 0; put_faults = 0 } }
    {
        FileStore {
            rt,
            get_faults: 0,
            put_faults: 0,
        }
    }
}

impl<R: Files + Drop> Store for FileStore<R> {
    ghost files = { λ _. None };

    ghost get_faults = { λ s. s.get_faults };

    ghost put_faults = { λ s. s.put_faults };

    /// Reads the file. A folder at the name, as any trouble other than a missing file, is `Failed`.
    fn get(&mut self, alloc: Global, name: &str, limit: u64) -> Result<Vec<u8>, GetFault>
        ensures within { IfOk result (λ bytes. length bytes.items ≤ limit) }
        ensures counts { CountsGet self.old result self.new }
    {
        let answer = read_file(&self.rt, alloc, name, limit);
        if let Err(GetFault::Absent | GetFault::TooLarge | GetFault::Failed) = &answer {
            self.get_faults = self.get_faults.saturating_add(1);
        }
        answer
    }

    /// Writes the file, and makes the folders on the way to it that are missing.
    fn put(&mut self, _alloc: Global, name: &str, bytes: &[u8]) -> Result<(), PutFault>
        ensures counts { CountsPut self.old result self.new }
    {
        let answer = write_file(&self.rt, name, bytes);
        if let Err(PutFault::Failed) = &answer {
            self.put_faults = self.put_faults.saturating_add(1);
        }
        answer
    }
}

/// At most one byte past the limit is read.
fn read_file<R: Files>(rt: &R, alloc: Global, name: &str, limit: u64) -> Result<Vec<u8>, GetFault>
    ensures { IfOk result (λ bytes. length bytes.items ≤ limit) }
{
    let file = fs::open(rt, name).map_err(get_fault)?;
    let metadata = file.metadata().map_err(get_fault)?;
    if metadata.is_dir() {
        return Err(GetFault::Failed);
    }
    if metadata.len() > limit {
        return Err(GetFault::TooLarge);
    }
    let mut bytes = Vec::with_capacity(alloc, metadata.len() as usize)?;
    file.take(limit.saturating_add(1))
        .read_to_end(&mut bytes)
        .map_err(get_fault)?;
    if bytes.len() as u64 > limit {
        return Err(GetFault::TooLarge);
    }
    Ok(bytes)
}

fn get_fault(error: io::Error) -> GetFault {
    match error.kind() {
        ErrorKind::NotFound => GetFault::Absent,
        ErrorKind::OutOfMemory => GetFault::Memory,
        _ => GetFault::Failed,
    }
}

/// Want of memory is told as such only before the file is begun.
fn write_file<R: Files>(rt: &R, name: &str, bytes: &[u8]) -> Result<(), PutFault> {
    if let Some((folder, _)) = name.rsplit_once('/') {
        fs::create_dir_all(rt, folder).map_err(put_fault)?;
    }
    let mut file = fs::create(rt, name).map_err(put_fault)?;
    file.write_all(bytes).map_err(|_| PutFault::Failed)
}

fn put_fault(error: io::Error) -> PutFault {
    match error.kind() {
        ErrorKind::OutOfMemory => PutFault::Memory,
        _ => PutFault::Failed,
    }
}

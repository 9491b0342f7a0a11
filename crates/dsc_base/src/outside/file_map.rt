// Files in memory.
ghost use Rattle.std.specs.Prelude.{◌≡◌, OnOk, OnErr};
ghost use Rattle.std.specs.Option.{option_map};
ghost use Rattle.std.specs.FinMap.{get, insert, empty};
ghost use Rattle.dsc_base.specs.InMemory.{Finds};

use super::store::GetFault;
use crate::{Name, NoMemory};
use std::alloc::Global;
use std::collections::VecDeque;
use std::marker::Model;

/// Names and their bytes, the newest first: an older entry of the same name no longer counts.
#[derive(Drop)]
pub(crate) struct FileMap {
    entries: VecDeque<(Name, Vec<u8>)>,
}

impl Model for FileMap {
    ghost use Rattle.std.specs.Prelude.{map};
    ghost use Rattle.std.specs.FinMap.{from_entries};
    ghost use Rattle.dsc_base.specs.Outside.{Files, files_code};

    ghost Value = { Files };

    ghost coded = { files_code };

    ghost view = { λ m. from_entries (map (λ e. (e.0, e.1.items)) m.entries.items) };
}

impl FileMap {
    pub(crate) fn new(alloc: Global) -> FileMap
        ensures { result ≡ empty }
    {
        FileMap {
            entries: VecDeque::new(alloc),
        }
    }

    /// The bytes at the name.
    #[tactic(auto, using(crate::proofs::OutsideLaws::same_name))]
    pub(crate) fn get(&self, name: &str) -> Option<&[u8]>
        ensures { option_map (λ bytes. bytes.now) result ≡ get self.now name.now }
    {
        for (key, bytes) in &self.entries {
            if name.as_bytes() == key.as_slice() {
                return Some(bytes.as_slice());
            }
        }
        None
    }

    /// A copy of the bytes at the name, where they are at most `limit`.
    pub(crate) fn read(&self, alloc: Global, name: &str, limit: u64) -> Result<Vec<u8>, GetFault>
        ensures { Finds self.now name.now limit result }
    {
        let bytes = self.get(name).ok_or(GetFault::Absent)?;
        if bytes.len() as u64 > limit {
            return Err(GetFault::TooLarge);
        }
        Ok(Vec::from_slice(alloc, bytes)?)
    }

    /// Puts the bytes at the name, in place of those that are there.
    pub(crate) fn insert(
        &mut self,
        alloc: Global,
        name: &str,
        bytes: Vec<u8>,
    ) -> Result<(), NoMemory>
        ensures ok { OnOk result (self.new ≡ insert self.old name.now bytes.items) }
        ensures err { OnErr result (self.new ≡ self.old) }
    {
        let name = Name::from_slice(alloc, name.as_bytes())?;
        self.entries.push_front((name, bytes))?;
        Ok(())
    }
}

// Files by name.
ghost use Rattle.std.specs.Prelude.{◌≡◌, ◌≤◌, ℕ, Option, IfOk, OnOk, IfErr, length};
ghost use Rattle.dsc_base.specs.Outside.{Files, HasFile, with_file, GetCause, PutCause};

use crate::NoMemory;
use std::alloc::{AllocError, Global};

/// Why a file was not read.
#[derive(Clone, Copy, Debug, PartialEq, Eq)]
pub enum GetFault {
    /// There is no file of that name.
    Absent,
    /// The file has more bytes than the caller takes.
    TooLarge,
    /// Reading failed.
    Failed,
    /// Memory ran out.
    Memory,
}

/// Why a file was not written.
#[derive(Clone, Copy, Debug, PartialEq, Eq)]
pub enum PutFault {
    /// Writing failed.
    Failed,
    /// Memory ran out.
    Memory,
}

/// Files that are read and written whole, by name.
pub trait Store {
    /// The files, where the store tells them.
    ghost files: { Self → Option Files };

    /// How often a get has failed. At `u64::MAX` it stays.
    ghost get_faults: { Self → ℕ };

    /// How often a put has failed. At `u64::MAX` it stays.
    ghost put_faults: { Self → ℕ };

    /// All bytes of the file, at most `limit`. `Absent`: there is no such file. `TooLarge`: it has more
    /// bytes. A store that doesn't tell its files counts a fault at both. `Failed` is counted always.
    fn get(&mut self, alloc: Global, name: &str, limit: u64) -> Result<Vec<u8>, GetFault>
        ensures given { IfOk result (λ bytes. HasFile (files self.old) name.now bytes.items) }
        ensures within { IfOk result (λ bytes. length bytes.items ≤ limit) }
        ensures cause { IfErr result (GetCause (files self.old) (get_faults self.old) (get_faults self.new) name.now limit) }
        ensures files { files self.new ≡ files self.old }
        ensures get_count { get_faults self.old ≤ get_faults self.new }
        ensures put_count { put_faults self.new ≡ put_faults self.old };

    /// Puts the bytes at the name, whether it held any or not. After `Failed`, which is counted, the
    /// name holds a prefix of the bytes or is as before. After `Memory` nothing has changed.
    fn put(&mut self, alloc: Global, name: &str, bytes: &[u8]) -> Result<(), PutFault>
        ensures put { OnOk result (files self.new ≡ with_file (files self.old) name.now bytes.now) }
        ensures cause { IfErr result (PutCause (files self.old) (files self.new) (put_faults self.old) (put_faults self.new) name.now bytes.now) }
        ensures put_count { put_faults self.old ≤ put_faults self.new }
        ensures get_count { get_faults self.new ≡ get_faults self.old };
}

impl From<NoMemory> for GetFault {
    ghost use Rattle.std.specs.Prelude.{◌≡◌};
    ghost use Rattle.dsc_base.specs.declared.outside.store.GetFault.TheVariants.{Memory};

    ghost from_gives = { λ _ e. e ≡ Memory };

    fn from(_: NoMemory) -> Self {
        GetFault::Memory
    }
}

impl From<AllocError> for GetFault {
    ghost use Rattle.std.specs.Prelude.{◌≡◌};
    ghost use Rattle.dsc_base.specs.declared.outside.store.GetFault.TheVariants.{Memory};

    ghost from_gives = { λ _ e. e ≡ Memory };

    fn from(_: AllocError) -> Self {
        GetFault::Memory
    }
}

impl From<NoMemory> for PutFault {
    ghost use Rattle.std.specs.Prelude.{◌≡◌};
    ghost use Rattle.dsc_base.specs.declared.outside.store.PutFault.TheVariants.{Memory};

    ghost from_gives = { λ _ e. e ≡ Memory };

    fn from(_: NoMemory) -> Self {
        PutFault::Memory
    }
}

// What a call answers where it gives no result: want of memory, a broken rule, or a finding.
ghost use Rattle.std.specs.Prelude.{◌≡◌};
ghost use Rattle.dsc_base.specs.declared.fault.Fault.TheVariants as faults;
ghost use Rattle.dsc_base.specs.declared.fault.SetFault.TheVariants as set_faults;
ghost use Rattle.dsc_base.specs.declared.fault.ViewFault.TheVariants as view_faults;

use crate::{FindingKind, Rule};
use std::alloc::{AllocError, AllocFailed};

/// A range of bytes or addresses.
#[derive(Clone, Copy, Debug, PartialEq, Eq)]
pub struct Span {
    pub at: u64,
    pub len: u64,
}

/// A broken rule of one file or stream, and where it is broken.
#[derive(Clone, Copy, Debug, PartialEq, Eq)]
pub struct Site {
    pub rule: Rule,
    pub at: u64,
}

/// A broken rule of a set of files: the image counts from 0.
#[derive(Clone, Copy, Debug, PartialEq, Eq)]
pub struct Break {
    pub rule: Rule,
    pub image: u32,
    pub at: u64,
}

/// What is wrong with a cache: the image counts from 0, and is 0 where it belongs to none.
#[derive(Clone, Copy, Debug, PartialEq, Eq)]
pub struct Finding {
    pub kind: FindingKind,
    pub image: u32,
    pub at: u64,
}

/// Memory ran out.
#[derive(Clone, Copy, Debug, PartialEq, Eq)]
pub struct NoMemory;

/// Why a file or a stream was not read.
#[derive(Clone, Copy, Debug, PartialEq, Eq)]
pub enum Fault {
    Broken(Site),
    Memory,
}

/// Why a set of files was not built.
#[derive(Clone, Copy, Debug, PartialEq, Eq)]
pub enum SetFault {
    Broken(Break),
    Memory,
}

/// Why a cache was not read.
#[derive(Clone, Copy, Debug, PartialEq, Eq)]
pub enum ViewFault {
    Broken(Finding),
    Memory,
}

/// Why a variable-length number was not read: its bytes end early, or it has more than 64 bits.
#[derive(Clone, Copy, Debug, PartialEq, Eq)]
pub enum UlebFault {
    Ended,
    TooWide,
}

impl Fault {
    ghost use Rattle.dsc_base.specs.Refusals.{in_set};

    /// This fault of one image as one of a set of files, where the image has this number.
    pub fn in_image(self, image: u32) -> SetFault
        ensures { result ≡ in_set image self }
    {
        match self {
            Fault::Broken(site) => SetFault::Broken(Break {
                rule: site.rule,
                image,
                at: site.at,
            }),
            Fault::Memory => SetFault::Memory,
        }
    }
}

impl From<AllocError> for NoMemory {
    fn from(_: AllocError) -> Self {
        NoMemory
    }
}

impl<T: Drop> From<AllocFailed<T>> for NoMemory {
    fn from(_: AllocFailed<T>) -> Self {
        NoMemory
    }
}

impl From<NoMemory> for Fault {
    ghost from_gives = { λ _ e. e ≡ faults.Memory };

    fn from(_: NoMemory) -> Self {
        Fault::Memory
    }
}

impl From<AllocError> for Fault {
    ghost from_gives = { λ _ e. e ≡ faults.Memory };

    fn from(_: AllocError) -> Self {
        Fault::Memory
    }
}

impl<T: Drop> From<AllocFailed<T>> for Fault {
    ghost from_gives = { λ _ e. e ≡ faults.Memory };

    fn from(_: AllocFailed<T>) -> Self {
        Fault::Memory
    }
}

impl From<NoMemory> for SetFault {
    ghost from_gives = { λ _ e. e ≡ set_faults.Memory };

    fn from(_: NoMemory) -> Self {
        SetFault::Memory
    }
}

impl From<AllocError> for SetFault {
    ghost from_gives = { λ _ e. e ≡ set_faults.Memory };

    fn from(_: AllocError) -> Self {
        SetFault::Memory
    }
}

impl<T: Drop> From<AllocFailed<T>> for SetFault {
    ghost from_gives = { λ _ e. e ≡ set_faults.Memory };

    fn from(_: AllocFailed<T>) -> Self {
        SetFault::Memory
    }
}

impl From<NoMemory> for ViewFault {
    ghost from_gives = { λ _ e. e ≡ view_faults.Memory };

    fn from(_: NoMemory) -> Self {
        ViewFault::Memory
    }
}

impl From<AllocError> for ViewFault {
    ghost from_gives = { λ _ e. e ≡ view_faults.Memory };

    fn from(_: AllocError) -> Self {
        ViewFault::Memory
    }
}

impl<T: Drop> From<AllocFailed<T>> for ViewFault {
    ghost from_gives = { λ _ e. e ≡ view_faults.Memory };

    fn from(_: AllocFailed<T>) -> Self {
        ViewFault::Memory
    }
}

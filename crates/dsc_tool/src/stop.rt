// Why a run ends before anything is put.
ghost use Rattle.std.specs.Prelude.{◌≡◌};
ghost use Rattle.dsc_tool.specs.declared.stop.Stop.TheVariants as stops;
ghost use Rattle.dsc_tool.specs.Stops.{words_stop, set_stop, view_stop, get_stop, get_cache_stop};

use crate::command::WordsFault;
use dsc_base::{Break, Finding, FindingKind, GetFault, NoMemory, Rule, SetFault, ViewFault};
use std::alloc::{AllocError, AllocFailed};

/// The most bytes that a file may have.
pub(crate) const FILE_LIMIT: u64 = 0x400_0000;

/// The most bytes that the files may have together.
pub(crate) const INPUT_LIMIT: u64 = 0x2000_0000;

/// The most bytes that a cache may have that is read.
pub(crate) const CACHE_LIMIT: u64 = 0x8000_0000;

/// Why a run ends before anything is put.
#[derive(Clone, Copy, Debug, PartialEq, Eq)]
pub enum Stop {
    /// The words are no command.
    BadWords,
    /// The input with this number was not read. Inputs count from 0.
    Unread(u32),
    /// The files break this rule.
    Refused(Break),
    /// The cache has this finding.
    Flawed(Finding),
    /// The cache has no image with the path.
    NoImage,
    /// Memory ran out.
    Memory,
}

impl From<WordsFault> for Stop {
    ghost from_gives = { λ fault stop. stop ≡ words_stop fault };

    fn from(fault: WordsFault) -> Self {
        match fault {
            WordsFault::BadWords => Stop::BadWords,
            WordsFault::Memory => Stop::Memory,
        }
    }
}

impl From<SetFault> for Stop {
    ghost from_gives = { λ fault stop. stop ≡ set_stop fault };

    fn from(fault: SetFault) -> Self {
        match fault {
            SetFault::Broken(found) => Stop::Refused(found),
            SetFault::Memory => Stop::Memory,
        }
    }
}

impl From<ViewFault> for Stop {
    ghost from_gives = { λ fault stop. stop ≡ view_stop fault };

    fn from(fault: ViewFault) -> Self {
        match fault {
            ViewFault::Broken(found) => Stop::Flawed(found),
            ViewFault::Memory => Stop::Memory,
        }
    }
}

impl From<NoMemory> for Stop {
    ghost from_gives = { λ _ stop. stop ≡ stops.Memory };

    fn from(_: NoMemory) -> Self {
        Stop::Memory
    }
}

impl From<AllocError> for Stop {
    ghost from_gives = { λ _ stop. stop ≡ stops.Memory };

    fn from(_: AllocError) -> Self {
        Stop::Memory
    }
}

impl<T: Drop> From<AllocFailed<T>> for Stop {
    ghost from_gives = { λ _ stop. stop ≡ stops.Memory };

    fn from(_: AllocFailed<T>) -> Self {
        Stop::Memory
    }
}

/// Why the file with this number among the inputs, and this one among the files, was not read. One of too
/// many bytes breaks a rule.
pub(crate) fn unread_file(input: u32, file: u32, fault: GetFault) -> Stop
    ensures { result ≡ get_stop input file fault }
{
    match fault {
        GetFault::Absent | GetFault::Failed => Stop::Unread(input),
        GetFault::TooLarge => Stop::Refused(Break {
            rule: Rule::FileTooLarge,
            image: file,
            at: FILE_LIMIT,
        }),
        GetFault::Memory => Stop::Memory,
    }
}

/// Why the cache was not read, which is input 0. Too many bytes are a finding.
pub(crate) fn unread_cache(fault: GetFault) -> Stop
    ensures { result ≡ get_cache_stop fault }
{
    match fault {
        GetFault::Absent | GetFault::Failed => Stop::Unread(0),
        GetFault::TooLarge => Stop::Flawed(Finding {
            kind: FindingKind::CacheTooLarge,
            image: 0,
            at: CACHE_LIMIT,
        }),
        GetFault::Memory => Stop::Memory,
    }
}

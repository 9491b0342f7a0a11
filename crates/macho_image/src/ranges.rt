// The rule on the parts of the linkedit that commands name.
ghost use Rattle.std.specs.Prelude.{◌≡◌, ◌+◌, ◌≤◌, find, length, option_copied};
ghost use Rattle.macho_image.specs.Rules as rules;

use crate::bytes::number32;
use crate::command::Command;
use crate::format::{
    DYLD_INFO_BIND_OFF, DYLD_INFO_BIND_SIZE, DYLD_INFO_EXPORT_OFF, DYLD_INFO_EXPORT_SIZE,
    DYLD_INFO_LAZY_BIND_OFF, DYLD_INFO_LAZY_BIND_SIZE, DYLD_INFO_REBASE_OFF, DYLD_INFO_REBASE_SIZE,
    DYLD_INFO_WEAK_BIND_OFF, DYLD_INFO_WEAK_BIND_SIZE, DYSYMTAB_INDIRECTSYMOFF,
    DYSYMTAB_NINDIRECTSYMS, LINKEDIT_DATA_DATAOFF, LINKEDIT_DATA_DATASIZE, SYMTAB_NSYMS,
    SYMTAB_STROFF, SYMTAB_STRSIZE, SYMTAB_SYMOFF,
};
use crate::numbers::{
    LC_DATA_IN_CODE, LC_DYSYMTAB, LC_FUNCTION_STARTS, LC_SEGMENT_SPLIT_INFO, LC_SYMTAB,
    is_dyld_info,
};
use crate::segment::{SegmentCommand, is_linkedit};

/// A range of the file.
#[derive(Clone, Copy)]
struct Bounds {
    low: u64,
    high: u128,
}

/// Whether the part whose offset and size, in entries of so many bytes, stand at two fields leaves the range.
fn leaves(bounds: Bounds, bytes: &[u8], entry: u64, offset: usize, size: usize) -> bool
    requires offset_in { offset + 4 ≤ length bytes.now }
    requires size_in { size + 4 ≤ length bytes.now }
    requires small { entry ≤ 16 }
    ensures { result ≡ rules.leaves bounds.low bounds.high bytes.now entry offset size }
{
    let start = u64::from(number32(bytes, offset));
    let len = entry * u64::from(number32(bytes, size));
    len > 0 && !(bounds.low <= start && u128::from(start + len) <= bounds.high)
}

fn info_leaves(bounds: Bounds, bytes: &[u8]) -> bool
    requires { 48 ≤ length bytes.now }
    ensures { result ≡ rules.info_leaves bounds.low bounds.high bytes.now }
{
    leaves(
        bounds,
        bytes,
        1,
        DYLD_INFO_REBASE_OFF,
        DYLD_INFO_REBASE_SIZE,
    ) || leaves(bounds, bytes, 1, DYLD_INFO_BIND_OFF, DYLD_INFO_BIND_SIZE)
        || leaves(
            bounds,
            bytes,
            1,
            DYLD_INFO_WEAK_BIND_OFF,
            DYLD_INFO_WEAK_BIND_SIZE,
        )
        || leaves(
            bounds,
            bytes,
            1,
            DYLD_INFO_LAZY_BIND_OFF,
            DYLD_INFO_LAZY_BIND_SIZE,
        )
        || leaves(
            bounds,
            bytes,
            1,
            DYLD_INFO_EXPORT_OFF,
            DYLD_INFO_EXPORT_SIZE,
        )
}

fn names_outside(command: &Command<'_>, bounds: Bounds) -> bool
    ensures { result ≡ rules.names_outside bounds.low bounds.high command.now.bytes }
{
    let bytes = command.bytes;
    match command.number {
        LC_SYMTAB => leaves(bounds, bytes, 16, SYMTAB_SYMOFF, SYMTAB_NSYMS)
            || leaves(bounds, bytes, 1, SYMTAB_STROFF, SYMTAB_STRSIZE),
        LC_DYSYMTAB => leaves(
            bounds,
            bytes,
            4,
            DYSYMTAB_INDIRECTSYMOFF,
            DYSYMTAB_NINDIRECTSYMS,
        ),
        LC_SEGMENT_SPLIT_INFO | LC_FUNCTION_STARTS | LC_DATA_IN_CODE => leaves(
            bounds,
            bytes,
            1,
            LINKEDIT_DATA_DATAOFF,
            LINKEDIT_DATA_DATASIZE,
        ),
        number => is_dyld_info(number) && info_leaves(bounds, bytes),
    }
}

fn first_outside(commands: &[Command<'_>], bounds: Bounds) -> Option<u64>
    ensures { result ≡ rules.first_load (λ l. rules.names_outside bounds.low bounds.high l.bytes) commands.now }
{
    commands
        .iter()
        .find(|c| names_outside(c, bounds))
        .map(|c| c.at)
}

fn linkedit_of<'a>(segments: &'a [SegmentCommand]) -> Option<&'a SegmentCommand>
    ensures { option_copied result ≡ find rules.is_linkedit segments.entry.now }
{
    segments.iter().find(|s| is_linkedit(s))
}

fn bounds_of(segment: &SegmentCommand) -> Bounds
    ensures low { result.low ≡ segment.now.fileoff }
    ensures high { result.high ≡ segment.now.fileoff + segment.now.filesize }
{
    Bounds {
        low: segment.fileoff,
        high: u128::from(segment.fileoff) + u128::from(segment.filesize),
    }
}

/// The first command that names a part of the file outside the range of `__LINKEDIT`.
pub(crate) fn linkedit_range(segments: &[SegmentCommand], commands: &[Command<'_>]) -> Option<u64>
    ensures { result ≡ rules.breaks_linkedit_range segments.now commands.now }
{
    let linkedit = linkedit_of(segments)?;
    first_outside(commands, bounds_of(linkedit))
}

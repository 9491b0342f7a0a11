// Universal files, after mach-o/fat.h: dylibs for several processors in one file.
ghost use Rattle.std.specs.Prelude.{◌≡◌, ◌+◌, ◌*◌, ◌≤◌, IfOk, drop, find, length, option_copied};
ghost use Rattle.std.specs.Result.{result_err};
ghost use Rattle.macho_image.specs.Universal as spec;

use crate::bytes::{behind, front};
use crate::format::SIZE_OF_HEADER;
use crate::header::{CPU_TYPE_X86_64, not_mach_o};
use byteorder::{BigEndian, ByteOrder};
use dsc_base::{Rule, Site, Span};

const FAT_MAGIC: u32 = 0xCAFE_BABE;

/// A part of a universal file: the processor that it is for, and where it lies.
#[derive(Clone, Copy)]
struct Arch {
    processor: u32,
    offset: u32,
    size: u32,
}

#[tactic(auto, unfolding(crate::specs::Universal::big_at))]
fn big32(bytes: &[u8], at: usize) -> u32
    requires { at + 4 ≤ length bytes.now }
    ensures { result ≡ spec.big_at bytes.now at }
{
    BigEndian::read_u32(&bytes[at..])
}

fn arch_fields(bytes: &[u8]) -> Arch
    requires { 20 ≤ length bytes.now }
    ensures { result ≡ spec.arch_fields bytes.now }
{
    Arch {
        processor: big32(bytes, 0),
        offset: big32(bytes, 8),
        size: big32(bytes, 12),
    }
}

/// The first of so many entries that is for x86_64.
fn find_x86_64(count: u32, table: &[u8]) -> Option<Arch>
    requires { 20 * count ≤ length table.now }
    ensures { result ≡ find spec.is_x86_64 (spec.archs_in count table.now) }
{
    let mut rest = table;
    for _ in 0..count {
        let arch = arch_fields(rest);
        if arch.processor == CPU_TYPE_X86_64 {
            return Some(arch);
        }
        rest = behind(rest, 20);
    }
    None
}

/// The part of a file of so many bytes that an entry names, where the file has it.
fn part_of(len: usize, arch: Arch) -> Option<Span>
    ensures { result ≡ spec.part_of len (Some arch) }
{
    let end = u64::from(arch.offset) + u64::from(arch.size);
    if end <= len as u64 {
        Some(Span {
            at: u64::from(arch.offset),
            len: u64::from(arch.size),
        })
    } else {
        None
    }
}

fn picked(file: &[u8]) -> Option<Span>
    requires { 32 ≤ length file.now }
    ensures { result ≡ spec.picked file.now }
{
    let count = big32(file, 4);
    if 8 + 20 * u64::from(count) > file.len() as u64 {
        return None;
    }
    let arch = find_x86_64(count, behind(file, 8))?;
    part_of(file.len(), arch)
}

#[tactic(auto, unfolding(crate::specs::Universal::slice_of))]
fn slice_of(file: &[u8]) -> Option<Span>
    requires { 32 ≤ length file.now }
    ensures { result ≡ spec.slice_of file.now }
{
    if big32(file, 0) == FAT_MAGIC {
        picked(file)
    } else {
        Some(Span {
            at: 0,
            len: file.len() as u64,
        })
    }
}

/// The part of a file that is the dylib for x86_64: of a universal file the part that its first entry with
/// this processor names, and another file whole. The formats are those of `mach-o/fat.h` and
/// `mach-o/loader.h`. It takes no memory.
///
/// Refuses, each at 0, `NotMachO` where the file has fewer than 32 bytes or begins with neither magic, or
/// where the part is no Mach-O file by the same test; and `NoSlice` where the table of a universal file
/// runs past its end or has no such entry, or the part isn't in the file.
#[tactic(auto, unfolding(crate::specs::Universal::slice_break))]
pub fn pick_slice(bytes: &[u8]) -> Result<Span, Site>
    ensures slice { IfOk result (λ s. spec.slice_of bytes.now ≡ Some s) }
    ensures cause { spec.slice_break bytes.now ≡ result_err result }
{
    if bytes.len() < SIZE_OF_HEADER {
        return Err(Site {
            rule: Rule::NotMachO,
            at: 0,
        });
    }
    let Some(slice) = slice_of(bytes) else {
        return Err(Site {
            rule: Rule::NoSlice,
            at: 0,
        });
    };
    match not_mach_o(front(behind(bytes, slice.at), slice.len)) {
        Some(at) => Err(Site {
            rule: Rule::NotMachO,
            at,
        }),
        None => Ok(slice),
    }
}

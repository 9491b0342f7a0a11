// Small dylibs of these segments, each section at the place in the file that its address tells:
// `__TEXT` from 0, with `__text` of 0xC00 bytes at 0x400; `__DATA` from 0x1000, with `__data` of 0x1000 bytes
// and `__bss` of as many zeros that aren't in the file; `__LINKEDIT` from 0x3000.
use dsc_base::put_u64;
use std::alloc::Global;
use std::test::Fail;

/// The commands of a dependency.
pub(super) const LOAD: u32 = 0xC;

pub(super) const WEAK: u32 = 0x8000_0018;

pub(super) const REEXPORT: u32 = 0x8000_001F;

/// Install names, each with its NUL.
pub(super) type Path = [u8; 8];

pub(super) const A: Path = *b"/a\0\0\0\0\0\0";

pub(super) const B: Path = *b"/b\0\0\0\0\0\0";

pub(super) const C: Path = *b"/c\0\0\0\0\0\0";

pub(super) const D: Path = *b"/d\0\0\0\0\0\0";

pub(super) const X: Path = *b"/x\0\0\0\0\0\0";

pub(super) const ABSENT: Path = *b"/absent\0";

/// A dylib by its dependencies, its streams, and the numbers in its data by their places in the file.
#[derive(Clone, Copy)]
pub(super) struct Dylib {
    pub name: Path,
    pub needs: &'static [(u32, Path)],
    pub words: &'static [(usize, u64)],
    pub rebase: &'static [u8],
    pub bind: &'static [u8],
    pub weak: &'static [u8],
    pub lazy: &'static [u8],
    pub exports: &'static [u8],
    pub split: &'static [u8],
}

/// One without dependencies, words and symbols.
pub(super) const PLAIN: Dylib = Dylib {
    name: A,
    needs: &[],
    words: &[],
    rebase: b"",
    bind: b"",
    weak: b"",
    lazy: b"",
    exports: b"",
    split: b"\x7f\x00",
};

/// Where the file's linkedit begins, and the bytes that each stream has there.
const LINKEDIT: usize = 0x2000;

const ROOM: usize = 0x40;

fn put_numbers(file: &mut Vec<u8>, numbers: &[u32]) -> Result<(), Fail> {
    for number in numbers {
        file.extend_from_slice(&number.to_le_bytes())?;
    }
    Ok(())
}

/// A segment command: its size, start, bytes, place in the file and bytes there, protection and sections.
fn put_segment(file: &mut Vec<u8>, name: &[u8; 16], row: [u32; 7]) -> Result<(), Fail> {
    let [command, start, size, at, filesize, prot, sections] = row;
    put_numbers(file, &[0x19, command])?;
    file.extend_from_slice(name)?;
    put_numbers(file, &[start, 0, size, 0, at, 0, filesize, 0])?;
    put_numbers(file, &[prot, prot, sections, 0])
}

/// A section: its address, bytes, place in the file and type.
fn put_section(file: &mut Vec<u8>, segment: &[u8; 16], row: [u32; 4]) -> Result<(), Fail> {
    let [address, size, at, kind] = row;
    file.extend_from_slice(b"__section\0\0\0\0\0\0\0")?;
    file.extend_from_slice(segment)?;
    put_numbers(file, &[address, 0, size, 0, at, 0, 0, 0, kind, 0, 0, 0])
}

fn put_segments(file: &mut Vec<u8>) -> Result<(), Fail> {
    let text = b"__TEXT\0\0\0\0\0\0\0\0\0\0";
    let data = b"__DATA\0\0\0\0\0\0\0\0\0\0";
    put_segment(file, text, [152, 0, 0x1000, 0, 0x1000, 5, 1])?;
    put_section(file, text, [0x400, 0xC00, 0x400, 0])?;
    put_segment(file, data, [232, 0x1000, 0x2000, 0x1000, 0x1000, 3, 2])?;
    put_section(file, data, [0x1000, 0x1000, 0x1000, 0])?;
    put_section(file, data, [0x2000, 0x1000, 0, 1])?;
    let linkedit = b"__LINKEDIT\0\0\0\0\0\0";
    put_segment(file, linkedit, [72, 0x3000, 0x1000, 0x2000, 0x180, 1, 0])
}

/// A command with a name, of 32 bytes.
fn put_name(file: &mut Vec<u8>, command: u32, name: &Path) -> Result<(), Fail> {
    put_numbers(file, &[command, 32, 24, 0, 0, 0])?;
    file.extend_from_slice(name)?;
    Ok(())
}

fn size_of(stream: &[u8]) -> Result<u32, Fail> {
    let size = u32::try_from(stream.len()).ok().ok_or("few bytes")?;
    Ok(size)
}

/// LC_DYLD_INFO_ONLY and LC_SEGMENT_SPLIT_INFO.
fn put_streams(file: &mut Vec<u8>, dylib: &Dylib) -> Result<(), Fail> {
    put_numbers(file, &[0x8000_0022, 48])?;
    put_numbers(file, &[0x2000, size_of(dylib.rebase)?])?;
    put_numbers(file, &[0x2040, size_of(dylib.bind)?])?;
    put_numbers(file, &[0x2080, size_of(dylib.weak)?])?;
    put_numbers(file, &[0x20C0, size_of(dylib.lazy)?])?;
    put_numbers(file, &[0x2100, size_of(dylib.exports)?])?;
    put_numbers(file, &[0x1E, 16, 0x2140, size_of(dylib.split)?])
}

/// The header and all commands.
fn put_commands(file: &mut Vec<u8>, dylib: &Dylib) -> Result<(), Fail> {
    let count = u32::try_from(dylib.needs.len())
        .ok()
        .ok_or("few dependencies")?;
    let commands = count.wrapping_add(6);
    let size = count.wrapping_mul(32).wrapping_add(552);
    put_numbers(
        file,
        &[0xFEED_FACF, 0x0100_0007, 3, 6, commands, size, 0x80, 0],
    )?;
    put_segments(file)?;
    put_name(file, 0xD, &dylib.name)?;
    put_streams(file, dylib)?;
    for (command, needed) in dylib.needs {
        put_name(file, *command, needed)?;
    }
    Ok(())
}

/// The streams, one after another.
fn put_linkedit(file: &mut Vec<u8>, dylib: &Dylib) -> Result<(), Fail> {
    let mut end = LINKEDIT;
    for stream in [
        dylib.rebase,
        dylib.bind,
        dylib.weak,
        dylib.lazy,
        dylib.exports,
        dylib.split,
    ] {
        file.extend_from_slice(stream)?;
        end = end.wrapping_add(ROOM);
        file.resize(end, 0)?;
    }
    Ok(())
}

fn put_words(file: &mut [u8], words: &[(usize, u64)]) {
    for (place, value) in words {
        if *place < file.len() && file.len() - *place >= 8 {
            put_u64(file, *place, *value);
        }
    }
}

pub(super) fn file_of(alloc: Global, dylib: &Dylib) -> Result<Vec<u8>, Fail> {
    let mut file = Vec::new(alloc);
    put_commands(&mut file, dylib)?;
    file.resize(LINKEDIT, 0)?;
    put_words(&mut file, dylib.words);
    put_linkedit(&mut file, dylib)?;
    Ok(file)
}

// The header and the load commands of an image.
ghost use Rattle.std.specs.Prelude.{◌≡◌, ◌≤◌, ◌<◌, ◌+◌, ◌/◌, ◌%◌, ◌++◌, OnOk};
ghost use Rattle.dsc_base.specs.Fields.{spelled};
ghost use Rattle.dsc_base.specs.Region.{padded};
ghost use Rattle.dsc_gen.specs.Commands as spec;

use crate::contents::put_words;
use crate::draws::TEXT_START;
use crate::spots::{Spot, Spots};
use dsc_base::{Field, NoMemory, page_up, spell_fields};
use std::alloc::Global;

/// Load commands, by their names in `mach-o/loader.h`.
const LC_SEGMENT_64: u32 = 0x19;

const LC_ID_DYLIB: u32 = 0xD;

const LC_DYLD_INFO_ONLY: u32 = 0x8000_0022;

const LC_UUID: u32 = 0x1B;

const LC_LOAD_DYLIB: u32 = 0xC;

const LC_SEGMENT_SPLIT_INFO: u32 = 0x1E;

/// Values of the header's fields.
const MH_MAGIC_64: u32 = 0xFEED_FACF;

const CPU_TYPE_X86_64: u32 = 0x0100_0007;

const MH_DYLIB: u32 = 6;

const MH_TWOLEVEL: u32 = 0x80;

const VERSION: u32 = 0x10000;

const TEXT: [u8; 16] = *b"__TEXT\0\0\0\0\0\0\0\0\0\0";

const TEXT_SECTION: [u8; 16] = *b"__text\0\0\0\0\0\0\0\0\0\0";

const DATA: [u8; 16] = *b"__DATA\0\0\0\0\0\0\0\0\0\0";

const DATA_SECTION: [u8; 16] = *b"__data\0\0\0\0\0\0\0\0\0\0";

const LINKEDIT: [u8; 16] = *b"__LINKEDIT\0\0\0\0\0\0";

/// What a segment command says: `maxprot` is `initprot`, and the file offset is the address.
#[derive(Clone, Copy, Debug, PartialEq, Eq)]
pub(crate) struct Segment {
    pub segname: [u8; 16],
    pub address: u64,
    pub vmsize: u64,
    pub filesize: u64,
    pub protection: u32,
    pub nsects: u32,
}

/// What a section says: the file offset is the address.
#[derive(Clone, Copy, Debug, PartialEq, Eq)]
pub(crate) struct Section {
    pub sectname: [u8; 16],
    pub segname: [u8; 16],
    pub address: u32,
    pub size: u32,
}

fn put_fields(alloc: Global, out: &mut Vec<u8>, fields: &[Field]) -> Result<(), NoMemory>
    ensures { OnOk result (out.new.items ≡ out.old.items ++ spelled fields.now) }
{
    let bytes = spell_fields(alloc, fields)?;
    out.extend_from_slice(&bytes)?;
    Ok(())
}

/// The Mach header of a dylib.
fn put_header(alloc: Global, out: &mut Vec<u8>, ncmds: u32, sizeofcmds: u32) -> Result<(), NoMemory>
    ensures { OnOk result (out.new.items ≡ out.old.items ++ spelled (spec.header_fields ncmds sizeofcmds)) }
{
    let fields = [
        Field::U32(MH_MAGIC_64),
        Field::U32(CPU_TYPE_X86_64),
        Field::U32(0),
        Field::U32(MH_DYLIB),
        Field::U32(ncmds),
        Field::U32(sizeofcmds),
        Field::U32(MH_TWOLEVEL),
        Field::U32(0),
    ];
    put_fields(alloc, out, &fields)
}

fn put_segment(alloc: Global, out: &mut Vec<u8>, segment: &Segment) -> Result<(), NoMemory>
    requires { segment.now.nsects ≤ 1 }
    ensures { OnOk result (out.new.items ≡ out.old.items ++ spelled (spec.segment_fields segment.now)) }
{
    let fields = [
        Field::U32(LC_SEGMENT_64),
        Field::U32(72 + 80 * segment.nsects),
        Field::Identifier(segment.segname),
        Field::U64(segment.address),
        Field::U64(segment.vmsize),
        Field::U64(segment.address),
        Field::U64(segment.filesize),
        Field::U32(segment.protection),
        Field::U32(segment.protection),
        Field::U32(segment.nsects),
        Field::U32(0),
    ];
    put_fields(alloc, out, &fields)
}

fn put_section(alloc: Global, out: &mut Vec<u8>, section: &Section) -> Result<(), NoMemory>
    ensures { OnOk result (out.new.items ≡ out.old.items ++ spelled (spec.section_fields section.now)) }
{
    let fields = [
        Field::Identifier(section.sectname),
        Field::Identifier(section.segname),
        Field::U64(u64::from(section.address)),
        Field::U64(u64::from(section.size)),
        Field::U32(section.address),
        Field::Zeros(28),
    ];
    put_fields(alloc, out, &fields)
}

fn text_segment(size: u32) -> Segment
    ensures { result ≡ spec.text_segment size }
{
    Segment {
        segname: TEXT,
        address: 0,
        vmsize: u64::from(size),
        filesize: u64::from(size),
        protection: 5,
        nsects: 1,
    }
}

fn text_section(size: u32) -> Section
    requires { 4096 ≤ size }
    ensures { result ≡ spec.text_section size }
{
    Section {
        sectname: TEXT_SECTION,
        segname: TEXT,
        address: TEXT_START,
        size: size - TEXT_START,
    }
}

fn data_segment(size: u32) -> Segment
    ensures { result ≡ spec.data_segment size }
{
    Segment {
        segname: DATA,
        address: u64::from(size),
        vmsize: u64::from(size),
        filesize: u64::from(size),
        protection: 3,
        nsects: 1,
    }
}

fn data_section(size: u32) -> Section
    ensures { result ≡ spec.data_section size }
{
    Section {
        sectname: DATA_SECTION,
        segname: DATA,
        address: size,
        size,
    }
}

fn linkedit_segment(size: u32, linkedit: u32) -> Segment
    ensures { result ≡ spec.linkedit_segment size linkedit }
{
    Segment {
        segname: LINKEDIT,
        address: 2 * u64::from(size),
        vmsize: page_up(u64::from(linkedit)),
        filesize: u64::from(linkedit),
        protection: 1,
        nsects: 0,
    }
}

/// The three segments with their sections, where text and data have `size` bytes each.
fn put_segments(alloc: Global, out: &mut Vec<u8>, size: u32, linkedit: u32) -> Result<(), NoMemory>
    requires { 4096 ≤ size }
    ensures { OnOk result (out.new.items ≡ out.old.items ++ spec.segments_bytes size linkedit) }
{
    put_segment(alloc, out, &text_segment(size))?;
    put_section(alloc, out, &text_section(size))?;
    put_segment(alloc, out, &data_segment(size))?;
    put_section(alloc, out, &data_section(size))?;
    put_segment(alloc, out, &linkedit_segment(size, linkedit))?;
    Ok(())
}

/// The digit of a number that a power of ten counts.
fn digit(number: u32, power: u32) -> u8
    requires { 0 < power }
    ensures { result ≡ 48 + number / power % 10 }
{
    b'0' + (number / power % 10) as u8
}

/// The install name of an image, padded with zeros.
fn padded_name(k: u32) -> [u8; 24]
    ensures { result ≡ padded 24 (spec.install_name k) }
{
    let mut name = *b"/gen/lib0000.dylib\0\0\0\0\0\0";
    name[8] = digit(k, 1000);
    name[9] = digit(k, 100);
    name[10] = digit(k, 10);
    name[11] = digit(k, 1);
    name
}

/// A command that names the dylib of an image.
fn put_dylib(alloc: Global, out: &mut Vec<u8>, number: u32, k: u32) -> Result<(), NoMemory>
    ensures { OnOk result (out.new.items ≡ out.old.items ++ spec.dylib_command number k) }
{
    let fields = [
        Field::U32(number),
        Field::U32(48),
        Field::U32(24),
        Field::U32(0),
        Field::U32(VERSION),
        Field::U32(VERSION),
    ];
    put_fields(alloc, out, &fields)?;
    out.extend_from_slice(&padded_name(k))?;
    Ok(())
}

fn put_dyld_info(alloc: Global, out: &mut Vec<u8>, spots: &Spots) -> Result<(), NoMemory>
    ensures { OnOk result (out.new.items ≡ out.old.items ++ spelled (spec.dyld_info_fields spots.now)) }
{
    let fields = [
        Field::U32(LC_DYLD_INFO_ONLY),
        Field::U32(48),
        Field::U32(spots.rebase.offset),
        Field::U32(spots.rebase.size),
        Field::U32(spots.bind.offset),
        Field::U32(spots.bind.size),
        Field::U32(0),
        Field::U32(0),
        Field::U32(0),
        Field::U32(0),
        Field::U32(spots.exports.offset),
        Field::U32(spots.exports.size),
    ];
    put_fields(alloc, out, &fields)
}

fn put_uuid(alloc: Global, out: &mut Vec<u8>, identifier: &[u32]) -> Result<(), NoMemory>
    ensures { OnOk result (out.new.items ≡ out.old.items ++ spec.uuid_command identifier.now) }
{
    put_fields(alloc, out, &[Field::U32(LC_UUID), Field::U32(24)])?;
    put_words(out, identifier)
}

/// The image before this one, where there is one.
fn put_needed(alloc: Global, out: &mut Vec<u8>, k: u32) -> Result<(), NoMemory>
    ensures { OnOk result (out.new.items ≡ out.old.items ++ spec.needed k) }
{
    if k > 0 {
        put_dylib(alloc, out, LC_LOAD_DYLIB, k - 1)?;
    }
    Ok(())
}

fn put_split_info(alloc: Global, out: &mut Vec<u8>, split: Spot) -> Result<(), NoMemory>
    ensures { OnOk result (out.new.items ≡ out.old.items ++ spelled (spec.split_fields split)) }
{
    let fields = [
        Field::U32(LC_SEGMENT_SPLIT_INFO),
        Field::U32(16),
        Field::U32(split.offset),
        Field::U32(split.size),
    ];
    put_fields(alloc, out, &fields)
}

/// The number of commands of image `k`, and their size in bytes.
fn command_sizes(k: u32) -> (u32, u32)
    ensures count { result.0 ≡ spec.ncmds k }
    ensures size { result.1 ≡ spec.sizeofcmds k }
{
    if k == 0 { (7, 0x200) } else { (8, 0x230) }
}

/// Appends the header of image `k` with its commands.
#[tactic(auto, unfolding(crate::specs::Commands::header_bytes))]
pub(crate) fn put_commands(
    alloc: Global,
    out: &mut Vec<u8>,
    k: u32,
    size: u32,
    linkedit: u32,
    identifier: &[u32],
    spots: &Spots,
) -> Result<(), NoMemory>
    requires { 4096 ≤ size }
    ensures { OnOk result (out.new.items ≡ out.old.items ++ spec.header_bytes size k linkedit identifier.now spots.now) }
{
    let (ncmds, sizeofcmds) = command_sizes(k);
    put_header(alloc, out, ncmds, sizeofcmds)?;
    put_segments(alloc, out, size, linkedit)?;
    put_dylib(alloc, out, LC_ID_DYLIB, k)?;
    put_dyld_info(alloc, out, spots)?;
    put_uuid(alloc, out, identifier)?;
    put_needed(alloc, out, k)?;
    put_split_info(alloc, out, spots.split)?;
    Ok(())
}

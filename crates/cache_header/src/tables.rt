// The parts of a head as bytes: the header, the three tables and the paths.
ghost use Rattle.std.specs.Prelude.{◌≡◌, ◌≤◌, ◌<◌, ◌^◌, ◌++◌, ◌*◌, length, true, All, IfOk, OnOk};
ghost use Rattle.std.specs.List.{flat_map};
ghost use Rattle.dsc_base.specs.Fields.{spelled};
ghost use Rattle.dsc_base.specs.Texts.{is_plain_text};
ghost use Rattle.cache_header.specs.Spelling.{header_fields, mapping_fields, image_info, text_info, image_table, text_table, path_bytes, path_room, path_place};
ghost use Rattle.cache_header.specs.Widths.{FitsMapping, FitsEntry};

use crate::{Mapping, TableImage};
use dsc_base::{Field, NoMemory, REGION_SIZE, REGION_START, Span, spell_fields};
use std::alloc::Global;

/// The first bytes of a cache.
pub(crate) const MAGIC: [u8; 16] = *b"dyld_v1  x86_64\0";

/// The size of the header, in bytes.
const HEADER_SIZE: u32 = 0xF8;

/// The size of an entry of each table, in bytes.
const ENTRY_SIZE: u32 = 32;

/// Where the tables of the images begin, behind the header and three mappings.
const IMAGE_TABLE: u32 = HEADER_SIZE + 3 * ENTRY_SIZE;

/// Appends the bytes of the fields.
fn append_fields(alloc: Global, out: &mut Vec<u8>, fields: &[Field]) -> Result<(), NoMemory>
    ensures { OnOk result (out.new.items ≡ out.old.items ++ spelled fields.now) }
{
    let bytes = spell_fields(alloc, fields)?;
    out.extend_from_slice(&bytes)?;
    Ok(())
}

/// The header of a cache with so many images.
pub(crate) fn header(
    alloc: Global,
    images: u32,
    slide_info: Span,
    uuid: [u8; 16],
    max_slide: u64,
) -> Result<Vec<u8>, NoMemory>
    requires { images ≤ 4096 }
    ensures bytes { IfOk result (λ v. v.items ≡ spelled (header_fields images slide_info uuid max_slide)) }
    ensures uuid_fits { length uuid ≡ 16 }
    ensures slide_fits { (slide_info.at < 2 ^ 64) × (slide_info.len < 2 ^ 64) }
    ensures max_fits { max_slide < 2 ^ 64 }
{
    let header = spell_fields(
        alloc,
        &[
            Field::Identifier(MAGIC),
            Field::U32(HEADER_SIZE),
            Field::U32(3),
            Field::U32(IMAGE_TABLE),
            Field::U32(images),
            Field::Zeros(0x18),
            Field::U64(slide_info.at),
            Field::U64(slide_info.len),
            Field::Zeros(0x10),
            Field::Identifier(uuid),
            Field::Zeros(0x20),
            Field::U64(u64::from(IMAGE_TABLE + ENTRY_SIZE * images)),
            Field::U64(u64::from(images)),
            Field::Zeros(0x40),
            Field::U32(1),
            Field::Zeros(4),
            Field::U64(REGION_START),
            Field::U64(REGION_SIZE),
            Field::U64(max_slide),
        ],
    )?;
    Ok(header)
}

/// Appends an entry of the mapping table.
fn append_mapping(alloc: Global, out: &mut Vec<u8>, mapping: Mapping) -> Result<(), NoMemory>
    ensures bytes { OnOk result (out.new.items ≡ out.old.items ++ spelled (mapping_fields mapping)) }
    ensures fits { FitsMapping mapping }
{
    append_fields(
        alloc,
        out,
        &[
            Field::U64(mapping.address),
            Field::U64(mapping.size),
            Field::U64(mapping.file),
            Field::U32(mapping.max_prot),
            Field::U32(mapping.init_prot),
        ],
    )
}

/// The mapping table.
pub(crate) fn mapping_table(alloc: Global, mappings: &[Mapping]) -> Result<Vec<u8>, NoMemory>
    requires { length mappings.now ≡ 3 }
    ensures bytes { IfOk result (λ v. v.items ≡ spelled (flat_map mapping_fields mappings.now)) }
    ensures fits { OnOk result (All FitsMapping mappings.now) }
{
    let mut table = Vec::with_capacity(alloc, ENTRY_SIZE as usize * mappings.len())?;
    for mapping in mappings {
        append_mapping(alloc, &mut table, *mapping)?;
    }
    Ok(table)
}

/// Appends an entry of the image table.
fn append_image(
    alloc: Global,
    out: &mut Vec<u8>,
    address: u64,
    path_at: u32,
) -> Result<(), NoMemory>
    ensures { OnOk result (out.new.items ≡ out.old.items ++ spelled (image_info address path_at)) }
{
    append_fields(
        alloc,
        out,
        &[
            Field::U64(address),
            Field::U64(0),
            Field::U64(0),
            Field::U32(path_at),
            Field::U32(0),
        ],
    )
}

/// Appends an entry of the image text table.
fn append_text(
    alloc: Global,
    out: &mut Vec<u8>,
    uuid: [u8; 16],
    address: u64,
    text_size: u32,
    path_at: u32,
) -> Result<(), NoMemory>
    ensures bytes { OnOk result (out.new.items ≡
        out.old.items ++ spelled (text_info uuid address text_size path_at)) }
    ensures uuid_fits { length uuid ≡ 16 }
    ensures address_fits { address < 2 ^ 64 }
    ensures size_fits { text_size < 2 ^ 32 }
{
    append_fields(
        alloc,
        out,
        &[
            Field::Identifier(uuid),
            Field::U64(address),
            Field::U32(text_size),
            Field::U32(path_at),
        ],
    )
}

/// The room that the path of an image takes, with its NUL.
fn path_room(image: &TableImage) -> u32
    requires { is_plain_text image.now.path ≡ true }
    ensures { result ≡ path_room image.now }
{
    image.path.as_slice().len() as u32 + 1
}

/// Where the path of the first image stands, behind both tables of the images.
fn first_path(images: &[TableImage]) -> u32
    requires { length images.now ≤ 4096 }
    ensures { result ≡ path_place images.now 0 }
{
    IMAGE_TABLE + 2 * ENTRY_SIZE * images.len() as u32
}

/// The image table.
pub(crate) fn image_table(alloc: Global, images: &[TableImage]) -> Result<Vec<u8>, NoMemory>
    requires few { length images.now ≤ 4096 }
    requires plain { All (λ e. is_plain_text e.path ≡ true) images.now }
    ensures { IfOk result (λ v. v.items ≡ spelled (image_table images.now)) }
{
    let mut path_at = first_path(images);
    let mut table = Vec::with_capacity(alloc, ENTRY_SIZE as usize * images.len())?;
    for image in images {
        append_image(alloc, &mut table, image.address, path_at)?;
        path_at += path_room(image);
    }
    Ok(table)
}

/// The image text table.
pub(crate) fn text_table(alloc: Global, images: &[TableImage]) -> Result<Vec<u8>, NoMemory>
    requires few { length images.now ≤ 4096 }
    requires plain { All (λ e. is_plain_text e.path ≡ true) images.now }
    ensures bytes { IfOk result (λ v. v.items ≡ spelled (text_table images.now)) }
    ensures fits { OnOk result (All FitsEntry images.now) }
{
    let mut path_at = first_path(images);
    let mut table = Vec::with_capacity(alloc, ENTRY_SIZE as usize * images.len())?;
    for image in images {
        append_text(
            alloc,
            &mut table,
            image.uuid,
            image.address,
            image.text_size,
            path_at,
        )?;
        path_at += path_room(image);
    }
    Ok(table)
}

/// The bytes of the paths, each with its NUL.
pub(crate) fn paths(alloc: Global, images: &[TableImage]) -> Result<Vec<u8>, NoMemory>
    ensures { IfOk result (λ v. v.items ≡ flat_map path_bytes images.now) }
{
    let mut paths = Vec::new(alloc);
    for image in images {
        paths.extend_from_slice(image.path.as_slice())?;
        paths.push(0)?;
    }
    Ok(paths)
}

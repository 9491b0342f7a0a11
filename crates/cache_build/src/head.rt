// The head of the cache of a set of images.
ghost use Rattle.std.specs.Prelude.{◌≡◌, ◌≤◌, ◌<◌, ◌+◌, ◌-◌, ◌^◌, map, length, All, IfOk};
ghost use Rattle.dsc_base.specs.Region.{region_start};
ghost use Rattle.cache_header.specs.Spelling.{head_bytes};
ghost use Rattle.cache_layout.specs.Places.{numbered};
ghost use Rattle.load_model.specs.Mapped.{three_mappings};
ghost use Rattle.cache_build.specs.Head.{text_address, text_size, entry_of, head_of};
ghost use Rattle.cache_build.specs.Fits.{Fits};

use crate::frame::Frame;
use cache_header::{CacheHead, Mapping, TableImage, cache_uuid, write_cache_head};
use cache_layout::Layout;
use dsc_base::{Name, NoMemory, REGION_SIZE, REGION_START, Span};
use macho_image::{Image, Moves, Segment};
use std::alloc::Global;

/// Protections of mach/vm_prot.h: read and execute, read and write, and read.
const READ_EXECUTE: u32 = 5;

const READ_WRITE: u32 = 3;

const READ: u32 = 1;

/// A mapping of a cache, at the address of its place in the file.
fn mapping(file: u64, size: u64, protection: u32) -> Mapping
    requires { file ≤ 0x2000_0000 }
    ensures { result ≡ record { address = region_start + file; size = size; file = file; max_prot = protection; init_prot = protection } }
{
    Mapping {
        address: REGION_START + file,
        size,
        file,
        max_prot: protection,
        init_prot: protection,
    }
}

/// The text mapping with the head, the data mapping, and the linkedit mapping up to the cache's end.
fn mappings(alloc: Global, writable: Span, span: u64) -> Result<Vec<Mapping>, NoMemory>
    requires within { writable.at + writable.len ≤ span }
    requires small { span ≤ 0x2000_0000 }
    ensures { IfOk result (λ v. v.items ≡ three_mappings writable.at writable.len (span - (writable.at + writable.len))) }
{
    let end = writable.at + writable.len;
    let mut mappings = Vec::with_capacity(alloc, 3)?;
    mappings.push(mapping(0, writable.at, READ_EXECUTE))?;
    mappings.push(mapping(writable.at, writable.len, READ_WRITE))?;
    mappings.push(mapping(end, span - end, READ))?;
    Ok(mappings)
}

/// The address of an image's first segment, which begins with its header.
fn text_address(moves: &Moves) -> u64
    ensures { result ≡ text_address moves.now }
{
    match moves.segments.first() {
        Some(moved) => moved.address,
        None => 0,
    }
}

/// The size in memory of the first segment, in bytes.
fn text_size(segments: &[Segment<'_>]) -> u64
    ensures { result ≡ text_size segments.now }
{
    match segments.first() {
        Some(text) => text.vmsize,
        None => 0,
    }
}

/// What the tables tell of an image.
fn entry(alloc: Global, image: &Image<'_>, moves: &Moves) -> Result<TableImage, NoMemory>
    requires { text_size image.now.segments < 2 ^ 32 }
    ensures { IfOk result (λ e. e ≡ record { address = text_address moves.now; path = image.now.install_name; uuid = image.now.uuid; text_size = text_size image.now.segments }) }
{
    Ok(TableImage {
        address: text_address(moves),
        path: Name::from_slice(alloc, image.install_name)?,
        uuid: image.uuid,
        text_size: text_size(&image.segments) as u32,
    })
}

/// What the tables tell of all images.
fn entries(
    alloc: Global,
    images: &[Image<'_>],
    layout: &Layout,
) -> Result<Vec<TableImage>, NoMemory>
    requires few { length images.now ≤ 4096 }
    requires one_each { length layout.now.moves ≡ length images.now }
    requires texts { All (λ i. text_size i.segments < 2 ^ 32) images.now }
    ensures { IfOk result (λ v. v.items ≡ numbered (entry_of layout.now) images.now) }
{
    let mut entries = Vec::with_capacity(alloc, images.len())?;
    for (number, image) in images.iter().enumerate() {
        let entry = entry(alloc, image, layout.moves(number as u32))?;
        entries.push(entry)?;
    }
    Ok(entries)
}

/// The identifiers of the images.
fn identifiers(alloc: Global, images: &[Image<'_>]) -> Result<Vec<[u8; 16]>, NoMemory>
    ensures { IfOk result (λ v. v.items ≡ map (λ i. i.uuid) images.now) }
{
    let mut identifiers = Vec::with_capacity(alloc, images.len())?;
    for image in images {
        identifiers.push(image.uuid)?;
    }
    Ok(identifiers)
}

/// The head of the cache of these images, as bytes, where its slide information and its end are told.
#[tactic(auto, unfolding(crate::specs::Head::head_of))]
pub fn cache_head(
    alloc: Global,
    images: &[Image<'_>],
    layout: &Layout,
    frame: &Frame,
) -> Result<Vec<u8>, NoMemory>
    requires few { length images.now ≤ 4096 }
    requires one_each { length layout.now.moves ≡ length images.now }
    requires images { All Fits images.now }
    requires within { layout.now.writable.at + layout.now.writable.len ≤ frame.now.span }
    requires small { frame.now.span ≤ 0x2000_0000 }
    ensures { IfOk result (λ v. v.items ≡ head_bytes (head_of layout.now frame.now images.now)) }
{
    let head = CacheHead {
        mappings: mappings(alloc, layout.writable(), frame.span)?,
        images: entries(alloc, images, layout)?,
        slide_info: Span {
            at: frame.slide_at,
            len: frame.slide_size,
        },
        uuid: cache_uuid(alloc, &identifiers(alloc, images)?)?,
        max_slide: REGION_SIZE - frame.span,
    };
    let bytes = write_cache_head(alloc, &head)?;
    Ok(bytes)
}

// What the head of a cache tells, as text.
ghost use Rattle.std.specs.Prelude.{◌≡◌, ◌++◌, IfOk, string_bytes};
ghost use Rattle.dsc_tool.specs.Texts.{image_line, image_lines, list_text, mapping_line, mapping_lines, images_line, slide_info_line, uuid_line, max_slide_line, info_text};

use cache_header::{CacheHead, Mapping, TableImage};
use dsc_base::{NoMemory, Span};
use std::alloc::Global;
use uuid::Uuid;

/// Where each image of the cache is, and its path, in a line.
pub(crate) fn list_text(alloc: Global, head: &CacheHead) -> Result<Vec<u8>, NoMemory>
    ensures { IfOk result (λ text. text.items ≡ list_text head.now) }
{
    images_lines(alloc, &head.images)
}

fn images_lines(alloc: Global, images: &[TableImage]) -> Result<Vec<u8>, NoMemory>
    ensures { IfOk result (λ text. text.items ≡ image_lines images.now) }
{
    let mut text = Vec::new(alloc);
    for image in images {
        text.extend_from_slice(&image_text(alloc, image)?)?;
    }
    Ok(text)
}

#[tactic(auto, unfolding(crate::specs::Texts::image_line))]
fn image_text(alloc: Global, image: &TableImage) -> Result<Vec<u8>, NoMemory>
    ensures { IfOk result (λ text. text.items ≡ image_line image.now) }
{
    let address = image.address;
    let mut text = format!(in alloc; "0x{address:x} ")?.into_bytes();
    text.extend_from_slice(image.path.as_slice())?;
    text.push(b'\n')?;
    Ok(text)
}

/// What the head of a cache says, in a line for each mapping and five more.
pub(crate) fn info_text(alloc: Global, head: &CacheHead) -> Result<Vec<u8>, NoMemory>
    ensures { IfOk result (λ text. text.items ≡ info_text head.now) }
{
    let mut text = mappings_text(alloc, &head.mappings)?;
    text.extend_from_slice(images_text(alloc, head.images.len())?.as_bytes())?;
    text.extend_from_slice(slide_info_text(alloc, &head.slide_info)?.as_bytes())?;
    text.extend_from_slice(uuid_text(alloc, head.uuid)?.as_bytes())?;
    text.extend_from_slice(max_slide_text(alloc, head.max_slide)?.as_bytes())?;
    Ok(text)
}

fn mappings_text(alloc: Global, mappings: &[Mapping]) -> Result<Vec<u8>, NoMemory>
    ensures { IfOk result (λ text. text.items ≡ mapping_lines mappings.now) }
{
    let mut text = Vec::new(alloc);
    for mapping in mappings {
        text.extend_from_slice(mapping_text(alloc, mapping)?.as_bytes())?;
    }
    Ok(text)
}

#[tactic(auto, unfolding(crate::specs::Texts::mapping_line))]
fn mapping_text(alloc: Global, mapping: &Mapping) -> Result<String, NoMemory>
    ensures { IfOk result (λ text. string_bytes text ≡ mapping_line mapping.now) }
{
    let Mapping {
        address,
        size,
        file,
        max_prot,
        init_prot,
    } = *mapping;
    Ok(format!(in alloc;
        "mapping 0x{address:x} size 0x{size:x} file 0x{file:x} prot {max_prot}/{init_prot}\n"
    )?)
}

#[tactic(auto, unfolding(crate::specs::Texts::images_line))]
fn images_text(alloc: Global, images: usize) -> Result<String, NoMemory>
    ensures { IfOk result (λ text. string_bytes text ≡ images_line images) }
{
    Ok(format!(in alloc; "images {images}\n")?)
}

#[tactic(auto, unfolding(crate::specs::Texts::slide_info_line))]
fn slide_info_text(alloc: Global, place: &Span) -> Result<String, NoMemory>
    ensures { IfOk result (λ text. string_bytes text ≡ slide_info_line place.now) }
{
    let Span { at, len } = *place;
    Ok(format!(in alloc; "slide info at 0x{at:x} size 0x{len:x}\n")?)
}

#[tactic(auto, unfolding(crate::specs::Texts::uuid_line))]
fn uuid_text(alloc: Global, bytes: [u8; 16]) -> Result<String, NoMemory>
    ensures { IfOk result (λ text. string_bytes text ≡ uuid_line bytes) }
{
    let uuid = Uuid::from_bytes(bytes);
    Ok(format!(in alloc; "uuid {uuid}\n")?)
}

#[tactic(auto, unfolding(crate::specs::Texts::max_slide_line))]
fn max_slide_text(alloc: Global, slide: u64) -> Result<String, NoMemory>
    ensures { IfOk result (λ text. string_bytes text ≡ max_slide_line slide) }
{
    Ok(format!(in alloc; "max slide 0x{slide:x}\n")?)
}

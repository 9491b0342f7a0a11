// What is told of a verdict, in a line.
ghost use Rattle.std.specs.Prelude.{◌≡◌, IfOk, string_bytes};
ghost use Rattle.dsc_tool.specs.VerdictTexts as spec;

use crate::hex::wide_hex;
use cache_check::{Difference, Seen, Verdict};
use dsc_base::{Finding, NoMemory};
use std::alloc::Global;

/// The verdict on a cache and so many files.
pub(crate) fn verdict_text(
    alloc: Global,
    images: u32,
    verdict: &Verdict,
) -> Result<String, NoMemory>
    ensures { IfOk result (λ text. string_bytes text ≡ spec.verdict_line images verdict.now) }
{
    match verdict {
        Verdict::Agrees => agrees_text(alloc, images),
        Verdict::Differs(difference) => difference_text(alloc, difference),
        Verdict::Broken(found) => broken_text(alloc, found),
    }
}

/// What is wrong with a cache.
#[tactic(auto, unfolding(crate::specs::VerdictTexts::broken_line))]
pub(crate) fn broken_text(alloc: Global, found: &Finding) -> Result<String, NoMemory>
    ensures { IfOk result (λ text. string_bytes text ≡ spec.broken_line found.now) }
{
    let Finding { kind, image, at } = *found;
    let number = kind.number();
    let name = kind.text();
    Ok(format!(in alloc; "broken: {number} {name} image {image} at 0x{at:x}\n")?)
}

#[tactic(auto, unfolding(crate::specs::VerdictTexts::agrees_line))]
fn agrees_text(alloc: Global, images: u32) -> Result<String, NoMemory>
    ensures { IfOk result (λ text. string_bytes text ≡ spec.agrees_line images) }
{
    Ok(format!(in alloc; "agrees: {images} images\n")?)
}

fn difference_text(alloc: Global, difference: &Difference) -> Result<String, NoMemory>
    ensures { IfOk result (λ text. string_bytes text ≡ spec.difference_line difference.now) }
{
    match difference {
        Difference::Images { found, wanted } => images_text(alloc, *found, *wanted),
        Difference::Path { image, .. } => path_text(alloc, *image),
        Difference::Shape {
            image,
            part,
            found,
            wanted,
        } => shape_text(alloc, *image, *part, *found, *wanted),
        Difference::Bytes {
            image,
            section,
            offset,
            found,
            wanted,
        } => bytes_text(alloc, *image, *section, *offset, *found, *wanted),
        Difference::Export { image, index, .. } => export_text(alloc, *image, *index),
    }
}

#[tactic(auto, unfolding(crate::specs::VerdictTexts::images_differ_line))]
fn images_text(alloc: Global, found: u32, wanted: u32) -> Result<String, NoMemory>
    ensures { IfOk result (λ text. string_bytes text ≡ spec.images_differ_line found wanted) }
{
    Ok(format!(in alloc; "differs: images found {found} wanted {wanted}\n")?)
}

#[tactic(auto, unfolding(crate::specs::VerdictTexts::path_line))]
fn path_text(alloc: Global, image: u32) -> Result<String, NoMemory>
    ensures { IfOk result (λ text. string_bytes text ≡ spec.path_line image) }
{
    Ok(format!(in alloc; "differs: image {image} path\n")?)
}

#[tactic(auto, unfolding(crate::specs::VerdictTexts::shape_line))]
fn shape_text(
    alloc: Global,
    image: u32,
    part: u32,
    found: u128,
    wanted: u128,
) -> Result<String, NoMemory>
    ensures { IfOk result (λ text. string_bytes text ≡ spec.shape_line image part found wanted) }
{
    let found = wide_hex(alloc, found)?;
    let wanted = wide_hex(alloc, wanted)?;
    Ok(format!(in alloc;
        "differs: image {image} shape {part} found 0x{found} wanted 0x{wanted}\n"
    )?)
}

#[tactic(auto, unfolding(crate::specs::VerdictTexts::bytes_line))]
fn bytes_text(
    alloc: Global,
    image: u32,
    section: u32,
    offset: u64,
    found: Seen,
    wanted: Seen,
) -> Result<String, NoMemory>
    ensures { IfOk result (λ text. string_bytes text ≡ spec.bytes_line image section offset found wanted) }
{
    let found = seen_text(alloc, found)?;
    let wanted = seen_text(alloc, wanted)?;
    Ok(format!(in alloc;
        "differs: image {image} section {section} offset 0x{offset:x} found {found} wanted {wanted}\n"
    )?)
}

#[tactic(auto, unfolding(crate::specs::VerdictTexts::seen_text))]
fn seen_text(alloc: Global, seen: Seen) -> Result<String, NoMemory>
    ensures { IfOk result (λ text. string_bytes text ≡ spec.seen_text seen) }
{
    let kind = kind_of(seen);
    let value = value_of(seen);
    Ok(format!(in alloc; "{kind} 0x{value:x}")?)
}

#[tactic(auto, unfolding(crate::specs::VerdictTexts::export_line))]
fn export_text(alloc: Global, image: u32, index: u32) -> Result<String, NoMemory>
    ensures { IfOk result (λ text. string_bytes text ≡ spec.export_line image index) }
{
    Ok(format!(in alloc; "differs: image {image} export {index}\n")?)
}

fn kind_of(seen: Seen) -> &'static str
    ensures { result.now ≡ spec.kind_of seen }
{
    match seen {
        Seen::Number(_) => "number",
        Seen::Address(_) => "address",
    }
}

fn value_of(seen: Seen) -> u64
    ensures { result ≡ spec.value_of seen }
{
    match seen {
        Seen::Number(value) | Seen::Address(value) => value,
    }
}

// What a run prints, but for what it tells of a cache.
ghost use Rattle.std.specs.Prelude.{◌≡◌, IfOk, string_bytes};
ghost use Rattle.dsc_tool.specs.Texts.{usage_text, cannot_write_line, no_memory_line, no_image_line, cannot_read_line, refused_line, flawed_line, built_line, extracted_line, trial_line};

use dsc_base::{Break, Finding, NoMemory};
use std::alloc::Global;

/// How the program is called.
#[tactic(auto, unfolding(crate::specs::Texts::usage_text))]
pub(crate) fn usage_text() -> &'static str
    ensures { result.now ≡ usage_text }
{
    "usage: dsc build [--jobs N] OUT IN...\n       dsc check CACHE IN...\n       dsc extract [--image PATH] CACHE PREFIX\n       dsc list CACHE\n       dsc info CACHE\n       dsc trial [--jobs N] SEED COUNT\n"
}

/// The cache has no image with the path.
#[tactic(auto, unfolding(crate::specs::Texts::no_image_line))]
pub(crate) fn no_image_text() -> &'static str
    ensures { result.now ≡ no_image_line }
{
    "dsc: no such image\n"
}

/// A file or standard output was not written.
#[tactic(auto, unfolding(crate::specs::Texts::cannot_write_line))]
pub(crate) fn cannot_write_text() -> &'static str
    ensures { result.now ≡ cannot_write_line }
{
    "dsc: cannot write\n"
}

/// Memory ran out.
#[tactic(auto, unfolding(crate::specs::Texts::no_memory_line))]
pub(crate) fn no_memory_text() -> &'static str
    ensures { result.now ≡ no_memory_line }
{
    "dsc: no memory\n"
}

/// The input with this number was not read. Inputs count from 0.
#[tactic(auto, unfolding(crate::specs::Texts::cannot_read_line))]
pub(crate) fn cannot_read_text(alloc: Global, input: u32) -> Result<String, NoMemory>
    ensures { IfOk result (λ text. string_bytes text ≡ cannot_read_line input) }
{
    Ok(format!(in alloc; "dsc: cannot read input {input}\n")?)
}

/// The files break this rule.
#[tactic(auto, unfolding(crate::specs::Texts::refused_line))]
pub(crate) fn refused_text(alloc: Global, found: &Break) -> Result<String, NoMemory>
    ensures { IfOk result (λ text. string_bytes text ≡ refused_line found.now) }
{
    let Break { rule, image, at } = *found;
    let number = rule.number();
    let name = rule.text();
    Ok(format!(in alloc; "dsc: refused {number} {name} image {image} at 0x{at:x}\n")?)
}

/// The cache has this finding.
#[tactic(auto, unfolding(crate::specs::Texts::flawed_line))]
pub(crate) fn flawed_text(alloc: Global, found: &Finding) -> Result<String, NoMemory>
    ensures { IfOk result (λ text. string_bytes text ≡ flawed_line found.now) }
{
    let Finding { kind, image, at } = *found;
    let number = kind.number();
    let name = kind.text();
    Ok(format!(in alloc; "dsc: cache broken {number} {name} image {image} at 0x{at:x}\n")?)
}

/// So many images were built to a cache of this span, in bytes.
#[tactic(auto, unfolding(crate::specs::Texts::built_line))]
pub(crate) fn built_text(alloc: Global, images: u32, span: u64) -> Result<String, NoMemory>
    ensures { IfOk result (λ text. string_bytes text ≡ built_line images span) }
{
    Ok(format!(in alloc; "built {images} images, span 0x{span:x}\n")?)
}

/// So many images were extracted.
#[tactic(auto, unfolding(crate::specs::Texts::extracted_line))]
pub(crate) fn extracted_text(alloc: Global, images: usize) -> Result<String, NoMemory>
    ensures { IfOk result (λ text. string_bytes text ≡ extracted_line images) }
{
    Ok(format!(in alloc; "extracted {images} images\n")?)
}

/// So many trial dylibs were built to a cache of this span, in bytes, in which so many words slide, and whose
/// bytes come to this sum.
#[tactic(auto, unfolding(crate::specs::Texts::trial_line))]
pub(crate) fn trial_text(
    alloc: Global,
    images: u32,
    words: usize,
    span: u64,
    bytes_sum: u64,
) -> Result<String, NoMemory>
    ensures { IfOk result (λ text. string_bytes text ≡ trial_line images words span bytes_sum) }
{
    Ok(format!(in alloc;
        "trial: {images} images, {words} words, span 0x{span:x}, sum {bytes_sum}\n"
    )?)
}

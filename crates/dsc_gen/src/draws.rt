// The words that the generator gives for an image.
ghost use Rattle.std.specs.Prelude.{◌≡◌, ◌≤◌, ◌*◌, IfOk, OnOk};
ghost use Rattle.dsc_gen.specs.Draws as spec;
ghost use Rattle.dsc_gen.specs.Files.{IsShape};

use crate::Shape;
use dsc_base::NoMemory;
use rand_core::utils::NextWord;
use rand_pcg::Lcg64Xsh32;
use std::alloc::Global;
use std::marker::Model;

/// Where `__text` begins, an offset in the file and an address: behind the header and its commands.
pub(crate) const TEXT_START: u32 = 0x800;

/// How many symbols an image exports.
const EXPORTS: u32 = 8;

/// How many words an identifier has.
const IDENTIFIER_WORDS: u32 = 4;

/// The words of an image, by what they decide.
#[derive(Drop)]
pub(crate) struct Draw {
    pub code: Vec<u32>,
    pub identifier: Vec<u32>,
    pub targets: Vec<u32>,
    pub pointers: Vec<u32>,
    pub exports: Vec<u32>,
    pub symbols: Vec<u32>,
}

impl Model for Draw {
    ghost use Rattle.dsc_gen.specs.Draws.{Draw};

    ghost Value = { Draw };

    ghost view = { λ d. record { code = d.code.items; identifier = d.identifier.items; targets = d.targets.items; pointers = d.pointers.items; exports = d.exports.items; symbols = d.symbols.items } };
}

/// The size of the text segment and of the data segment, in bytes.
pub(crate) fn segment_size(shape: &Shape) -> u32
    requires { IsShape shape.now }
    ensures { result ≡ spec.segment_size shape.now }
{
    4096 * shape.pages
}

/// The generator's next words, so many of them.
fn words(alloc: Global, generator: &mut Lcg64Xsh32, count: u32) -> Result<Vec<u32>, NoMemory>
    ensures words { IfOk result (λ v. v.items ≡ spec.words count generator.old) }
    ensures after { OnOk result (generator.new ≡ spec.after count generator.old) }
{
    let mut words = Vec::with_capacity(alloc, count as usize)?;
    for _ in 0..count {
        words.push(generator.next_word())?;
    }
    Ok(words)
}

/// The words of the image that comes next.
pub(crate) fn draw_image(
    alloc: Global,
    generator: &mut Lcg64Xsh32,
    shape: &Shape,
) -> Result<Draw, NoMemory>
    requires { IsShape shape.now }
    ensures drawn { IfOk result (λ d. d ≡ spec.drawn shape.now generator.old) }
    ensures after { OnOk result (generator.new ≡ spec.behind shape.now generator.old) }
    ensures whole { IfOk result (λ d. spec.IsDraw shape.now d) }
{
    let draw = draw_words(alloc, generator, shape)?;
    Ok(draw)
}

/// The words, by what they decide.
#[tactic(auto, unfolding(crate::specs::Draws::drawn, crate::specs::Draws::behind))]
fn draw_words(alloc: Global, generator: &mut Lcg64Xsh32, shape: &Shape) -> Result<Draw, NoMemory>
    requires { IsShape shape.now }
    ensures drawn { IfOk result (λ d. d ≡ spec.drawn shape.now generator.old) }
    ensures after { OnOk result (generator.new ≡ spec.behind shape.now generator.old) }
{
    let code = words(alloc, generator, (segment_size(shape) - TEXT_START) / 4)?;
    let identifier = words(alloc, generator, IDENTIFIER_WORDS)?;
    let targets = words(alloc, generator, shape.pointers)?;
    let pointers = words(alloc, generator, shape.pointers)?;
    let exports = words(alloc, generator, EXPORTS)?;
    let symbols = words(alloc, generator, shape.links)?;
    Ok(Draw {
        code,
        identifier,
        targets,
        pointers,
        exports,
        symbols,
    })
}

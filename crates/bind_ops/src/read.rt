// A bind stream read whole.
ghost use Rattle.std.specs.Prelude.{◌≡◌, map, IfOk, IfErr};
ghost use Rattle.std.specs.List.Sorted.{IsPermutation, IsNonDecreasingBy};
ghost use Rattle.dsc_base.specs.declared.fault.Fault.TheVariants as faults;
ghost use Rattle.dsc_base.specs.Refusals.{Refuses};
ghost use Rattle.bind_ops.specs.Binds as spec;
ghost use Rattle.bind_ops.specs.Opcodes.{spelling};
ghost use Rattle.bind_ops.specs.Steps.Effects.{settings_of, effect_ends};
ghost use Rattle.macho_image.specs.Streams.{opcodes_of, records, reading_break};

use crate::fault::BindFault;
use crate::opcode::{Effect, read_opcode};
use crate::run::{State, apply, broken};
use crate::{Bind, StreamKind};
use dsc_base::{Fault, Site};
use macho_image::{Image, Location, first_close};
use std::alloc::Global;

/// Whether what an opcode does ends its stream.
fn ends(kind: StreamKind, effect: &Effect<'_>) -> bool
    ensures { result ≡ effect_ends kind effect.now }
{
    match kind {
        StreamKind::Bind => matches!(effect, Effect::Ends),
        StreamKind::Lazy => false,
    }
}

fn start<'a>() -> State<'a>
    ensures { settings_of result ≡ spec.start }
{
    State {
        segment: None,
        offset: 0,
        ordinal: None,
        symbol: None,
        addend: 0,
    }
}

/// The binds in reading order.
fn read_stream<'a>(
    alloc: Global,
    stream: &'a [u8],
    kind: StreamKind,
    image: &Image<'_>,
) -> Result<Vec<Bind<'a>>, Fault>
    ensures found { IfOk result (λ v. v.items ≡ records (spec.meaning kind image.now) spec.start (opcodes_of (spelling kind) stream.entry.now)) }
    ensures cause { Refuses (reading_break (spec.meaning kind image.now) spec.start 0 (opcodes_of (spelling kind) stream.entry.now)) result }
{
    let mut out = Vec::new(alloc);
    let mut state = start();
    let mut at = 0;
    while at < stream.len() {
        let (effect, next) = match read_opcode(stream, at) {
            Ok(read) => read,
            Err(fault) => return Err(broken(kind, fault, at)),
        };
        if ends(kind, &effect) {
            return Ok(out);
        }
        apply(image, kind, &mut state, effect, at, &mut out)?;
        at = next;
    }
    Ok(out)
}

/// The places of binds, in address order.
fn sorted_places(alloc: Global, binds: &[Bind<'_>]) -> Result<Vec<Location>, Fault>
    ensures moved { IfOk result (λ v. IsPermutation (spec.places_of binds.now) v.items) }
    ensures rises { IfOk result (λ v. IsNonDecreasingBy (λ l. l.address) v.items) }
    ensures cause { IfErr result (λ e. e ≡ faults.Memory) }
{
    let mut places = Vec::with_capacity(alloc, binds.len())?;
    for bind in binds {
        places.push(bind.at)?;
    }
    places.sort_by_key(|l| l.address)?;
    Ok(places)
}

/// The words that a bind stream, or a lazy one, sets to addresses of symbols of an image, in reading order. The
/// opcodes are those of `mach-o/loader.h`.
///
/// Refuses the first rule that the stream breaks, from `BindBadUleb` to `BindBadName` with the offset of the
/// opcode that breaks it, and after a reading without fault `BindTwice` with the least address that has
/// another bound word less than 8 bytes away; of the lazy stream the rules of the same names with `Lazy`.
/// Time and memory are bounded by the stream's length and by the number of binds that are accepted, which is
/// at most 1,048,576.
pub fn read_binds<'a>(
    alloc: Global,
    stream: &'a [u8],
    kind: StreamKind,
    image: &Image<'_>,
) -> Result<Vec<Bind<'a>>, Fault>
    ensures found { IfOk result (λ v. v.items ≡ spec.binds_of kind stream.entry.now image.now) }
    ensures sound { IfOk result (λ v. spec.AreBinds image.now v.items) }
    ensures cause { Refuses (spec.bind_break kind stream.entry.now image.now) result }
{
    let binds = read_stream(alloc, stream, kind, image)?;
    let places = sorted_places(alloc, &binds)?;
    match first_close(&places) {
        Some(at) => Err(Fault::Broken(Site {
            rule: BindFault::Twice.rule_in(kind),
            at,
        })),
        None => Ok(binds),
    }
}

// A rebase stream read whole.
ghost use Rattle.std.specs.Prelude.{◌≡◌, IfOk};
ghost use Rattle.dsc_base.specs.Refusals.{Refuses};
ghost use Rattle.macho_image.specs.Streams.{opcodes_of, records, reading_break};
ghost use Rattle.rebase_ops.specs.Opcodes.{spelling};
ghost use Rattle.rebase_ops.specs.Rebases as spec;

use crate::opcode::{Effect, read_opcode};
use crate::run::{Cursor, apply};
use dsc_base::{Fault, Rule, Site};
use macho_image::{Image, Location, first_close};
use std::alloc::Global;

/// The locations in reading order.
fn read_stream(alloc: Global, stream: &[u8], image: &Image<'_>) -> Result<Vec<Location>, Fault>
    ensures found { IfOk result (λ v. v.items ≡ records (spec.meaning image.now) spec.start (opcodes_of spelling stream.now)) }
    ensures cause { Refuses (reading_break (spec.meaning image.now) spec.start 0 (opcodes_of spelling stream.now)) result }
{
    let mut out = Vec::new(alloc);
    let mut cursor = Cursor {
        segment: None,
        offset: 0,
    };
    let mut at = 0;
    while at < stream.len() {
        let (effect, next) = match read_opcode(stream, at) {
            Ok(read) => read,
            Err(rule) => {
                return Err(Fault::Broken(Site {
                    rule,
                    at: at as u64,
                }));
            }
        };
        if let Effect::Ends = effect {
            return Ok(out);
        }
        cursor = apply(image, cursor, effect, at, &mut out)?;
        at = next;
    }
    Ok(out)
}

/// The locations that a rebase stream spells for an image, in address order: each is a pointer of 8 bytes to
/// which loading adds the image's slide. The opcodes are those of `mach-o/loader.h`.
///
/// Refuses the first rule that the stream breaks, from `RebaseBadUleb` to `RebaseTooMany` with the offset
/// of the opcode that breaks it, and then `RebasedTwice` with the least address that has another location
/// less than 8 bytes away. Time and memory are bounded by the stream's length and by the number of records
/// that are accepted, which is at most 1,048,576.
pub fn read_rebases(alloc: Global, stream: &[u8], image: &Image<'_>) -> Result<Vec<Location>, Fault>
    ensures found { IfOk result (λ v. v.items ≡ spec.rebases_of stream.now image.now) }
    ensures sound { IfOk result (λ v. spec.AreRebases image.now v.items) }
    ensures cause { Refuses (spec.rebase_break stream.now image.now) result }
{
    let mut locations = read_stream(alloc, stream, image)?;
    locations.sort_by_key(|l| l.address)?;
    match first_close(&locations) {
        Some(at) => Err(Fault::Broken(Site {
            rule: Rule::RebasedTwice,
            at,
        })),
        None => Ok(locations),
    }
}

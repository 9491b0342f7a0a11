// What one opcode records, and where the next one begins.
ghost use Rattle.std.specs.Prelude.{◌≡◌, ◌++◌, ◌+◌, ◌*◌, length, map, option_map, IfOk, OnOk};
ghost use Rattle.dsc_base.specs.Refusals.{Refuses};
ghost use Rattle.macho_image.specs.Places.{wrap, location, unless};
ghost use Rattle.macho_image.specs.Runs.{progression, first_fault};
ghost use Rattle.rebase_ops.specs.Rebases.{rule_of, record_fault, site_of};
ghost use Rattle.rebase_ops.specs.Steps.Effects.{offsets_of, cursor_after};

use crate::opcode::Effect;
use dsc_base::{Fault, Rule, Site};
use macho_image::{Image, Location, PlaceFault, locate};

/// The segment that is set, and the offset of the next record from its start.
#[derive(Clone, Copy)]
pub(crate) struct Cursor {
    pub segment: Option<u32>,
    pub offset: u64,
}

fn rule_of(fault: PlaceFault) -> Rule
    ensures { result ≡ rule_of fault }
{
    match fault {
        PlaceFault::OutsideSegment => Rule::RebaseOutsideSegment,
        PlaceFault::NotWritable => Rule::RebaseNotWritable,
        PlaceFault::OutsideSection => Rule::RebaseOutsideSection,
        PlaceFault::Misaligned => Rule::RebaseMisaligned,
        PlaceFault::CrossesPage => Rule::RebaseCrossesPage,
        PlaceFault::TooMany => Rule::RebaseTooMany,
    }
}

/// The word at an offset in the segment that is set, or the rule that a record there breaks, after so many of
/// the stream.
fn place(image: &Image<'_>, cursor: Cursor, offset: u64, before: usize) -> Result<Location, Rule>
    ensures { result ≡ unless (record_fault image.now cursor.segment offset before) (location image.now cursor.segment offset) }
{
    match locate(image, cursor.segment, offset, before) {
        Ok(location) => Ok(location),
        Err(fault) => Err(rule_of(fault)),
    }
}

/// So many records, each a step behind the one before it. It ends at the first one that is refused,
/// so that what it takes is bounded by the records that are accepted, whatever the count.
fn record(
    image: &Image<'_>,
    cursor: Cursor,
    count: u64,
    step: u64,
    at: usize,
    out: &mut Vec<Location>,
) -> Result<Cursor, Fault>
    ensures moved { IfOk result (λ c. c ≡ record { segment = cursor.segment; offset = wrap (cursor.offset + count * step) }) }
    ensures added { OnOk result (out.new.items ≡ out.old.items ++ map (location image.now cursor.segment) (progression cursor.offset step count)) }
    ensures cause { Refuses (option_map (site_of at) (first_fault (record_fault image.now cursor.segment) (length out.old.items) (progression cursor.offset step count))) result }
{
    let mut offset = cursor.offset;
    for _ in 0..count {
        match place(image, cursor, offset, out.len()) {
            Ok(location) => out.push(location)?,
            Err(rule) => {
                return Err(Fault::Broken(Site {
                    rule,
                    at: at as u64,
                }));
            }
        }
        offset = offset.wrapping_add(step);
    }
    Ok(Cursor {
        segment: cursor.segment,
        offset,
    })
}

/// Appends what the opcode at a place records, by what it does, and gives where the next one begins.
pub(crate) fn apply(
    image: &Image<'_>,
    cursor: Cursor,
    effect: Effect,
    at: usize,
    out: &mut Vec<Location>,
) -> Result<Cursor, Fault>
    ensures moved { IfOk result (λ c. c ≡ cursor_after cursor effect) }
    ensures added { OnOk result (out.new.items ≡ out.old.items ++ map (location image.now cursor.segment) (offsets_of cursor effect)) }
    ensures cause { Refuses (option_map (site_of at) (first_fault (record_fault image.now cursor.segment) (length out.old.items) (offsets_of cursor effect))) result }
{
    match effect {
        Effect::Ends | Effect::SetsPointerType => Ok(cursor),
        Effect::SetsPlace { segment, offset } => Ok(Cursor {
            segment: Some(segment),
            offset,
        }),
        Effect::Advances { distance } => Ok(Cursor {
            segment: cursor.segment,
            offset: cursor.offset.wrapping_add(distance),
        }),
        Effect::Records { count, step } => {
            let next = record(image, cursor, count, step, at, out)?;
            Ok(next)
        }
    }
}

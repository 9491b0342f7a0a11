// The split-segment information of an image read whole.
ghost use Rattle.std.specs.Prelude.{◌≡◌, ◌≤◌, true, nat_eq, slice_index, option_copied, length, IfOk};
ghost use Rattle.std.specs.List.Sorted.{IsNonDecreasingBy};
ghost use Rattle.dsc_base.specs.Refusals.{Refuses};
ghost use Rattle.split_info.specs.Stream.{spelled};
ghost use Rattle.split_info.specs.Split as spec;
ghost use Rattle.split_info.specs.Split.{AreReferences};

use crate::Reference;
use crate::overlap::first_overlap;
use crate::reading::{Source, read_number, read_pairs, refused};
use crate::words::Words;
use dsc_base::{Fault, Rule, Site};
use macho_image::{Image, Location};
use std::alloc::Global;

/// `DYLD_CACHE_ADJ_V2_FORMAT`, with which a stream begins.
const FORMAT: u8 = 0x7F;

fn is_version_two(stream: &[u8]) -> bool
    ensures format { result ≡ nat_eq (slice_index stream.now 0) 0x7F }
    ensures some { result ≡ true → 1 ≤ length stream.now }
{
    matches!(stream, [FORMAT, ..])
}

/// Whether more than one segment besides `__LINKEDIT` can move.
fn is_unsplit(image: &Image<'_>) -> bool
    ensures { result ≡ spec.is_unsplit image.now }
{
    image.segments.iter().filter(|s| !s.is_linkedit()).count() > 1
}

fn read_stream(
    alloc: Global,
    stream: &[u8],
    image: &Image<'_>,
    rebases: &Words<'_>,
) -> Result<Vec<Reference>, Fault>
    ensures found { IfOk result (λ v. v.items ≡ spec.references (spelled stream.now image.now)) }
    ensures cause { Refuses (spec.reading_break rebases.now 0 (spelled stream.now image.now)) result }
{
    if !is_version_two(stream) {
        return Err(refused(Rule::SplitNotV2, 0));
    }
    let source = Source { stream, rebases };
    let mut found = Vec::new(alloc);
    let (count, first) = read_number(stream, 1)?;
    read_pairs(&source, image, count, first, &mut found)?;
    Ok(found)
}

/// The references in reading order, before it is known whether they overlap.
#[tactic(auto, unfolding(crate::specs::Split::spelled_of, crate::specs::Split::references_of))]
fn read_references(
    alloc: Global,
    stream: Option<&[u8]>,
    image: &Image<'_>,
    rebases: &Words<'_>,
) -> Result<Vec<Reference>, Fault>
    ensures found { IfOk result (λ v. v.items ≡ spec.references_of (option_copied stream.entry) image.now) }
    ensures cause { Refuses (spec.reading_break rebases.now 0 (spec.spelled_of (option_copied stream.entry) image.now)) result }
{
    match stream {
        Some(bytes) => read_stream(alloc, bytes, image, rebases),
        None if is_unsplit(image) => Err(refused(Rule::NoSplitInfo, 0)),
        None => Ok(Vec::new(alloc)),
    }
}

/// The references that the split-segment information of an image spells, in reading order. `stream` is
/// `None` where the image has no such command, `rebases` are the places of its rebases in the order of
/// their addresses, and `bound` those of its binds in any order. The stream's format is
/// `DYLD_CACHE_ADJ_V2` of Apple's published linker and cache builder.
///
/// Refuses `NoSplitInfo` at 0, where there is no stream and more than one segment besides `__LINKEDIT`;
/// then the first rule that the stream breaks, from `SplitNotV2` to `SplitTooMany`, with the offset of the
/// number that breaks it; and then `SplitOverlap` with the least address of a reference that shares a byte
/// with another one or, if it is no pointer, with a rebase or a bind. Time and memory are bounded by the
/// stream's length, whatever counts it spells.
pub fn read_split(
    alloc: Global,
    stream: Option<&[u8]>,
    image: &Image<'_>,
    rebases: &[Location],
    bound: &[Location],
) -> Result<Vec<Reference>, Fault>
    requires { IsNonDecreasingBy (λ l. l.address) rebases.now }
    ensures found { IfOk result (λ v. v.items ≡ spec.references_of (option_copied stream.entry) image.now) }
    ensures sound { IfOk result (λ v. AreReferences image.now rebases.now bound.now v.items) }
    ensures cause { Refuses (spec.split_break (option_copied stream.entry) image.now rebases.now bound.now) result }
{
    image.facts();
    let rebases = Words::new(rebases);
    let references = read_references(alloc, stream, image, &rebases)?;
    match first_overlap(alloc, &references, &rebases, bound)? {
        Some(at) => Err(Fault::Broken(Site {
            rule: Rule::SplitOverlap,
            at,
        })),
        None => Ok(references),
    }
}

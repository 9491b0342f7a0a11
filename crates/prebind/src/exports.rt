// Where the exports of an image lie.
ghost use Rattle.std.specs.Prelude.{◌≡◌, ◌<◌, length, position, slice_get, IfOk, None};
ghost use Rattle.dsc_base.specs.Refusals.{RefusesSet};
ghost use Rattle.export_trie.specs.Order.{trie_break};
ghost use Rattle.macho_image.specs.Index.{Indexes};
ghost use Rattle.macho_image.specs.Segments.{header_address};
ghost use Rattle.export_trie.specs.Exports.{exports_of};
ghost use Rattle.export_trie.specs.Writing.{IsWritable};
ghost use Rattle.prebind.specs.Places as spec;
ghost use Rattle.prebind.specs.Sets.{IsSoundSet};
ghost use Rattle.prebind.specs.Steps.{set_of};

use crate::{ImageStreams, Set};
use dsc_base::{Break, NoMemory, Rule, SetFault};
use export_trie::{Export, Target, read_trie};
use macho_image::{Image, Segment, SegmentIndex, header_address};
use std::alloc::Global;

/// All exports of a trie that breaks no rule, in bytewise order of names. `NoMemory` says that memory ran out.
pub fn read_exports(alloc: Global, trie: &[u8]) -> Result<Vec<Export>, NoMemory>
    requires { trie_break trie.now ≡ None }
    ensures exports { IfOk result (λ exports. exports.items ≡ exports_of trie.now) }
    ensures writable { IfOk result (λ exports. IsWritable exports.items) }
{
    match read_trie(alloc, trie) {
        Ok(exports) => Ok(exports),
        Err(_) => Err(NoMemory),
    }
}

pub(crate) fn is_linkedit_at(segments: &[Segment<'_>], number: u32) -> bool
    ensures { result ≡ spec.is_linkedit_at (slice_get segments.now number) }
{
    match segments.get(number as usize) {
        Some(segment) => segment.is_linkedit(),
        None => true,
    }
}

/// Whether an export leads into no segment, or into `__LINKEDIT`.
fn strays(segments: &[Segment<'_>], index: &SegmentIndex, header: u64, target: &Target) -> bool
    requires index { Indexes segments.now index.now }
    requires header { header ≡ header_address segments.now }
    ensures { result ≡ spec.strays segments.now target.now }
{
    match target {
        Target::Offset(offset) => match index.find(header.wrapping_add(*offset)) {
            Some(place) => is_linkedit_at(segments, place.segment),
            None => true,
        },
        _ => false,
    }
}

/// The first export that does.
fn first_stray(segments: &[Segment<'_>], index: &SegmentIndex, exports: &[Export]) -> Option<usize>
    requires { Indexes segments.now index.now }
    ensures { result ≡ position (λ e. spec.strays segments.now e.target) exports.now }
{
    let header = header_address(segments);
    exports
        .iter()
        .position(|e| strays(segments, index, header, &e.target))
}

fn image_stray(
    alloc: Global,
    image: &Image<'_>,
    streams: &ImageStreams<'_>,
) -> Result<Option<usize>, NoMemory>
    requires { trie_break streams.now.exports ≡ None }
    ensures { IfOk result (λ index. index ≡ position (λ e. spec.strays image.now.segments e.target) (exports_of streams.now.exports)) }
{
    let exports = read_exports(alloc, streams.exports)?;
    let index = SegmentIndex::new(alloc, image)?;
    let found = first_stray(&image.segments, &index, &exports);
    Ok(found)
}

/// Refuses `ExportOutside` where an export of an image, at its offset from the image's header, lies in no
/// segment or in `__LINKEDIT`; `at` is the least index of such an export among all of the image in
/// bytewise order of names. `Memory` says that memory ran out.
pub fn check_exports(alloc: Global, set: &Set<'_, '_>, image: u32) -> Result<(), SetFault>
    requires sound { IsSoundSet (set_of set.now) }
    requires image { image < length set.now.images.now }
    ensures { RefusesSet (spec.export_break (set_of set.now) image) result }
{
    let found = image_stray(
        alloc,
        &set.images[image as usize],
        &set.streams[image as usize],
    )?;
    match found {
        Some(index) => Err(SetFault::Broken(Break {
            rule: Rule::ExportOutside,
            image,
            at: index as u64,
        })),
        None => Ok(()),
    }
}

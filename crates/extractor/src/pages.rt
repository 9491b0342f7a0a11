// The segments of an image in a file of its own: each begins a page, in command order.
ghost use Rattle.std.specs.Prelude.{◌≡◌, ◌≤◌, ◌++◌, not, length, filter, OnOk, IfOk};
ghost use Rattle.std.specs.List.{flat_map};
ghost use Rattle.macho_image.specs.Rules.{is_linkedit_segment};
ghost use Rattle.extractor.specs.ExtractOf as spec;
ghost use Rattle.extractor.specs.Files.{all_pages, last_file};

use dsc_base::{NoMemory, PAGE, page_up};
use macho_image::{Moved, Moves, Segment};
use std::alloc::Global;

/// Appends bytes with zeros to the end of their last page.
#[tactic(auto, unfolding(dsc_base::specs::Region::paged))]
fn append_pages(out: &mut Vec<u8>, bytes: &[u8]) -> Result<(), NoMemory>
    ensures { OnOk result (out.new.items ≡ out.old.items ++ spec.whole_pages bytes.now) }
{
    let page = PAGE as usize;
    let zeros = (page - bytes.len() % page) % page;
    out.extend_from_slice(bytes)?;
    out.resize(out.len() + zeros, 0)?;
    Ok(())
}

/// Appends the bytes of the segments other than `__LINKEDIT`.
pub(crate) fn append_bodies(out: &mut Vec<u8>, segments: &[Segment<'_>]) -> Result<(), NoMemory>
    ensures { OnOk result (out.new.items ≡ out.old.items ++ flat_map spec.page_bytes (filter (λ s. not (is_linkedit_segment s)) segments.now)) }
{
    for segment in segments {
        if !segment.is_linkedit() {
            append_pages(out, segment.bytes)?;
        }
    }
    Ok(())
}

/// Where the segments go: each keeps its address.
pub(crate) fn moves_of(alloc: Global, segments: &[Segment<'_>]) -> Result<Moves, NoMemory>
    requires { all_pages segments.now ≤ 0x8000_0000_0000 }
    ensures { IfOk result (λ m. m ≡ spec.moves_from 0 segments.now) }
{
    let mut moves = Vec::with_capacity(alloc, segments.len())?;
    let mut file = 0;
    for segment in segments {
        let address = segment.vmaddr;
        moves.push(Moved { address, file })?;
        file = page_up(file + segment.vmsize);
    }
    Ok(Moves { segments: moves })
}

/// Where the last of some segments goes in the file.
pub(crate) fn last_place(moves: &Moves) -> u64
    requires { 1 ≤ length moves.now }
    ensures { result ≡ last_file moves.now }
{
    let segments = &moves.segments;
    segments[segments.len() - 1].file
}

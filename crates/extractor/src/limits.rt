// Images whose linkedit would be too large in a file of its own.
ghost use Rattle.std.specs.Prelude.{◌≡◌, ◌≤◌, ◌<◌, ℕ, Some, List, length, slice_get};
ghost use Rattle.dsc_base.specs.Refusals.{RefusesView};
ghost use Rattle.cache_check.specs.Images.{each_of, header_place};
ghost use Rattle.rebase_ops.specs.Writing.{CanBeWritten};
ghost use Rattle.extractor.specs.Free.{AreFree, AllWritable, lists};
ghost use Rattle.extractor.specs.Reading.{AreRead};
ghost use Rattle.extractor.specs.Vetting as spec;

use crate::linkedit::own_parts;
use crate::pointers::found;
use cache_header::TableImage;
use dsc_base::{FindingKind, REGION_START, ViewFault};
use linkedit_merge::SizeFault;
use macho_image::{Image, Location};
use slide_chain::ChainWord;
use std::alloc::Global;

/// Where the header of an image stands in the file.
#[tactic(auto, unfolding(macho_image::specs::Places::above))]
fn header_place(entry: &TableImage) -> u64
    ensures { result ≡ header_place entry.now }
{
    entry.address.wrapping_sub(REGION_START)
}

/// Refuses the first image whose linkedit would be too large in a file of its own, at its header's offset.
pub(crate) fn check_sizes(
    alloc: Global,
    entries: &[TableImage],
    images: &[Image<'_>],
    words: &[ChainWord],
    start: u64,
    free: &[Vec<Location>],
) -> Result<(), ViewFault>
    requires few { length images.now ≤ 4096 }
    requires many { length entries.now ≡ length images.now }
    requires read { AreRead images.now }
    requires free { AreFree start words.now images.now (lists free.now) }
    requires writable { AllWritable images.now (lists free.now) }
    ensures { RefusesView (each_of (spec.large_finding start words.now images.now) 0 entries.now) result }
{
    for (number, entry) in entries.iter().enumerate() {
        match own_parts(alloc, &images[number], &free[number]) {
            Ok(_) => {}
            Err(SizeFault::TooLarge) => {
                let at = header_place(entry);
                return Err(found(FindingKind::ExtractTooLarge, number as u32, at));
            }
            Err(SizeFault::Memory) => return Err(ViewFault::Memory),
        }
    }
    Ok(())
}

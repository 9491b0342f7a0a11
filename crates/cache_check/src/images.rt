// The images of a cache.
ghost use Rattle.std.specs.Prelude.{◌≡◌, ◌≤◌, ◌++◌, ◌∷◌, [], Some, map, length, IfOk, OnOk};
ghost use Rattle.dsc_base.specs.Refusals.{RefusesView};
ghost use Rattle.cache_check.specs.Images as spec;

use crate::CacheView;
use crate::finding::rule_found;
use crate::names::{check_names, check_paths};
use crate::segments::check_segments;
use crate::streams::check_streams;
use cache_header::TableImage;
use dsc_base::{FindingKind, NoMemory, REGION_START, ViewFault};
use macho_image::{Form, Image, read_image};
use std::alloc::{AllocError, Global};

/// Where the header of an image stands in the file.
pub(crate) fn header_place(entry: &TableImage) -> u64
    ensures { result ≡ spec.header_place entry.now }
{
    entry.address.wrapping_sub(REGION_START)
}

/// An image of the tables.
///
/// Refuses the first rule of its shape that it breaks.
#[tactic(auto, unfolding(crate::specs::Images::broken_finding))]
fn read_entry<'a>(
    alloc: Global,
    flat: &'a [u8],
    entry: &TableImage,
    number: u32,
) -> Result<Image<'a>, ViewFault>
    ensures image { IfOk result (λ i. i ≡ spec.image_in flat.entry.now entry.now) }
    ensures cause { RefusesView (spec.broken_finding flat.entry.now number entry.now) result }
{
    match read_image(alloc, flat, header_place(entry), Form::Cached) {
        Ok(image) => Ok(image),
        Err(fault) => Err(rule_found(FindingKind::ImageBroken, number, fault)),
    }
}

/// Appends an image.
fn push_image<'a>(images: &mut Vec<Image<'a>>, image: Image<'a>) -> Result<(), NoMemory>
    ensures { OnOk result (images.new.items ≡ images.old.items ++ image.entry ∷ []) }
{
    images.push(image).map_err(AllocError::from)?;
    Ok(())
}

/// The images of the tables.
///
/// Refuses the first that breaks a rule of its shape.
pub(crate) fn read_images<'a>(
    alloc: Global,
    flat: &'a [u8],
    entries: &[TableImage],
) -> Result<Vec<Image<'a>>, ViewFault>
    requires few { length entries.now ≤ 4096 }
    ensures images { IfOk result (λ v. v.items ≡ map (spec.image_in flat.entry.now) entries.now) }
    ensures cause { RefusesView (spec.each_of (spec.broken_finding flat.entry.now) 0 entries.now) result }
{
    let mut images = Vec::with_capacity(alloc, entries.len())?;
    for (number, entry) in entries.iter().enumerate() {
        match read_entry(alloc, flat, entry, number as u32) {
            Ok(image) => push_image(&mut images, image)?,
            Err(fault) => return Err(fault),
        }
    }
    Ok(images)
}

impl CacheView {
    /// The images of the cache, in the order of its tables, each a part of `flat`. Their format is that of
    /// `mach-o/loader.h`.
    ///
    /// Refuses the first of these that holds, each tried of all images before the next: `ImageBroken` where an image
    /// breaks one of the rules from `NotMachO` to `LinkeditRange`, at the rule's number; `NameDiffers` where its
    /// install name isn't its path in the tables, at its header's offset; `SegmentOutside` where a segment besides
    /// `__LINKEDIT` isn't in the mapping of its protection at the same distance in the file, its filesize isn't its
    /// vmsize, or it shares an address with a segment of an earlier image, at its number; `NameTwice` where an
    /// earlier image has its path, at that one's number; and `StreamBroken` where it has a rebase stream, at the
    /// number of `RebaseBadUleb`, or its other streams and its tables break one of the rules from `BindBadUleb` to
    /// `TrieTooManyNames` or from `TableNameOutside` to `TableIndexOutside`, at the rule's number. `Memory` says that memory ran out.
    #[tactic(auto, unfolding(crate::specs::Images::images_finding))]
    pub fn images(&self, alloc: Global) -> Result<Vec<Image<'_>>, ViewFault>
        ensures images { IfOk result (λ v. v.items ≡ spec.images_of self.now) }
        // Each is the image that the bytes spell, and breaks no rule.
        ensures cached { IfOk result (λ v. map Some v.items ≡ spec.cached_images self.now) }
        ensures cause { RefusesView (spec.images_finding self.now) result }
    {
        let head = &self.head;
        let flat = self.flat.as_slice();
        let images = read_images(alloc, flat, &head.images)?;
        check_names(&head.images, &images, flat)?;
        check_segments(alloc, &head.mappings, &images, flat.len() as u64)?;
        check_paths(alloc, &head.images)?;
        check_streams(alloc, &images)?;
        Ok(images)
    }
}

// The names of a cache's images: those in their headers, and the paths in the cache's table.
ghost use Rattle.std.specs.Prelude.{◌≡◌, ◌≤◌, length, map};
ghost use Rattle.std.specs.Map.{lookup};
ghost use Rattle.dsc_base.specs.Refusals.{RefusesView};
ghost use Rattle.macho_image.specs.Rules.{same_bytes};
ghost use Rattle.cache_check.specs.Images as spec;

use crate::finding::found;
use crate::images::header_place;
use cache_header::TableImage;
use dsc_base::{FindingKind, ViewFault};
use indexmap::IndexMap;
use macho_image::Image;
use std::alloc::Global;

/// Whether the install name of an image is the path in the table.
fn has_path(image: &Image<'_>, entry: &TableImage) -> bool
    ensures { result ≡ same_bytes image.now.install_name entry.now.path }
{
    image.install_name == entry.path.as_slice()
}

/// Refuses the first image whose install name isn't the path in the table, at its header's offset.
pub(crate) fn check_names(
    entries: &[TableImage],
    images: &[Image<'_>],
    flat: &[u8],
) -> Result<(), ViewFault>
    requires few { length entries.now ≤ 4096 }
    requires images { images.now ≡ map (spec.image_in flat.now) entries.now }
    ensures { RefusesView (spec.each_of (spec.name_finding flat.now) 0 entries.now) result }
{
    for (number, entry) in entries.iter().enumerate() {
        if !has_path(&images[number], entry) {
            return Err(found(FindingKind::NameDiffers, number as u32, header_place(entry)));
        }
    }
    Ok(())
}

/// The number that a map has for a path.
fn number_of(numbers: &IndexMap<&[u8], u32>, path: &[u8]) -> Option<u32>
    ensures { result ≡ lookup (λ k. same_bytes path.now k.now) numbers.now.entries }
{
    numbers.get(path).copied()
}

/// Refuses the first image whose path an earlier one has, at that one's number.
pub(crate) fn check_paths(alloc: Global, entries: &[TableImage]) -> Result<(), ViewFault>
    requires { length entries.now ≤ 4096 }
    ensures { RefusesView (spec.each_of (spec.twice_finding entries.now) 0 entries.now) result }
{
    let mut numbers: IndexMap<&[u8], u32> = IndexMap::new(alloc);
    for (number, entry) in entries.iter().enumerate() {
        let path = entry.path.as_slice();
        if let Some(earlier) = number_of(&numbers, path) {
            return Err(found(FindingKind::NameTwice, number as u32, u64::from(earlier)));
        }
        match numbers.insert(path, number as u32) {
            Ok(_) => {}
            Err(_) => return Err(ViewFault::Memory),
        }
    }
    Ok(())
}

// The first difference between an image of a cache and its file, but for their sections' bytes.
ghost use Rattle.std.specs.Prelude.{◌≡◌, ◌≤◌, ◌<◌, ◌^◌, Some, IfOk, length};
ghost use Rattle.cache_check.specs.Differences as spec;
ghost use Rattle.cache_check.specs.Firsts.{first_below};

use crate::Difference;
use cache_header::TableImage;
use dsc_base::{Name, NoMemory};
use macho_image::Image;
use std::alloc::Global;

/// Another number of images than there are files.
#[tactic(auto, unfolding(crate::specs::Differences::count_difference))]
pub(crate) fn compare_counts(found: u32, wanted: u32) -> Option<Difference>
    ensures { result ≡ spec.count_difference found wanted }
{
    if found == wanted {
        None
    } else {
        Some(Difference::Images { found, wanted })
    }
}

/// A path that isn't the install name of the file.
fn compare_path(
    alloc: Global,
    number: u32,
    entry: &TableImage,
    file: &Image<'_>,
) -> Result<Option<Difference>, NoMemory>
    ensures { IfOk result (λ d. d ≡ spec.path_of number (Some entry.now) (Some file.now)) }
{
    if entry.path.as_slice() == file.install_name {
        return Ok(None);
    }
    Ok(Some(Difference::Path {
        image: number,
        found: Name::from_slice(alloc, entry.path.as_slice())?,
        wanted: Name::from_slice(alloc, file.install_name)?,
    }))
}

/// The first path that isn't the install name of the file.
pub(crate) fn compare_paths(
    alloc: Global,
    entries: &[TableImage],
    files: &[Image<'_>],
) -> Result<Option<Difference>, NoMemory>
    requires few { length entries.now ≤ 4096 }
    requires same { length entries.now ≡ length files.now }
    ensures { IfOk result (λ d. d ≡ first_below (spec.path_difference entries.now files.now) (length files.now)) }
{
    for (number, entry) in entries.iter().enumerate() {
        if let Some(found) = compare_path(alloc, number as u32, entry, &files[number])? {
            return Ok(Some(found));
        }
    }
    Ok(None)
}

/// A part at which two shapes differ; a shape that has ended counts as 0.
#[tactic(auto, unfolding(crate::specs::Differences::part_difference))]
fn compare_part(number: u32, found: &[u128], wanted: &[u128], part: u32) -> Option<Difference>
    ensures { result ≡ spec.part_difference number found.now wanted.now part }
{
    let here = found.get(part as usize).copied().unwrap_or(0);
    let there = wanted.get(part as usize).copied().unwrap_or(0);
    if here == there {
        return None;
    }
    Some(Difference::Shape {
        image: number,
        part,
        found: here,
        wanted: there,
    })
}

/// The first part at which two shapes differ.
pub(crate) fn compare_shapes(number: u32, found: &[u128], wanted: &[u128]) -> Option<Difference>
    requires found { length found.now < 2 ^ 32 }
    requires wanted { length wanted.now < 2 ^ 32 }
    ensures { result ≡ spec.shape_difference number found.now wanted.now }
{
    for part in 0..found.len().max(wanted.len()) as u32 {
        if let Some(differs) = compare_part(number, found, wanted, part) {
            return Some(differs);
        }
    }
    None
}

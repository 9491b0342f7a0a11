// The entries of the tables of a cache that is read.
ghost use Rattle.std.specs.Prelude.{◌≡◌, ◌≤◌, ◌<◌, ◌+◌, ◌*◌, None, true, length, map, IfOk, OnOk, IfErr};
ghost use Rattle.dsc_base.specs.declared.fault.ViewFault.TheVariants.{Broken};
ghost use Rattle.dsc_base.specs.declared.finding_kind.FindingKind.TheVariants.{NameNotPlain};
ghost use Rattle.dsc_base.specs.Numbers.{number_at};
ghost use Rattle.cache_header.specs.Reading.{mapping_at, mappings_of, image_count, path_offset, image_path, image_uuid, image_text_size, image_at, images_of};
ghost use Rattle.cache_header.specs.Findings.{HasHeader, HasTables, ill_named, finding, name_finding};
ghost use Rattle.dsc_base.specs.Refusals.{IsViewRefusal};

use crate::header::{
    IMAGES_COUNT, IMAGES_OFFSET, MAPPING_COUNT, MAPPING_OFFSET, TEXTS_COUNT, TEXTS_OFFSET, field32,
    field64, sixteen,
};
use crate::path::{behind, plain_path};
use crate::{Mapping, TableImage};
use dsc_base::{Finding, FindingKind, Name, NoMemory, ViewFault, get_u32, get_u64};
use std::alloc::Global;

fn mapping(bytes: &[u8], at: usize) -> Mapping
    requires { at + 32 ≤ length bytes.now }
    ensures { result ≡ mapping_at bytes.now at }
{
    Mapping {
        address: get_u64(bytes, at),
        size: get_u64(bytes, at + 8),
        file: get_u64(bytes, at + 16),
        max_prot: get_u32(bytes, at + 24),
        init_prot: get_u32(bytes, at + 28),
    }
}

/// The mapping table.
pub(crate) fn mappings(alloc: Global, bytes: &[u8]) -> Result<Vec<Mapping>, NoMemory>
    requires header { HasHeader bytes.now }
    requires tables { HasTables bytes.now }
    ensures { IfOk result (λ v. v.items ≡ mappings_of bytes.now) }
{
    let table = get_u32(bytes, MAPPING_OFFSET) as usize;
    let count = get_u32(bytes, MAPPING_COUNT) as usize;
    let mut mappings = Vec::with_capacity(alloc, count)?;
    for k in 0..count {
        mappings.push(mapping(bytes, table + 32 * k))?;
    }
    Ok(mappings)
}

/// Where the path of image `k` stands, by the image table.
fn path_offset(bytes: &[u8], k: usize) -> u32
    requires header { HasHeader bytes.now }
    requires tables { HasTables bytes.now }
    requires image { k < image_count bytes.now }
    ensures { result ≡ path_offset bytes.now k }
{
    get_u32(bytes, field32(bytes, IMAGES_OFFSET) as usize + 32 * k + 24)
}

/// The identifier of image `k` and the size of its text segment, zeros where the image text table
/// hasn't an entry for each image.
fn text_of(bytes: &[u8], k: usize) -> ([u8; 16], u32)
    requires header { HasHeader bytes.now }
    requires tables { HasTables bytes.now }
    requires image { k < image_count bytes.now }
    ensures uuid { result.0 ≡ image_uuid bytes.now k }
    ensures size { result.1 ≡ image_text_size bytes.now k }
{
    if field64(bytes, TEXTS_COUNT) != u64::from(field32(bytes, IMAGES_COUNT)) {
        return ([0; 16], 0);
    }
    let at = field64(bytes, TEXTS_OFFSET) as usize + 32 * k;
    (sixteen(bytes, at), get_u32(bytes, at + 24))
}

/// Image `k`, which has this path.
#[tactic(auto, unfolding(crate::specs::Reading::image_at))]
fn image(bytes: &[u8], k: usize, path: Name) -> TableImage
    requires header { HasHeader bytes.now }
    requires tables { HasTables bytes.now }
    requires image { k < image_count bytes.now }
    requires path { path ≡ image_path bytes.now k }
    ensures { result ≡ image_at bytes.now k }
{
    let (uuid, text_size) = text_of(bytes, k);
    TableImage {
        address: get_u64(bytes, field32(bytes, IMAGES_OFFSET) as usize + 32 * k),
        path,
        uuid,
        text_size,
    }
}

fn ill_named(k: u32, at: u32) -> ViewFault
    ensures { result ≡ Broken (finding NameNotPlain k at) }
{
    ViewFault::Broken(Finding {
        kind: FindingKind::NameNotPlain,
        image: k,
        at: u64::from(at),
    })
}

/// The images of the tables.
///
/// Refuses the first whose path isn't plain.
pub(crate) fn images(alloc: Global, bytes: &[u8]) -> Result<Vec<TableImage>, ViewFault>
    requires header { HasHeader bytes.now }
    requires tables { HasTables bytes.now }
    ensures images { IfOk result (λ v. v.items ≡ images_of bytes.now) }
    ensures named { OnOk result (name_finding bytes.now ≡ None) }
    ensures cause { IfErr result (IsViewRefusal (name_finding bytes.now)) }
{
    let count = field32(bytes, IMAGES_COUNT);
    let mut images = Vec::with_capacity(alloc, count as usize)?;
    for k in 0..count {
        let at = path_offset(bytes, k as usize);
        let Some(path) = plain_path(behind(bytes, at)) else {
            return Err(ill_named(k, at));
        };
        let path = Name::from_slice(alloc, path)?;
        images.push(image(bytes, k as usize, path))?;
    }
    Ok(images)
}

// Reading the head of a cache.
ghost use Rattle.std.specs.Prelude.{◌≡◌, None, IfOk, OnOk, IfErr};
ghost use Rattle.dsc_base.specs.declared.finding_kind.FindingKind.{FindingKind};
ghost use Rattle.dsc_base.specs.declared.fault.ViewFault.TheVariants.{Broken};
ghost use Rattle.cache_header.specs.Reading.{head_read};
ghost use Rattle.cache_header.specs.Findings.{HasHeader, HasTables, finding, name_finding, head_finding};
ghost use Rattle.dsc_base.specs.Refusals.{IsViewRefusal};

use crate::CacheHead;
use crate::entries::{images, mappings};
use crate::header::{field_identifier, field64, has_header, is_cache, table_outside};
use dsc_base::{Finding, FindingKind, Span, ViewFault};
use std::alloc::Global;

fn found(kind: FindingKind, at: u64) -> ViewFault
    ensures { result ≡ Broken (finding kind 0 at) }
{
    ViewFault::Broken(Finding { kind, image: 0, at })
}

/// The head that a cache's header and tables tell; the paths are read and nothing else of the images.
fn read_tables(alloc: Global, bytes: &[u8]) -> Result<CacheHead, ViewFault>
    requires header { HasHeader bytes.now }
    requires tables { HasTables bytes.now }
    ensures head { IfOk result (λ h. h ≡ head_read bytes.now) }
    ensures named { OnOk result (name_finding bytes.now ≡ None) }
    ensures cause { IfErr result (IsViewRefusal (name_finding bytes.now)) }
{
    let images = images(alloc, bytes)?;
    let mappings = mappings(alloc, bytes)?;
    Ok(CacheHead {
        mappings,
        images,
        slide_info: Span {
            at: field64(bytes, 0x38),
            len: field64(bytes, 0x40),
        },
        uuid: field_identifier(bytes, 0x58),
        max_slide: field64(bytes, 0xF0),
    })
}

/// Reads the head of a cache. A field of the header that doesn't lie wholly below the mapping table
/// counts as 0, and `uuid` and `text_size` of an image are zeros where there is no image text table
/// with as many entries as there are images.
///
/// Refuses the first of these that holds: `NotCache` where the bytes don't begin with the magic,
/// `ShortHeader` where the mapping table's offset isn't there, is below 0x20 or past the end,
/// `TableOutside` where a table isn't in the file or has over 4,096 entries, at the field that tells
/// its offset (an image text table of no entries may be anywhere), and `NameNotPlain` where the path of
/// an image has no NUL in the file, is empty or over 1,024 bytes long, or has a byte that can't be
/// printed, at its offset.
pub fn read_cache_head(alloc: Global, bytes: &[u8]) -> Result<CacheHead, ViewFault>
    ensures head { IfOk result (λ h. h ≡ head_read bytes.now) }
    ensures sound { OnOk result (head_finding bytes.now ≡ None) }
    ensures cause { IfErr result (IsViewRefusal (head_finding bytes.now)) }
{
    if !is_cache(bytes) {
        return Err(found(FindingKind::NotCache, 0));
    }
    if !has_header(bytes) {
        return Err(found(FindingKind::ShortHeader, 0x10));
    }
    if let Some(at) = table_outside(bytes) {
        return Err(found(FindingKind::TableOutside, at));
    }
    let head = read_tables(alloc, bytes)?;
    Ok(head)
}

// The header of a cache that is read: whether it is there, its fields, and the places of the tables.
ghost use Rattle.std.specs.Prelude.{◌≡◌, ◌≤◌, ◌<◌, ◌+◌, ◌*◌, ◌^◌, None, true, length, take, drop};
ghost use Rattle.dsc_base.specs.Numbers.{number_at};
ghost use Rattle.cache_header.specs.Reading.{header_number, header_identifier, image_count};
ghost use Rattle.cache_header.specs.Findings.{is_cache, has_header, HasHeader, has_table, has_text_table, table_outside, HasTables};

use crate::tables::MAGIC;
use dsc_base::{get_u32, get_u64};

/// Where the header tells the offset of the mapping table, which is the header's end, and the number of
/// mappings.
pub(crate) const MAPPING_OFFSET: usize = 0x10;

pub(crate) const MAPPING_COUNT: usize = 0x14;

/// Where it tells the image table and the number of images.
pub(crate) const IMAGES_OFFSET: usize = 0x18;

pub(crate) const IMAGES_COUNT: usize = 0x1C;

/// Where it tells the image text table and its number of entries.
pub(crate) const TEXTS_OFFSET: usize = 0x88;

pub(crate) const TEXTS_COUNT: usize = 0x90;

/// The most entries that a table has.
const ENTRY_LIMIT: u64 = 4096;

/// Whether the bytes begin as a cache.
pub(crate) fn is_cache(bytes: &[u8]) -> bool
    ensures { result ≡ is_cache bytes.now }
{
    bytes.starts_with(&MAGIC)
}

/// Whether the header is there: the mapping table begins behind the counts of mappings and images, and
/// not past the end.
#[tactic(auto, unfolding(crate::specs::Findings::has_header))]
pub(crate) fn has_header(bytes: &[u8]) -> bool
    ensures test { result ≡ has_header bytes.now }
    ensures facts { result ≡ true → HasHeader bytes.now }
{
    bytes.len() >= 0x14
        && get_u32(bytes, MAPPING_OFFSET) >= 0x20
        && get_u32(bytes, MAPPING_OFFSET) as usize <= bytes.len()
}

/// A field of the header. One that doesn't lie wholly below the mapping table counts as 0.
#[tactic(auto, unfolding(crate::specs::Reading::header_number))]
pub(crate) fn field32(bytes: &[u8], at: usize) -> u32
    requires header { HasHeader bytes.now }
    requires place { at < 2 ^ 32 }
    ensures { result ≡ header_number 4 bytes.now at }
{
    if at + 4 <= get_u32(bytes, MAPPING_OFFSET) as usize {
        get_u32(bytes, at)
    } else {
        0
    }
}

/// A field of the header of eight bytes, likewise.
#[tactic(auto, unfolding(crate::specs::Reading::header_number))]
pub(crate) fn field64(bytes: &[u8], at: usize) -> u64
    requires header { HasHeader bytes.now }
    requires place { at < 2 ^ 32 }
    ensures { result ≡ header_number 8 bytes.now at }
{
    if at + 8 <= get_u32(bytes, MAPPING_OFFSET) as usize {
        get_u64(bytes, at)
    } else {
        0
    }
}

/// An identifier in the header. One that doesn't lie wholly below the mapping table counts as zeros.
#[tactic(auto, unfolding(crate::specs::Reading::header_identifier))]
pub(crate) fn field_identifier(bytes: &[u8], at: usize) -> [u8; 16]
    requires header { HasHeader bytes.now }
    requires place { at < 2 ^ 32 }
    ensures { result ≡ header_identifier bytes.now at }
{
    if at + 16 <= get_u32(bytes, MAPPING_OFFSET) as usize {
        sixteen(bytes, at)
    } else {
        [0; 16]
    }
}

/// The sixteen bytes from `at`.
pub(crate) fn sixteen(bytes: &[u8], at: usize) -> [u8; 16]
    requires { at + 16 ≤ length bytes.now }
    ensures { result ≡ take 16 (drop at bytes.now) }
{
    let mut copy = [0; 16];
    copy.copy_from_slice(&bytes[at..at + 16]);
    copy
}

/// Whether a table at an offset lies in the file and doesn't have too many entries.
fn has_table(bytes: &[u8], at: u64, count: u64) -> bool
    ensures { result ≡ has_table bytes.now at count }
{
    let len = bytes.len() as u64;
    count <= ENTRY_LIMIT && 32 * count <= len && at <= len - 32 * count
}

/// The field that tells the offset of the first table that isn't in the file or has too many entries.
#[tactic(auto, unfolding(crate::specs::Findings::table_outside))]
pub(crate) fn table_outside(bytes: &[u8]) -> Option<u64>
    requires { HasHeader bytes.now }
    ensures test { result ≡ table_outside bytes.now }
    ensures facts { result ≡ None → HasTables bytes.now }
{
    let mappings = u64::from(get_u32(bytes, MAPPING_OFFSET));
    if !has_table(bytes, mappings, u64::from(get_u32(bytes, MAPPING_COUNT))) {
        return Some(MAPPING_OFFSET as u64);
    }
    let images = u64::from(field32(bytes, IMAGES_OFFSET));
    if !has_table(bytes, images, u64::from(field32(bytes, IMAGES_COUNT))) {
        return Some(IMAGES_OFFSET as u64);
    }
    let texts = field64(bytes, TEXTS_OFFSET);
    let count = field64(bytes, TEXTS_COUNT);
    if count != 0 && !has_table(bytes, texts, count) {
        return Some(TEXTS_OFFSET as u64);
    }
    None
}

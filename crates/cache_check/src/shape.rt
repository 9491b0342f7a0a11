// The shape that the head of a cache tells.
ghost use Rattle.std.specs.Prelude.{◌≡◌, ◌≤◌, ◌+◌, nat_eq, length};
ghost use Rattle.dsc_base.specs.Limits.{span_limit};
ghost use Rattle.dsc_base.specs.Refusals.{RefusesView};
ghost use Rattle.cache_check.specs.Shape as spec;

use crate::finding::found;
use cache_header::{CacheHead, Mapping};
use dsc_base::{
    Finding, FindingKind, PAGE, REGION_SIZE, REGION_START, SPAN_LIMIT, Span, ViewFault,
};

/// Where the header tells the mapping table, and where the slide information.
const MAPPING_FIELD: u64 = 0x10;

const SLIDE_INFO_FIELD: u64 = 0x38;

/// The protections of the three mappings, after `mach/vm_prot.h`: read and execute, read and write, read.
const TEXT: u32 = 5;

const DATA: u32 = 3;

const LINKEDIT: u32 = 1;

/// Whether a mapping is of whole pages at a place of the file, and so far from the region's start, with a
/// protection.
#[tactic(auto, unfolding(crate::specs::Shape::is_mapping))]
fn is_mapping(mapping: &Mapping, place: u64, protection: u32) -> bool
    requires { place ≤ span_limit }
    ensures { result ≡ spec.is_mapping place protection mapping.now }
{
    mapping.address == REGION_START + place
        && mapping.file == place
        && mapping.max_prot == protection
        && mapping.init_prot == protection
        && mapping.size % PAGE == 0
}

/// Whether three sizes are together a fourth.
fn add_up(text: u64, writable: u64, linkedit: u64, size: u64) -> bool
    ensures { result ≡ nat_eq (text + writable + linkedit) size }
{
    u128::from(text) + u128::from(writable) + u128::from(linkedit) == u128::from(size)
}

/// Whether the mappings are text, data and linkedit of a file of so many bytes.
#[tactic(auto, unfolding(crate::specs::Shape::are_three))]
fn are_three(mappings: &[Mapping], size: u64) -> bool
    requires { size ≤ span_limit }
    ensures { result ≡ spec.are_three size mappings.now }
{
    let [text, writable, linkedit] = mappings else {
        return false;
    };
    add_up(text.size, writable.size, linkedit.size, size)
        && is_mapping(text, 0, TEXT)
        && is_mapping(writable, text.size, DATA)
        && is_mapping(linkedit, text.size + writable.size, LINKEDIT)
}

/// Whether the mappings are a whole file of so many bytes, which stays in the region at the greatest slide.
#[tactic(auto, unfolding(crate::specs::Shape::is_mapped_whole))]
fn is_mapped_whole(head: &CacheHead, size: u64) -> bool
    ensures { result ≡ spec.is_mapped_whole size head.now }
{
    size <= SPAN_LIMIT && are_three(&head.mappings, size) && head.max_slide <= REGION_SIZE - size
}

/// Whether a range lies in a mapping's part of the file.
fn is_in_mapping(mapping: &Mapping, range: Span) -> bool
    ensures { result ≡ spec.is_in_mapping mapping.now range }
{
    mapping.file <= range.at
        && u128::from(range.at) + u128::from(range.len)
            <= u128::from(mapping.file) + u128::from(mapping.size)
}

/// The mapping of the data.
pub(crate) fn data_mapping(head: &CacheHead) -> Mapping
    requires { length head.now.mappings ≡ 3 }
    ensures { result ≡ spec.data_mapping head.now.mappings }
{
    head.mappings[1]
}

/// The mapping of the linkedit.
fn linkedit_mapping(head: &CacheHead) -> Mapping
    requires { length head.now.mappings ≡ 3 }
    ensures { result ≡ spec.linkedit_mapping head.now.mappings }
{
    head.mappings[2]
}

/// Whether the mappings are the file, a file of so many bytes, and slide information lies in the linkedit.
///
/// Refuses `MappingShape` and then `SlideInfoShape`.
pub(crate) fn check_shape(head: &CacheHead, size: u64) -> Result<(), ViewFault>
    ensures { RefusesView (spec.shape_finding size head.now) result }
{
    if !is_mapped_whole(head, size) {
        return Err(found(FindingKind::MappingShape, 0, MAPPING_FIELD));
    }
    if !is_in_mapping(&linkedit_mapping(head), head.slide_info) {
        return Err(found(FindingKind::SlideInfoShape, 0, SLIDE_INFO_FIELD));
    }
    Ok(())
}

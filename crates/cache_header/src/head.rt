// What the head of a cache tells.
use dsc_base::{Name, Span};
use std::marker::Model;

/// A part of a cache that is mapped as a whole: `dyld_cache_mapping_info`. `file` is its offset in the
/// cache, and the protections are those of `mach/vm_prot.h`.
#[derive(Clone, Copy, Debug, PartialEq, Eq)]
pub struct Mapping {
    pub address: u64,
    pub size: u64,
    pub file: u64,
    pub max_prot: u32,
    pub init_prot: u32,
}

/// An image of a cache, by its entries in both tables: `dyld_cache_image_info` and
/// `dyld_cache_image_text_info`. `address` is that of its Mach-O header, and `text_size` the size of its
/// `__TEXT` segment in memory.
#[derive(Drop)]
pub struct TableImage {
    pub address: u64,
    pub path: Name,
    pub uuid: [u8; 16],
    pub text_size: u32,
}

impl Model for TableImage {
    ghost use Rattle.cache_header.specs.Records.{Entry};

    ghost Value = { Entry };

    ghost view = { λ i. record { address = i.address; path = i.path; uuid = i.uuid; text_size = i.text_size } };
}

/// The head of a cache. `slide_info` is where slide information stands in the cache, and `max_slide` the
/// greatest slide that the cache permits.
#[derive(Drop)]
pub struct CacheHead {
    pub mappings: Vec<Mapping>,
    pub images: Vec<TableImage>,
    pub slide_info: Span,
    pub uuid: [u8; 16],
    pub max_slide: u64,
}

impl Model for CacheHead {
    ghost use Rattle.cache_header.specs.Records.{Head};

    ghost Value = { Head };

    ghost view = { λ h. record { mappings = h.mappings.items; images = h.images.items; slide_info = h.slide_info; uuid = h.uuid; max_slide = h.max_slide } };
}

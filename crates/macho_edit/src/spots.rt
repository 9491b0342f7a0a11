// Where the linkedit of an image goes, with its streams and tables.
use dsc_base::Span;
use macho_image::Moved;

/// The place of `__LINKEDIT` with its sizes in memory and in the file, in bytes, and the ranges of its
/// streams and tables, each counted in bytes from the start of the file. `groups` is the first six index
/// fields of LC_DYSYMTAB: first index and count of local, external and undefined symbols. The header in the cache
/// doesn't name `rebase`.
#[derive(Clone, Copy, Debug, PartialEq, Eq)]
pub struct LinkSpots {
    pub linkedit: Moved,
    pub vmsize: u64,
    pub filesize: u64,
    pub rebase: Span,
    pub bind: Span,
    pub lazy: Span,
    pub exports: Span,
    pub function_starts: Span,
    pub data_in_code: Span,
    pub symbols: Span,
    pub indirect: Span,
    pub strings: Span,
    pub groups: [u32; 6],
}

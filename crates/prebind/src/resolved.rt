// Where symbols and words lead.
use macho_image::Location;

/// Where a symbol leads: the outcome of a resolution.
#[derive(Clone, Copy, Debug, PartialEq, Eq)]
pub enum Resolved {
    /// A distance in bytes from the start of a segment of an image, modulo 2^64. Images and segments count
    /// from 0.
    Place {
        image: u32,
        segment: u32,
        distance: u64,
    },
    /// A number that is the same wherever segments stand.
    Constant(u64),
    /// No image that was searched has the name.
    Absent,
    /// The name is re-exported in a circle.
    Loop,
    /// An ordinal exceeds the number of dependencies of its image.
    BadOrdinal,
}

/// Where a word leads.
#[derive(Clone, Copy, Debug, PartialEq, Eq)]
pub enum WordTarget {
    /// A distance in bytes from the start of a segment of an image, modulo 2^64.
    Place {
        image: u32,
        segment: u32,
        distance: u64,
    },
    /// A number that is the same wherever segments stand.
    Constant(u64),
}

/// A word of 8 bytes that loading sets, and where it leads.
#[derive(Clone, Copy, Debug, PartialEq, Eq)]
pub struct PlacedWord {
    pub at: Location,
    pub target: WordTarget,
}

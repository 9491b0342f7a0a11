// The mappings of a cache that take segments.
ghost use Rattle.std.specs.Prelude.{◌≡◌};
ghost use Rattle.cache_layout.specs.Places.{is_in, mapping_of};

use macho_image::Segment;

/// A mapping of a cache, by its protection: read and execute, read and write, or read.
#[derive(Clone, Copy)]
pub enum Mapping {
    Text,
    Writable,
    Fixed,
}

impl Mapping {
    /// Whether a segment belongs to this mapping.
    pub fn has(self, segment: &Segment<'_>) -> bool
        ensures { result ≡ is_in self (mapping_of segment.now) }
    {
        match (self, mapping_of(segment)) {
            (Mapping::Text, Some(Mapping::Text)) => true,
            (Mapping::Writable, Some(Mapping::Writable)) => true,
            (Mapping::Fixed, Some(Mapping::Fixed)) => true,
            _ => false,
        }
    }
}

/// The mapping of a segment. `__LINKEDIT` has none, since the images of a cache share one.
#[tactic(auto, unfolding(crate::specs::Places::mapping_of))]
pub(crate) fn mapping_of(segment: &Segment<'_>) -> Option<Mapping>
    ensures { result ≡ mapping_of segment.now }
{
    if segment.is_linkedit() {
        return None;
    }
    match segment.initprot {
        5 => Some(Mapping::Text),
        3 => Some(Mapping::Writable),
        _ => Some(Mapping::Fixed),
    }
}

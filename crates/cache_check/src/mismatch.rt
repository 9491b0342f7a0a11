// Places at which a section of a cache has something else than it should.
ghost use Rattle.std.specs.Prelude.{◌≡◌};
ghost use Rattle.cache_check.specs.Bytes as spec;

use crate::Seen;

/// What is found and what is wanted at an offset of a section, by its number.
#[derive(Clone, Copy)]
pub(crate) struct Mismatch {
    pub section: u32,
    pub offset: u64,
    pub found: Seen,
    pub wanted: Seen,
}

impl Mismatch {
    /// What is found and what is wanted, where they differ.
    #[tactic(auto, unfolding(crate::specs::Bytes::unlike))]
    pub(crate) fn between(section: u32, offset: u64, found: Seen, wanted: Seen) -> Option<Mismatch>
        ensures { result ≡ spec.unlike section offset found wanted }
    {
        if found == wanted {
            return None;
        }
        Some(Mismatch {
            section,
            offset,
            found,
            wanted,
        })
    }

    /// Whether this stands before another one.
    fn is_before(&self, other: &Mismatch) -> bool
        ensures { result ≡ spec.is_before self.now other.now }
    {
        self.section < other.section || self.section == other.section && self.offset < other.offset
    }
}

/// The earlier of two, the first one where they stand at one offset.
pub(crate) fn earlier(first: Option<Mismatch>, second: Option<Mismatch>) -> Option<Mismatch>
    ensures { result ≡ spec.earlier first second }
{
    match (first, second) {
        (Some(one), Some(other)) if other.is_before(&one) => Some(other),
        (None, other) => other,
        (one, _) => one,
    }
}

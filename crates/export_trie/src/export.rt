// What an image exports, and where an export leads.
ghost use Rattle.std.specs.Prelude.{◌≡◌};

use dsc_base::Name;

/// Where an export leads.
#[derive(Debug, Drop, PartialEq, Eq)]
pub enum Target {
    /// An offset from the image's header.
    Offset(u64),
    /// A value that is the same at every address.
    Absolute(u64),
    /// The export of another library, by the library's number among the dependencies. Where its name is
    /// empty it has the name of this export.
    Reexport { ordinal: u64, name: Name },
}

/// A name that an image exports. `flags` are the `EXPORT_SYMBOL_FLAGS_*` of Apple's `mach-o/loader.h`: the
/// kind in the low two bits (0 regular, 1 thread-local, 2 absolute), 0x04 for a weak definition and 0x08 for
/// a re-export.
#[derive(Debug, Drop, PartialEq, Eq)]
pub struct Export {
    pub name: Name,
    pub flags: u8,
    pub target: Target,
}

/// Where an export leads, where the name that a re-export has there is not copied.
#[derive(Clone, Copy, Debug, PartialEq, Eq)]
pub enum Entry<'a> {
    /// An offset from the image's header.
    Offset(u64),
    /// A value that is the same at every address.
    Absolute(u64),
    /// The export of another library, as in `Target`.
    Reexport { ordinal: u64, name: &'a [u8] },
}

/// What a trie has of a name: where its export leads, or that it has no export of that name.
#[derive(Clone, Copy, Debug, PartialEq, Eq)]
pub enum Found<'a> {
    /// An offset from the image's header.
    Offset(u64),
    /// A value that is the same at every address.
    Absolute(u64),
    /// The export of another library, as in `Target`.
    Reexport { ordinal: u64, name: &'a [u8] },
    /// No export has the name.
    Absent,
}

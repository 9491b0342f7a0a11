// How much a build takes: what is longer or more is refused by a rule of its own.

/// The most records of a stream, and the most exports of an image.
pub const RECORD_LIMIT: usize = 1_048_576;

/// The most rebases, binds and references of a set together.
pub const SET_RECORD_LIMIT: u64 = 16_777_216;

/// The most bytes that the names of exports have: those of one trie with the names that they re-export, and
/// those of a set.
pub const EXPORT_NAMES_LIMIT: u64 = 134_217_728;

/// The most bytes of a symbol's name.
pub const NAME_LIMIT: usize = 16_384;

/// The most bytes that the mappings of a cache span.
pub const SPAN_LIMIT: u64 = 0x2000_0000;

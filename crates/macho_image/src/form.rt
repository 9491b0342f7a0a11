// In which form a dylib stands in its file, and how it needs another one.

/// Whether a dylib is a file of its own, or lies in a shared cache. In a cache the flag
/// `MH_DYLIB_IN_CACHE` is set, and file offsets count from the start of the cache.
#[derive(Clone, Copy, Debug, PartialEq, Eq)]
pub enum Form {
    Standalone,
    Cached,
}

/// By which of the four load commands a dylib names another one that it needs.
#[derive(Clone, Copy, Debug, PartialEq, Eq)]
pub enum LinkKind {
    Load,
    Weak,
    Reexport,
    Upward,
}

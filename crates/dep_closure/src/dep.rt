// What a library ordinal names.

/// What a library ordinal of an image names: an image of the set, by its number, or why there is none.
#[derive(Clone, Copy, Debug, PartialEq, Eq)]
pub enum Dep {
    Image(u32),
    /// No image has the name of that dependency.
    Missing,
    /// The image has fewer dependencies.
    BadOrdinal,
}

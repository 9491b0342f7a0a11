// The two streams of bind opcodes.

/// Which stream of bind opcodes is read: the one of words that are bound at once, or the lazy one. In the
/// lazy stream each word's opcodes end with DONE, which ends the bind stream.
#[derive(Clone, Copy, Debug, PartialEq, Eq)]
pub enum StreamKind {
    Bind,
    Lazy,
}

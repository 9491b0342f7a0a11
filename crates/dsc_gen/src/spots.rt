// Where the parts of a linkedit lie.

/// A part of a file: its offset and its size, in bytes.
#[derive(Clone, Copy, Debug, PartialEq, Eq)]
pub(crate) struct Spot {
    pub offset: u32,
    pub size: u32,
}

/// The parts of a linkedit.
#[derive(Clone, Copy, Debug, PartialEq, Eq)]
pub(crate) struct Spots {
    pub rebase: Spot,
    pub bind: Spot,
    pub exports: Spot,
    pub split: Spot,
}

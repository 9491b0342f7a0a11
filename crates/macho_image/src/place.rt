// Places in an image, and where its segments go.
use std::marker::Model;

/// A place of a word: its segment, numbered from 0, its section, numbered from 1, and its address.
#[derive(Clone, Copy, Debug, PartialEq, Eq)]
pub struct Location {
    pub segment: u32,
    pub section: u32,
    pub address: u64,
}

/// The new address and the new file offset of a segment.
#[derive(Clone, Copy, Debug, PartialEq, Eq)]
pub struct Moved {
    pub address: u64,
    pub file: u64,
}

/// Where each segment of an image goes, in command order.
#[derive(Drop)]
pub struct Moves {
    pub segments: Vec<Moved>,
}

impl Model for Moves {
    ghost use Rattle.std.specs.Prelude.{List};
    ghost use Rattle.macho_image.specs.declared.place.Moved.{Moved};

    ghost Value = { List Moved };

    ghost view = { λ m. m.segments.items };
}

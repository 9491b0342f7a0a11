// A section as others see it, and as its `section_64` spells it.
use std::marker::Model;

/// A section of an image: the segment is numbered from 0 in command order, and `flags` has the
/// section's type in its low byte.
#[derive(Clone, Copy, Debug, PartialEq, Eq)]
pub struct Section {
    pub name: [u8; 16],
    pub segment_name: [u8; 16],
    pub segment: u32,
    pub addr: u64,
    pub size: u64,
    pub flags: u32,
}

/// The fields of a `section_64` that are read.
#[derive(Drop)]
pub(crate) struct SectionFields {
    pub name: [u8; 16],
    pub segment_name: [u8; 16],
    pub addr: u64,
    pub size: u64,
    pub offset: u32,
    pub nreloc: u32,
    pub flags: u32,
}

impl Model for SectionFields {
    ghost use Rattle.macho_image.specs.Records.{SectionLoad};

    ghost Value = { SectionLoad };

    ghost view = { λ x. record { name = x.name; segment_name = x.segment_name; addr = x.addr; size = x.size; offset = x.offset; nreloc = x.nreloc; flags = x.flags } };
}

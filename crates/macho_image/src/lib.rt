//! Mach-O dylibs read whole: load commands, segments, sections, dependencies and the slices of the
//! linkedit, after `mach-o/loader.h` of Apple's published sources, with every rule that such a file may break;
//! and the places of words in them.
#![tactic(auto)]

mod bytes;
mod command;
mod commands;
mod contents;
mod facts;
mod files;
mod form;
pub mod format;
mod header;
mod image;
mod kinds;
mod names;
mod numbers;
mod parts;
mod place;
mod places;
mod protection;
mod ranges;
mod read;
mod section;
mod segment;
mod shape;
mod shared;
mod universal;

pub use command::Command;
pub use commands::Commands;
pub use files::read_images;
pub use form::{Form, LinkKind};
pub use image::{Dependency, Image, Segment, Streams};
pub use place::{Location, Moved, Moves};
pub use places::{
    Inside, PlaceFault, SegmentIndex, first_close, half_at_address, header_address, locate,
    number_at_address, section_around, text_number, value_at,
};
pub use protection::is_zero_fill;
pub use read::read_image;
pub use section::Section;
pub use universal::pick_slice;

#[cfg(test)]
mod tests;

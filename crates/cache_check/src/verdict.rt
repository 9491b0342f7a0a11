// What comes of checking a cache against files.
use dsc_base::{Finding, Name};
use export_trie::Export;

/// What stands at a place of a section.
#[derive(Clone, Copy, Debug, PartialEq, Eq)]
pub enum Seen {
    /// A number of a word or of a byte. It is the same at every slide.
    Number(u64),
    /// An address, which slides.
    Address(u64),
}

/// The first way in which a cache differs from files. Images and parts of shapes count from 0, sections
/// from 1, and exports from 0 in bytewise order of their names.
#[derive(Debug, Drop)]
pub enum Difference {
    /// The cache has another number of images than there are files.
    Images {
        found: u32,
        wanted: u32,
    },
    /// The path of an image isn't the install name of its file.
    Path {
        image: u32,
        found: Name,
        wanted: Name,
    },
    /// The first part at which the shapes of an image and of its file differ. A shape is a list of numbers:
    /// how many segments there are besides `__LINKEDIT`; for each of them its name, size, protection and number of
    /// sections; and for each of its sections the name, the distance from its segment's start, and the size.
    Shape {
        image: u32,
        part: u32,
        found: u128,
        wanted: u128,
    },
    /// The first place at which a section has something else than it should.
    Bytes {
        image: u32,
        section: u32,
        offset: u64,
        found: Seen,
        wanted: Seen,
    },
    /// The first export in which an image differs from its file; `None` where a list has ended.
    Export {
        image: u32,
        index: u32,
        found: Option<Export>,
        wanted: Option<Export>,
    },
}

/// What comes of checking a cache against files.
#[derive(Debug, Drop)]
pub enum Verdict {
    /// The cache has the files' images, and each of their words leads where it does in the file.
    Agrees,
    /// The first way in which it differs.
    Differs(Difference),
    /// What is wrong with the cache, whatever the files are.
    Broken(Finding),
}

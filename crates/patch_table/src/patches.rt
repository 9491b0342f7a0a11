// What a table of patches says.
use std::marker::Model;

/// What the value of a record counts from: nothing, the slide of the cache, or where the file that is no part
/// of the cache is loaded.
#[derive(Clone, Copy, Debug, PartialEq, Eq)]
pub enum Base {
    Constant,
    Cache,
    File,
}

/// A word of eight bytes and what it becomes: `value`, and what `base` counts from added to it. `at` of a
/// record of the cache is an offset in its data mapping, and `at` of an own record an address of the file.
#[derive(Clone, Copy, Debug, PartialEq, Eq)]
pub struct Record {
    pub at: u64,
    pub base: Base,
    pub value: u64,
}

/// The words of the cache with this identifier that change, and the file's own. The file is a program, or it
/// takes the place of the image with this number in the cache's image table.
#[derive(Drop)]
pub struct Patches {
    pub cache_uuid: [u8; 16],
    pub program: bool,
    pub image: u32,
    pub cached: Vec<Record>,
    pub own: Vec<Record>,
}

impl Model for Patches {
    ghost use Rattle.patch_table.specs.Records.{Table};

    ghost Value = { Table };

    ghost view = { λ p. record { cache_uuid = p.cache_uuid; program = p.program; image = p.image; cached = p.cached.items; own = p.own.items } };
}

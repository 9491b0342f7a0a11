// Words of 8 bytes in the order of their addresses.
ghost use Rattle.std.specs.Prelude.{◌≡◌};
ghost use Rattle.std.specs.List.Sorted.{IsNonDecreasingBy};
ghost use Rattle.split_info.specs.Overlap.{meets_word};
ghost use Rattle.split_info.specs.Split.{is_rebased};

use crate::Reference;
use crate::reference::shares;
use macho_image::Location;
use std::marker::Model;

/// The size of a word.
const WORD: u64 = 8;

/// Words in the order of their addresses.
#[derive(Drop)]
pub(crate) struct Words<'r> {
    places: &'r [Location],
}

impl<'r> Model for Words<'r> {
    ghost use Rattle.std.specs.Prelude.{List};
    ghost use Rattle.macho_image.specs.declared.place.Location.{Location};

    ghost Value = { List Location };

    ghost use Rattle.std.specs.List.Sorted.{IsNonDecreasingBy};

    ghost view = { λ w. w.places.now };

    ghost invariant = { λ w. IsNonDecreasingBy (λ l. l.address) w.places.now };
}

impl<'r> Words<'r> {
    pub(crate) fn new(places: &'r [Location]) -> Self
        requires { IsNonDecreasingBy (λ l. l.address) places.now }
        ensures { result ≡ places.entry.now }
    {
        Words { places }
    }
    /// Whether one of the words stands where a reference does.
    pub(crate) fn have(&self, reference: &Reference) -> bool
        ensures { result ≡ is_rebased self.now reference.now }
    {
        let index = self.places.partition_point(|l| l.address < reference.from);
        match self.places.get(index) {
            Some(word) => word.address == reference.from,
            None => false,
        }
    }

    /// Whether one of the words shares a byte with a reference.
    pub(crate) fn meet(&self, reference: &Reference) -> bool
        ensures { result ≡ meets_word self.now reference.now }
    {
        let from = reference.from;
        let index = self
            .places
            .partition_point(|l| l.address <= from && from - l.address >= WORD);
        match self.places.get(index) {
            Some(word) => shares(from, reference.kind.width(), word.address, WORD),
            None => false,
        }
    }
}

// A word that is bound to a symbol.
use macho_image::Location;
use std::marker::Model;

/// A word that loading sets to the address of a symbol plus an addend. The ordinal is the dylib in which the
/// symbol is sought: 0 is the image itself, and others count its dependencies from 1. A symbol that is weak
/// may be absent.
#[derive(Drop)]
pub struct Bind<'a> {
    pub at: Location,
    pub ordinal: u64,
    pub name: &'a [u8],
    pub weak: bool,
    pub addend: i64,
}

impl<'a> Model for Bind<'a> {
    ghost use Rattle.bind_ops.specs.Records.{BoundWord};

    ghost Value = { BoundWord };

    ghost view = { λ b. record { at = b.at; ordinal = b.ordinal; name = b.name.now; weak = b.weak; addend = b.addend } };
}

// The kinds of symbols, by the `n_type` of `mach-o/nlist.h`.
ghost use Rattle.std.specs.Prelude.{◌≡◌};
ghost use Rattle.macho_image.specs.Nlists as spec;

/// The bits that make an entry one for debuggers.
const N_STAB: u8 = 0xE0;

/// The bits of the type of any other entry.
const N_TYPE: u8 = 0x0E;

/// The type of a symbol that is defined in a section.
const N_SECT: u8 = 0xE;

/// The type of a symbol that is another name for one.
const N_INDR: u8 = 0xA;

#[tactic(auto, unfolding(macho_image::specs::Nlists::is_stab))]
pub(crate) fn is_stab(kind: u8) -> bool
    ensures { result ≡ spec.is_stab kind }
{
    kind & N_STAB != 0
}

#[tactic(auto, unfolding(macho_image::specs::Nlists::is_in_section))]
pub(crate) fn is_in_section(kind: u8) -> bool
    ensures { result ≡ spec.is_in_section kind }
{
    !is_stab(kind) && kind & N_TYPE == N_SECT
}

#[tactic(auto, unfolding(macho_image::specs::Nlists::is_alias))]
pub(crate) fn is_alias(kind: u8) -> bool
    ensures { result ≡ spec.is_alias kind }
{
    !is_stab(kind) && kind & N_TYPE == N_INDR
}

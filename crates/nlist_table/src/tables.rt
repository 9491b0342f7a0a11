// The tables of an image, as they are handed out.
use std::marker::Model;

/// A symbol of an image: its name, the fields `n_type`, `n_sect`, `n_desc` and `n_value` of its `nlist_64`,
/// and for one of type N_INDR, which is another name for a symbol, the name of that one as `alias`. The
/// value of such a symbol is 0.
#[derive(Drop)]
pub struct Symbol<'a> {
    pub name: &'a [u8],
    pub alias: Option<&'a [u8]>,
    pub kind: u8,
    pub section: u8,
    pub desc: u16,
    pub value: u64,
}

impl<'a> Model for Symbol<'a> {
    ghost use Rattle.std.specs.Prelude.{option_copied};
    ghost use Rattle.nlist_table.specs.Symbols.{Sym};

    ghost Value = { Sym };

    ghost view = { λ s. record { name = s.name.now; alias = option_copied s.alias; kind = s.kind; section = s.section; desc = s.desc; value = s.value } };
}

/// The symbols of an image, the entries of its indirect table and the first six fields of its LC_DYSYMTAB,
/// which are the first index and the count of local, of external and of undefined symbols. Indices and
/// counts are those of `symbols`; in place of an index an indirect entry may have INDIRECT_SYMBOL_LOCAL,
/// INDIRECT_SYMBOL_ABS or both.
#[derive(Drop)]
pub struct Tables<'a> {
    pub symbols: Vec<Symbol<'a>>,
    pub indirect: Vec<u32>,
    pub groups: [u32; 6],
}

impl<'a> Model for Tables<'a> {
    ghost use Rattle.nlist_table.specs.Symbols.{Tabs};

    ghost Value = { Tabs };

    ghost view = { λ t. record { symbols = t.symbols.items; indirect = t.indirect.items; groups = t.groups } };
}

// References between sections.
ghost use Rattle.std.specs.Prelude.{◌≡◌, ◌≤◌};
ghost use Rattle.split_info.specs.References.{kind_of, width_of};
ghost use Rattle.split_info.specs.Overlap.{is_pointer, shares, meets};

/// How a reference spells where it leads, by the `DYLD_CACHE_ADJ_V2_` numbers of Apple's linker and cache
/// builder.
#[derive(Clone, Copy, Debug, PartialEq, Eq)]
pub enum RefKind {
    /// An address of 8 bytes.
    Pointer64,
    /// A distance from the reference itself, signed in 4 bytes.
    Delta32,
    /// The same, in 8 bytes.
    Delta64,
    /// A distance from the Mach header, without sign in 4 bytes.
    ImageOff32,
}

impl RefKind {
    pub(crate) fn of(code: u64) -> Option<RefKind>
        ensures { result ≡ kind_of code }
    {
        match code {
            2 => Some(RefKind::Pointer64),
            3 => Some(RefKind::Delta32),
            4 => Some(RefKind::Delta64),
            0xC => Some(RefKind::ImageOff32),
            _ => None,
        }
    }

    pub(crate) fn is_pointer(self) -> bool
        ensures { result ≡ is_pointer self }
    {
        matches!(self, RefKind::Pointer64)
    }

    /// How many bytes a reference of this kind has.
    pub fn width(self) -> u64
        ensures width { result ≡ width_of self }
        ensures few { result ≤ 8 }
    {
        match self {
            RefKind::Pointer64 | RefKind::Delta64 => 8,
            RefKind::Delta32 | RefKind::ImageOff32 => 4,
        }
    }
}

/// A reference: its kind, the address at which it stands, and the segment around it, numbered from 0; and
/// where it leads: a section, numbered from 1, or 0 for the Mach header, the segment of that section, and
/// an offset in it.
#[derive(Clone, Copy, Debug, PartialEq, Eq)]
pub struct Reference {
    pub kind: RefKind,
    pub from: u64,
    pub from_segment: u32,
    pub to_section: u32,
    pub to_segment: u32,
    pub to_offset: u64,
}

/// Whether `m` bytes at `a` and `n` bytes at `b` share one.
pub(crate) fn shares(a: u64, m: u64, b: u64, n: u64) -> bool
    ensures { result ≡ shares a m b n }
{
    u128::from(a) < u128::from(b) + u128::from(n) && u128::from(b) < u128::from(a) + u128::from(m)
}

impl Reference {
    /// Whether two references share a byte.
    pub(crate) fn meets(&self, other: &Reference) -> bool
        ensures { result ≡ meets self.now other.now }
    {
        shares(self.from, self.kind.width(), other.from, other.kind.width())
    }
}

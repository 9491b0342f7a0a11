// Tables, and what is wanted of each. A dylib with one section has them.

/// n_strx, n_type, n_sect, n_desc and n_value of an entry.
pub(crate) type Nlist = (u32, u8, u8, u16, u64);

/// The name of a symbol, its alias, n_type, n_sect, n_desc, its value, and the value where it has moved.
pub(crate) type Found = (&'static [u8], Option<&'static [u8]>, u8, u8, u16, u64, u64);

/// Symbols, indirect entries and groups.
pub(crate) type Tabled = (&'static [Found], &'static [u32], [u32; 6]);

/// What is wanted of tables: what is read of them, or the rule that is broken and where.
pub(crate) type Wanted = Result<Tabled, (u16, u64)>;

#[derive(Clone, Copy)]
pub(crate) struct Case {
    pub symbols: &'static [Nlist],
    pub strings: &'static [&'static [u8]],
    pub indirect: &'static [u32],
    pub groups: [u32; 6],
    pub wanted: Wanted,
}

const NAMES: &[&[u8]] = &[b"\0_a\0_b\0"];

const A: Nlist = (1, 0x0e, 1, 0, 0x800);

const B: Nlist = (4, 0x0f, 1, 0, 0x900);

const STAB: Nlist = (0, 0x64, 0, 0, 0);

const FOUND_A: Found = (b"_a", None, 0x0e, 1, 0, 0x800, 0x7fff20001800);

const FOUND_B: Found = (b"_b", None, 0x0f, 1, 0, 0x900, 0x7fff20001900);

const NONE: [u32; 6] = [0; 6];

/// The longest name, and one byte more.
const LONG: [u8; 16383] = [b'x'; 16383];

const TOO_LONG: [u8; 16384] = [b'x'; 16384];

pub(crate) const CASES: [Case; 35] = [
    // two symbols, one of them local
    Case {
        symbols: &[A, B],
        strings: NAMES,
        indirect: &[],
        groups: [0, 1, 1, 1, 2, 0],
        wanted: Ok((&[FOUND_A, FOUND_B], &[], [0, 1, 1, 1, 2, 0])),
    },
    // the same behind a stab
    Case {
        symbols: &[STAB, A, B],
        strings: NAMES,
        indirect: &[],
        groups: [0, 2, 2, 1, 3, 0],
        wanted: Ok((&[FOUND_A, FOUND_B], &[], [0, 1, 1, 1, 2, 0])),
    },
    // stabs between and behind, one of them with the type and another with all the bits of a section's symbol
    Case {
        symbols: &[A, (1, 0x2e, 9, 0, 7), B, (1, 0xff, 0, 0, 7)],
        strings: NAMES,
        indirect: &[2, 0x80000000, 0, 0x40000000, 0xc0000000, 0x40000001, 2],
        groups: [0, 2, 2, 2, 4, 0],
        wanted: Ok((
            &[FOUND_A, FOUND_B],
            &[1, 0x80000000, 0, 0x40000000, 0xc0000000, 0x40000001, 1],
            [0, 1, 1, 1, 2, 0],
        )),
    },
    // no tables
    Case {
        symbols: &[],
        strings: &[],
        indirect: &[],
        groups: NONE,
        wanted: Ok((&[], &[], NONE)),
    },
    // a name that is the end of another one, and an undefined and an absolute symbol
    Case {
        symbols: &[
            (2, 0x1e, 1, 8, 0xffffffffffffffff),
            (4, 0x01, 0, 0x100, 0),
            (0, 0x03, 9, 0, 0x7777),
        ],
        strings: NAMES,
        indirect: &[1],
        groups: [0, 1, 1, 1, 2, 1],
        wanted: Ok((
            &[
                (b"a", None, 0x1e, 1, 8, 0xffffffffffffffff, 0x7fff20000fff),
                (b"_b", None, 0x01, 0, 0x100, 0, 0),
                (b"", None, 0x03, 9, 0, 0x7777, 0x7777),
            ],
            &[1],
            [0, 1, 1, 1, 2, 1],
        )),
    },
    // other names for symbols
    Case {
        symbols: &[(1, 0x0b, 0, 0, 4), (4, 0x0a, 3, 2, 0)],
        strings: NAMES,
        indirect: &[],
        groups: NONE,
        wanted: Ok((
            &[
                (b"_a", Some(b"_b"), 0x0b, 0, 0, 0, 0),
                (b"_b", Some(b""), 0x0a, 3, 2, 0, 0),
            ],
            &[],
            NONE,
        )),
    },
    // the longest name
    Case {
        symbols: &[(1, 0x0e, 1, 0, 0x800)],
        strings: &[b"\0", &LONG, b"\0"],
        indirect: &[],
        groups: NONE,
        wanted: Ok((
            &[(&LONG, None, 0x0e, 1, 0, 0x800, 0x7fff20001800)],
            &[],
            NONE,
        )),
    },
    // one byte more
    Case {
        symbols: &[(1, 0x0e, 1, 0, 0x800)],
        strings: &[b"\0", &TOO_LONG, b"\0"],
        indirect: &[],
        groups: NONE,
        wanted: Err((111, 0x0)),
    },
    // and its end, which is short enough
    Case {
        symbols: &[(2, 0x0e, 1, 0, 0x800)],
        strings: &[b"\0", &TOO_LONG, b"\0"],
        indirect: &[],
        groups: NONE,
        wanted: Ok((
            &[(&LONG, None, 0x0e, 1, 0, 0x800, 0x7fff20001800)],
            &[],
            NONE,
        )),
    },
    // a string index at the end of the table
    Case {
        symbols: &[A, (7, 0x0f, 1, 0, 0x900)],
        strings: NAMES,
        indirect: &[],
        groups: [0, 1, 1, 1, 2, 0],
        wanted: Err((111, 0x1)),
    },
    // the empty name of no table
    Case {
        symbols: &[(0, 0x01, 0, 0, 0), (1, 0x01, 0, 0, 0)],
        strings: &[],
        indirect: &[],
        groups: NONE,
        wanted: Err((111, 0x1)),
    },
    // a name that isn't ended
    Case {
        symbols: &[A],
        strings: &[b"\0_a"],
        indirect: &[],
        groups: NONE,
        wanted: Err((111, 0x0)),
    },
    // the name of a stab
    Case {
        symbols: &[A, (8, 0x64, 0, 0, 0)],
        strings: NAMES,
        indirect: &[],
        groups: NONE,
        wanted: Err((111, 0x1)),
    },
    // the other name of a symbol
    Case {
        symbols: &[A, (1, 0x0b, 0, 0, 7)],
        strings: NAMES,
        indirect: &[],
        groups: NONE,
        wanted: Err((111, 0x1)),
    },
    // one whose index has more than 32 bits
    Case {
        symbols: &[(1, 0x0b, 0, 0, 0x100000001)],
        strings: NAMES,
        indirect: &[],
        groups: NONE,
        wanted: Err((111, 0x0)),
    },
    // no section
    Case {
        symbols: &[A, (4, 0x0f, 0, 0, 0x900)],
        strings: NAMES,
        indirect: &[],
        groups: NONE,
        wanted: Err((112, 0x1)),
    },
    // a section that isn't there
    Case {
        symbols: &[(1, 0x1e, 2, 0, 0x800), B],
        strings: NAMES,
        indirect: &[],
        groups: NONE,
        wanted: Err((112, 0x0)),
    },
    // no section and no name
    Case {
        symbols: &[A, (7, 0x0f, 0, 0, 0x900)],
        strings: NAMES,
        indirect: &[],
        groups: NONE,
        wanted: Err((111, 0x1)),
    },
    // no section before no name
    Case {
        symbols: &[(1, 0x0e, 0, 0, 0x800), (7, 0x0f, 1, 0, 0x900)],
        strings: NAMES,
        indirect: &[],
        groups: NONE,
        wanted: Err((112, 0x0)),
    },
    // each of the three groups behind the end
    Case {
        symbols: &[A, B],
        strings: NAMES,
        indirect: &[],
        groups: [0, 3, 1, 1, 2, 0],
        wanted: Err((113, 0x0)),
    },
    Case {
        symbols: &[A, B],
        strings: NAMES,
        indirect: &[],
        groups: [0, 1, 1, 2, 2, 1],
        wanted: Err((113, 0x2)),
    },
    Case {
        symbols: &[A, B],
        strings: NAMES,
        indirect: &[],
        groups: [0, 1, 1, 1, 2, 1],
        wanted: Err((113, 0x4)),
    },
    // an empty group
    Case {
        symbols: &[A, B],
        strings: NAMES,
        indirect: &[],
        groups: [0, 1, 3, 0, 2, 0],
        wanted: Err((113, 0x2)),
    },
    // one of no table
    Case {
        symbols: &[],
        strings: &[],
        indirect: &[],
        groups: [0, 0, 0, 0, 0, 1],
        wanted: Err((113, 0x4)),
    },
    // a group whose end has more than 32 bits
    Case {
        symbols: &[A, B],
        strings: NAMES,
        indirect: &[],
        groups: [0xffffffff, 0x1, 0, 0, 0, 0],
        wanted: Err((113, 0x0)),
    },
    // an index at the end of the table
    Case {
        symbols: &[A, B],
        strings: NAMES,
        indirect: &[1, 0x80000000, 2],
        groups: NONE,
        wanted: Err((113, 0x2)),
    },
    // the highest index
    Case {
        symbols: &[A, B],
        strings: NAMES,
        indirect: &[0x3fffffff],
        groups: NONE,
        wanted: Err((113, 0x0)),
    },
    // the index of a stab
    Case {
        symbols: &[STAB, A, B],
        strings: NAMES,
        indirect: &[1, 0],
        groups: NONE,
        wanted: Err((113, 0x1)),
    },
    // an index before a group
    Case {
        symbols: &[A, B],
        strings: NAMES,
        indirect: &[0, 2],
        groups: [0, 0, 3, 0, 0, 0],
        wanted: Err((113, 0x1)),
    },
    // a group before an index
    Case {
        symbols: &[A, B],
        strings: NAMES,
        indirect: &[0, 0, 0, 2],
        groups: [0, 0, 3, 0, 0, 0],
        wanted: Err((113, 0x2)),
    },
    // a group before a name
    Case {
        symbols: &[A, A, A, A, A, (7, 0x0e, 1, 0, 0)],
        strings: NAMES,
        indirect: &[],
        groups: [0, 0, 0, 0, 7, 0],
        wanted: Err((113, 0x4)),
    },
    // a name before a group
    Case {
        symbols: &[A, A, A, (7, 0x0e, 1, 0, 0), A, A],
        strings: NAMES,
        indirect: &[],
        groups: [0, 0, 0, 0, 7, 0],
        wanted: Err((111, 0x3)),
    },
    // an index before a name
    Case {
        symbols: &[A, (7, 0x0e, 1, 0, 0)],
        strings: NAMES,
        indirect: &[2],
        groups: NONE,
        wanted: Err((113, 0x0)),
    },
    // a name and a group at one place
    Case {
        symbols: &[(7, 0x0e, 1, 0, 0)],
        strings: NAMES,
        indirect: &[],
        groups: [0, 2, 0, 0, 0, 0],
        wanted: Err((111, 0x0)),
    },
    // a section and an index at one place
    Case {
        symbols: &[(1, 0x0e, 2, 0, 0)],
        strings: NAMES,
        indirect: &[1],
        groups: NONE,
        wanted: Err((112, 0x0)),
    },
];

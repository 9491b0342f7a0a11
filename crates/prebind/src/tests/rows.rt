// Rows of sets by hand: where the words of their first image lead, or the rule that it breaks and where.
use super::dylibs::{A, ABSENT, B, C, D, Dylib, LOAD, PLAIN, REEXPORT, WEAK, X};

/// A word by its address, and where it leads: a distance from the start of a segment of an image, or a number.
pub(super) type Led = (u64, Option<(u32, u32)>, u64);

/// What is wanted of the first image: its words, or the rule that it breaks and the place.
pub(super) type Wanted = Result<&'static [Led], (u16, u64)>;

pub(super) type Row = (&'static str, &'static [Dylib], Wanted);

/// Two rebases, at 0x1008 and 0x1010, and the second one alone.
const TWO: &[u8] = b"\x11\x21\x08\x52\x00";

const ONE: &[u8] = b"\x11\x21\x10\x51\x00";

/// A pointer at 0x1010 that is recorded as one into the text segment, or into the data segment.
const INTO_TEXT: &[u8] = b"\x7f\x01\x02\x01\x01\x80\x18\x01\x02\x01\x10";

const INTO_DATA: &[u8] = b"\x7f\x01\x02\x02\x01\x00\x01\x02\x01\x10";

/// Tries: a name at an offset, at a number, or from the first dependency.
const F_AT_500: &[u8] = b"\x00\x01_f\x00\x06\x03\x00\x80\x0a\x00";

const K_IS_1234: &[u8] = b"\x00\x01_k\x00\x06\x04\x02\xb4\x24\x00\x00";

const N_AT_10: &[u8] = b"\x00\x01_n\x00\x06\x02\x00\x10\x00";

const N_AT_20: &[u8] = b"\x00\x01_n\x00\x06\x02\x00\x20\x00";

const N_FROM_1: &[u8] = b"\x00\x01_n\x00\x06\x03\x08\x01\x00\x00";

const N_FROM_2: &[u8] = b"\x00\x01_n\x00\x06\x03\x08\x02\x00\x00";

const N_IS_F_FROM_1: &[u8] = b"\x00\x01_n\x00\x06\x05\x08\x01_f\x00\x00";

/// Two names, the second one at 0x2fff, in `__LINKEDIT`, and at its end.
const LAST_OF_DATA: &[u8] = b"\x00\x02a\x00\x08b\x00\x0c\x02\x00\x10\x00\x03\x00\xff\x5f\x00";

const IN_LINKEDIT: &[u8] = b"\x00\x02a\x00\x08b\x00\x0c\x02\x00\x10\x00\x03\x00\x80\x60\x00";

const AT_THE_END: &[u8] = b"\x00\x02a\x00\x08b\x00\x0c\x02\x00\x10\x00\x04\x00\x80\x80\x01\x00";

/// A word at 0x1018 bound to `_n` of the first dependency.
const N_BY_1: &[u8] = b"\x11\x40_n\x00\x51\x71\x18\x90\x00";

const ON_B: Dylib = Dylib {
    needs: &[(LOAD, B)],
    ..PLAIN
};

const PLAIN_B: Dylib = Dylib { name: B, ..PLAIN };

const F_IN_B: Dylib = Dylib {
    name: B,
    exports: F_AT_500,
    ..PLAIN
};

pub(super) static POINTERS: [Row; 9] = [
    (
        "a pointer to the end of a segment leads to the next one",
        &[Dylib {
            rebase: ONE,
            words: &[(0x1010, 0x1000)],
            ..PLAIN
        }],
        Ok(&[(0x1010, Some((0, 1)), 0x0)]),
    ),
    (
        "it leads to the end of the segment that is recorded",
        &[Dylib {
            rebase: ONE,
            words: &[(0x1010, 0x1000)],
            split: INTO_TEXT,
            ..PLAIN
        }],
        Ok(&[(0x1010, Some((0, 0)), 0x1000)]),
    ),
    (
        "a recorded pointer leads above the end",
        &[Dylib {
            rebase: TWO,
            words: &[(0x1010, 0x1001)],
            split: INTO_TEXT,
            ..PLAIN
        }],
        Err((137, 0x1)),
    ),
    (
        "a recorded pointer leads below the start",
        &[Dylib {
            rebase: TWO,
            words: &[(0x1010, 0xfff)],
            split: INTO_DATA,
            ..PLAIN
        }],
        Err((137, 0x1)),
    ),
    (
        "the last byte before `__LINKEDIT`, and a word behind the file's bytes",
        &[Dylib {
            rebase: b"\x11\x21\x10\x51\x21\x80\x20\x51\x00",
            words: &[(0x1010, 0x2fff)],
            ..PLAIN
        }],
        Ok(&[(0x1010, Some((0, 1)), 0x1fff), (0x2000, Some((0, 0)), 0x0)]),
    ),
    (
        "a pointer into `__LINKEDIT`",
        &[Dylib {
            rebase: TWO,
            words: &[(0x1010, 0x3fff)],
            ..PLAIN
        }],
        Err((135, 0x1)),
    ),
    (
        "a pointer into no segment",
        &[Dylib {
            rebase: TWO,
            words: &[(0x1010, 0x4000)],
            ..PLAIN
        }],
        Err((136, 0x1)),
    ),
    (
        "one into no segment before one into `__LINKEDIT`",
        &[Dylib {
            rebase: TWO,
            words: &[(0x1008, 0x4000), (0x1010, 0x3000)],
            ..PLAIN
        }],
        Err((135, 0x1)),
    ),
    (
        "a recorded pointer that leaves its segment after one into no segment",
        &[Dylib {
            rebase: b"\x11\x21\x10\x52\x00",
            words: &[(0x1010, 0x1001), (0x1018, 0x4000)],
            split: INTO_TEXT,
            ..PLAIN
        }],
        Err((136, 0x1)),
    ),
];

pub(super) static BINDS: [Row; 10] = [
    (
        "a lazy bind of a word that is rebased too, and one that isn't",
        &[
            Dylib {
                words: &[(0x1010, 0x440)],
                rebase: ONE,
                lazy: b"\x71\x10\x11\x40_f\x00\x90\x00\x71\x18\x40_f\x00\x90\x00",
                ..ON_B
            },
            F_IN_B,
        ],
        Ok(&[(0x1010, Some((1, 0)), 0x500), (0x1018, Some((1, 0)), 0x500)]),
    ),
    (
        "a bound word that is rebased too may hold any number",
        &[
            Dylib {
                words: &[(0x1010, 0x4000)],
                rebase: ONE,
                bind: b"\x11\x40_f\x00\x51\x71\x10\x90\x00",
                ..ON_B
            },
            F_IN_B,
        ],
        Ok(&[(0x1010, Some((1, 0)), 0x500)]),
    ),
    (
        "an addend below 0",
        &[
            Dylib {
                bind: b"\x11\x40_f\x00\x60\x7f\x51\x71\x18\x90\x00",
                ..ON_B
            },
            F_IN_B,
        ],
        Ok(&[(0x1018, Some((1, 0)), 0x4ff)]),
    ),
    (
        "a weak symbol that is absent",
        &[
            Dylib {
                bind: b"\x11\x41_g\x00\x51\x71\x18\x90\x00",
                ..ON_B
            },
            F_IN_B,
        ],
        Ok(&[(0x1018, None, 0x0)]),
    ),
    (
        "another one that is",
        &[
            Dylib {
                bind: b"\x11\x40_g\x00\x51\x71\x18\x90\x00",
                ..ON_B
            },
            F_IN_B,
        ],
        Err((133, 0x0)),
    ),
    (
        "a number, with an addend below 0",
        &[
            Dylib {
                bind: b"\x11\x40_k\x00\x60\x7f\x71\x18\x90\x00",
                ..ON_B
            },
            Dylib {
                name: B,
                exports: K_IS_1234,
                ..PLAIN
            },
        ],
        Ok(&[(0x1018, None, 0x1233)]),
    ),
    (
        "ordinal 0",
        &[
            Dylib {
                bind: b"\x10\x40_f\x00\x51\x71\x18\x90\x00",
                exports: F_AT_500,
                ..ON_B
            },
            PLAIN_B,
        ],
        Ok(&[(0x1018, Some((0, 0)), 0x500)]),
    ),
    (
        "an ordinal above the dependencies, after a bind",
        &[
            Dylib {
                bind: b"\x11\x40_f\x00\x51\x71\x18\x90\x12\x90\x00",
                ..ON_B
            },
            F_IN_B,
        ],
        Err((132, 0x1)),
    ),
    (
        "such an ordinal of a re-export",
        &[
            Dylib {
                bind: N_BY_1,
                ..ON_B
            },
            Dylib {
                name: B,
                needs: &[(LOAD, A)],
                exports: N_FROM_2,
                ..PLAIN
            },
        ],
        Err((132, 0x0)),
    ),
    (
        "a weak dependency that no image is",
        &[Dylib {
            needs: &[(WEAK, ABSENT)],
            bind: b"\x11\x40_g\x00\x51\x71\x18\x90\x60\x05\x90\x00",
            ..PLAIN
        }],
        Ok(&[(0x1018, None, 0x0), (0x1020, None, 0x5)]),
    ),
];

pub(super) static REEXPORTS: [Row; 3] = [
    (
        "re-exports are searched in depth first",
        &[
            Dylib {
                name: X,
                needs: &[(LOAD, A)],
                bind: N_BY_1,
                ..PLAIN
            },
            Dylib {
                needs: &[(REEXPORT, C), (REEXPORT, B)],
                ..PLAIN
            },
            Dylib {
                name: B,
                exports: N_AT_20,
                ..PLAIN
            },
            Dylib {
                name: C,
                needs: &[(REEXPORT, D)],
                ..PLAIN
            },
            Dylib {
                name: D,
                exports: N_AT_10,
                ..PLAIN
            },
        ],
        Ok(&[(0x1018, Some((4, 0)), 0x10)]),
    ),
    (
        "symbols that are re-exported in a circle",
        &[
            Dylib {
                name: X,
                needs: &[(LOAD, A)],
                bind: N_BY_1,
                ..PLAIN
            },
            Dylib {
                needs: &[(REEXPORT, C), (REEXPORT, B)],
                ..PLAIN
            },
            Dylib {
                name: B,
                needs: &[(LOAD, D)],
                exports: N_FROM_1,
                ..PLAIN
            },
            Dylib {
                name: C,
                needs: &[(REEXPORT, D)],
                ..PLAIN
            },
            Dylib {
                name: D,
                needs: &[(LOAD, B)],
                exports: N_FROM_1,
                ..PLAIN
            },
        ],
        Err((134, 0x0)),
    ),
    (
        "a symbol that is re-exported by another name",
        &[
            Dylib {
                bind: N_BY_1,
                ..ON_B
            },
            Dylib {
                name: B,
                needs: &[(LOAD, C)],
                exports: N_IS_F_FROM_1,
                ..PLAIN
            },
            Dylib {
                name: C,
                exports: F_AT_500,
                ..PLAIN
            },
        ],
        Ok(&[(0x1018, Some((2, 0)), 0x500)]),
    ),
];

pub(super) static EXPORTS: [Row; 4] = [
    (
        "an export at the last byte before `__LINKEDIT`",
        &[Dylib {
            exports: LAST_OF_DATA,
            ..PLAIN
        }],
        Ok(&[]),
    ),
    (
        "an export in `__LINKEDIT`",
        &[Dylib {
            exports: IN_LINKEDIT,
            ..PLAIN
        }],
        Err((131, 0x1)),
    ),
    (
        "an export at the end of the last segment",
        &[Dylib {
            exports: AT_THE_END,
            ..PLAIN
        }],
        Err((131, 0x1)),
    ),
    (
        "exports go before binds",
        &[
            Dylib {
                bind: N_BY_1,
                exports: IN_LINKEDIT,
                ..ON_B
            },
            PLAIN_B,
        ],
        Err((131, 0x1)),
    ),
];

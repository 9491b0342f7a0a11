// What is made of the image of a cache: changes of the cache, the length of the file, and its numbers that
// aren't those of the cache's segments.
use super::cases::Edits;

/// From here to there are the bytes of the image's segments in the cache.
pub(super) const BODIES: (usize, usize) = (0x1000, 0x3000);

pub(super) const FILES: [(Edits, usize, Edits); 3] = [
    // one word slides: a rebase, and an empty pool
    (
        &[],
        0x2009,
        &[
            (0x18, 0x80),
            (0x48, 0),
            (0x98, 0x400),
            (0xe0, 0x1000),
            (0x130, 0x1000),
            (0x168, 0),
            (0x16c, 0x6000),
            (0x178, 0x2000),
            (0x180, 9),
            (0x1c8, 0x2000),
            (0x1cc, 5),
            (0x2000, 0x51102111),
        ],
    ),
    // a weak symbol that is absent is bound behind it
    (
        &[
            (0x11d0, 0x4000),
            (0x11d4, 10),
            (0x4000, 0x665f4110),
            (0x4004, 0x18715100),
            (0x4008, 0x90),
        ],
        0x2019,
        &[
            (0x18, 0x80),
            (0x48, 0),
            (0x98, 0x400),
            (0xe0, 0x1000),
            (0x130, 0x1000),
            (0x168, 0),
            (0x16c, 0x6000),
            (0x178, 0x2000),
            (0x180, 0x19),
            (0x1c8, 0x2000),
            (0x1cc, 5),
            (0x1d0, 0x2008),
            (0x1d4, 10),
            (0x2000, 0x51102111),
            (0x2008, 0x665f4110),
            (0x200c, 0x18715100),
            (0x2010, 0x90),
        ],
    ),
    // the word is bound to an export: no rebase is there for it
    (
        &[
            (0x1180, 0x20),
            (0x11d0, 0x4000),
            (0x11d4, 10),
            (0x11e8, 0x4010),
            (0x11ec, 11),
            (0x4000, 0x665f4010),
            (0x4004, 0x10715100),
            (0x4008, 0x90),
            (0x4010, 0x665f0100),
            (0x4014, 0x30600),
            (0x4018, 0x20a0),
        ],
        0x2021,
        &[
            (0x18, 0x80),
            (0x48, 0),
            (0x98, 0x400),
            (0xe0, 0x1000),
            (0x130, 0x1000),
            (0x168, 0),
            (0x16c, 0x6000),
            (0x178, 0x2000),
            (0x180, 0x21),
            (0x1d0, 0x2000),
            (0x1d4, 10),
            (0x1e8, 0x2010),
            (0x1ec, 11),
            (0x2000, 0x665f4010),
            (0x2004, 0x10715100),
            (0x2008, 0x90),
            (0x2010, 0x665f0100),
            (0x2014, 0x30600),
            (0x2018, 0x20a0),
        ],
    ),
];

// A cache of one image, made by hand, the changes that are found, and those that aren't.

pub(super) const SIZE: usize = 0x5000;

/// The numbers of four bytes in the file, each with its place; all others are 0.
pub(super) const NUMBERS: [(usize, u32); 98] = [
    // "dyld_v1  x86_64", the mapping table and the image table with their counts
    (0x0, 0x646c7964),
    (0x4, 0x2031765f),
    (0x8, 0x36387820),
    (0xc, 0x34365f),
    (0x10, 0xf8),
    (0x14, 3),
    (0x18, 0x158),
    (0x1c, 1),
    // slide information and the greatest slide
    (0x38, 0x3000),
    (0x40, 42),
    (0xf0, 0xdfdfb000),
    // the mappings
    (0xf8, 0x20000000),
    (0xfc, 0x7fff),
    (0x100, 0x2000),
    (0x110, 5),
    (0x114, 5),
    (0x118, 0x20002000),
    (0x11c, 0x7fff),
    (0x120, 0x1000),
    (0x128, 0x2000),
    (0x130, 3),
    (0x134, 3),
    (0x138, 0x20003000),
    (0x13c, 0x7fff),
    (0x140, 0x2000),
    (0x148, 0x3000),
    (0x150, 1),
    (0x154, 1),
    // the image and its path, "/a.dylib"
    (0x158, 0x20001000),
    (0x15c, 0x7fff),
    (0x170, 0x178),
    (0x178, 0x642e612f),
    (0x17c, 0x62696c79),
    // its header, `__TEXT` and a section
    (0x1000, 0xfeedfacf),
    (0x1004, 0x1000007),
    (0x1008, 3),
    (0x100c, 6),
    (0x1010, 5),
    (0x1014, 0x1d0),
    (0x1018, 0x80000080),
    (0x1020, 0x19),
    (0x1024, 0x98),
    (0x1028, 0x45545f5f),
    (0x102c, 0x5458),
    (0x1038, 0x20001000),
    (0x103c, 0x7fff),
    (0x1040, 0x1000),
    (0x1048, 0x1000),
    (0x1050, 0x1000),
    (0x1058, 5),
    (0x105c, 5),
    (0x1060, 1),
    (0x1088, 0x20001400),
    (0x108c, 0x7fff),
    (0x1090, 0x800),
    (0x1098, 0x1400),
    // `__DATA` and a section
    (0x10b8, 0x19),
    (0x10bc, 0x98),
    (0x10c0, 0x41445f5f),
    (0x10c4, 0x4154),
    (0x10d0, 0x20002000),
    (0x10d4, 0x7fff),
    (0x10d8, 0x1000),
    (0x10e0, 0x2000),
    (0x10e8, 0x1000),
    (0x10f0, 3),
    (0x10f4, 3),
    (0x10f8, 1),
    (0x1120, 0x20002000),
    (0x1124, 0x7fff),
    (0x1128, 0x1000),
    (0x1130, 0x2000),
    // `__LINKEDIT`
    (0x1150, 0x19),
    (0x1154, 0x48),
    (0x1158, 0x494c5f5f),
    (0x115c, 0x44454b4e),
    (0x1160, 0x5449),
    (0x1168, 0x20004000),
    (0x116c, 0x7fff),
    (0x1170, 0x1000),
    (0x1178, 0x4000),
    (0x1180, 0x10),
    (0x1188, 1),
    (0x118c, 1),
    // LC_ID_DYLIB and LC_DYLD_INFO_ONLY
    (0x1198, 0xd),
    (0x119c, 0x28),
    (0x11a0, 0x18),
    (0x11b0, 0x642e612f),
    (0x11b4, 0x62696c79),
    (0x11c0, 0x80000022),
    (0x11c4, 0x30),
    // a word, and slide information: version 2, pages of 4096 bytes and a start
    (0x2010, 0x20002020),
    (0x2014, 0x7fff),
    (0x3000, 2),
    (0x3004, 0x1000),
    (0x3008, 40),
    (0x300c, 1),
    (0x3010, 42),
];

/// The mask, and the start of the page's chain.
pub(super) const SLIDES: [(usize, u32); 2] = [(0x301c, 0xffff0000), (0x3028, 4)];

pub(super) type Edits = &'static [(usize, u32)];

/// Changes, and the number of what is found with its image and place; nothing is 0.
pub(super) const CASES: [(Edits, u16, u32, u64); 15] = [
    (&[], 0, 0, 0),
    // a chain that leaves its page
    (&[(0x2014, 0xffff7fff)], 210, 0, 0x10),
    // the install name differs from the path: what concerns one image comes first
    (&[(0x11b0, 0x642e622f)], 213, 0, 0x1000),
    // a bind of ordinal 1 where there is no dependency, and one of a name that nobody exports
    (
        &[
            (0x11d0, 0x4000),
            (0x11d4, 10),
            (0x4000, 0x665f4011),
            (0x4004, 0x10715100),
            (0x4008, 0x90),
        ],
        217,
        0,
        132,
    ),
    (
        &[
            (0x11d0, 0x4000),
            (0x11d4, 10),
            (0x4000, 0x665f4010),
            (0x4004, 0x10715100),
            (0x4008, 0x90),
        ],
        217,
        0,
        133,
    ),
    // a word behind its section, one over the section's end, and one of an image without dyld info
    (&[(0x1128, 0x10)], 218, 0, 0x10),
    (&[(0x1128, 0x14)], 218, 0, 0x10),
    (&[(0x1010, 4), (0x1014, 0x1a0)], 218, 0, 0x10),
    // a bind of an absent weak symbol half a word on, at the word itself, and behind it
    (
        &[
            (0x11d0, 0x4000),
            (0x11d4, 10),
            (0x4000, 0x665f4110),
            (0x4004, 0x14715100),
            (0x4008, 0x90),
        ],
        218,
        0,
        0x10,
    ),
    (
        &[
            (0x11d0, 0x4000),
            (0x11d4, 10),
            (0x4000, 0x665f4110),
            (0x4004, 0x10715100),
            (0x4008, 0x90),
        ],
        219,
        0,
        0,
    ),
    (
        &[
            (0x11d0, 0x4000),
            (0x11d4, 10),
            (0x4000, 0x665f4110),
            (0x4004, 0x18715100),
            (0x4008, 0x90),
        ],
        0,
        0,
        0,
    ),
    // the same with a number that isn't 0
    (
        &[
            (0x11d0, 0x4000),
            (0x11d4, 10),
            (0x4000, 0x665f4110),
            (0x4004, 0x18715100),
            (0x4008, 0x90),
            (0x2018, 1),
        ],
        219,
        0,
        0,
    ),
    // the end of a segment, what lies behind it, and what lies below the first one
    (&[(0x2010, 0x20003000)], 0, 0, 0),
    (&[(0x2010, 0x20003001)], 220, 0, 0x10),
    (&[(0x2010, 0x20000fff)], 220, 0, 0x10),
];

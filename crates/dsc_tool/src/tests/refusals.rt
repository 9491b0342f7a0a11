// Numbers of four bytes that are set in the dylib with data, each with its place, and what is said of the file.

/// A second install name behind the other commands.
const SECOND_NAME: [(usize, u32); 7] = [
    (0x10, 7),
    (0x14, 0x208),
    (0x200, 0xD),
    (0x204, 40),
    (0x208, 24),
    (0x218, 0x642E_612F),
    (0x21C, 0x6269_6C79),
];

/// With how many bytes of the file there are.
pub(super) const REFUSED: [(&[(usize, u32)], usize, &str); 10] = [
    (&[], 0x100, "6 CommandShape image 0 at 0x14"),
    (&[], 0x200, "10 SegmentShape image 0 at 0x20"),
    (&[], 0x2003, "10 SegmentShape image 0 at 0x150"),
    (&[], 0, "3 NotMachO image 0 at 0x0"),
    (
        &[(0x1CC, 0x41)],
        0x2040,
        "17 LinkeditRange image 0 at 0x1c0",
    ),
    (
        &[(0x1F0, 0x8000_0034)],
        0x2040,
        "7 UnknownCommand image 0 at 0x1f0",
    ),
    (&SECOND_NAME, 0x2040, "8 CommandTwice image 0 at 0x200"),
    // a rebase stream that records 512 words and then one past the segment's end
    (
        &[
            (0x1C8, 0x2010),
            (0x1CC, 10),
            (0x2010, 0x6000_2111),
            (0x2014, 0x8080_8080),
            (0x2018, 0x2080),
        ],
        0x2040,
        "24 RebaseOutsideSegment image 0 at 0x3",
    ),
    // a pointer into `__LINKEDIT`, and one behind all segments
    (
        &[(0x1010, 0x2FFF)],
        0x2040,
        "135 PointsIntoLinkedit image 0 at 0x0",
    ),
    (
        &[(0x1010, 0x3000)],
        0x2040,
        "136 RebaseOutside image 0 at 0x0",
    ),
];

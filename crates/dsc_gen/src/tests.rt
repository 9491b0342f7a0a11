// A trial file by numbers of four bytes at places of it, worked out from the format and from the published
// constants of the generator by another program.
use crate::{Shape, generate};
use dsc_base::read_u32;
use std::process::Abort;
use std::test::Fail;

/// The header and its commands, the code with its first deltas and the last one, the data with its first
/// pointers and the last one, and of each stream the beginning; and the end of the file.
const NUMBERS: [(usize, u32); 49] = [
    (0x0, 0xfeedfacf),
    (0x10, 0x7),
    (0x14, 0x200),
    (0x18, 0x80),
    (0x38, 0x0),
    (0x40, 0x4000),
    (0xd0, 0x4000),
    (0xd8, 0x4000),
    (0x168, 0x8000),
    (0x170, 0x1000),
    (0x180, 0x54d),
    (0x198, 0xd),
    (0x1b0, 0x6e65672f),
    (0x1b8, 0x30303030),
    (0x1cc, 0x30),
    (0x1d0, 0x8000),
    (0x1d4, 0x18e),
    (0x1d8, 0x8190),
    (0x1dc, 0xc9),
    (0x1f0, 0x8260),
    (0x1f4, 0x63),
    (0x200, 0x5fbc858),
    (0x204, 0x3f7b5b8),
    (0x208, 0x9084d116),
    (0x20c, 0x8b637351),
    (0x218, 0x82c8),
    (0x21c, 0x285),
    (0x800, 0x6975),
    (0x804, 0xabb7519f),
    (0x808, 0xc7ebeff1),
    (0x810, 0x4463),
    (0xe30, 0x700a),
    (0x3ffc, 0xdfe5b466),
    (0x4000, 0x46b4),
    (0x4020, 0x64cb),
    (0x4c60, 0x6fcf),
    (0x4c80, 0x0),
    (0x8000, 0x51002111),
    (0x8004, 0x21512021),
    (0x8190, 0x735f4010),
    (0x8194, 0x80710036),
    (0x8198, 0x40109019),
    (0x8260, 0x735f0100),
    (0x8264, 0x80808900),
    (0x8268, 0x30080000),
    (0x82c8, 0x201017f),
    (0x82cc, 0x3014f63),
    (0x82d0, 0xb20ac001),
    (0x8549, 0x8b00103),
];

#[test]
fn one_file(rt: HostRuntime) -> Result<(), Fail> {
    let shape = Shape {
        pages: 4,
        pointers: 100,
        links: 20,
    };
    let files = generate(rt.alloc(), 5, 1, &shape).ok().ok_or("memory")?;
    let [file] = files.as_slice() else {
        return Err("one file")?;
    };
    assert_eq!(rt; file.len(), 34125);
    for (at, number) in NUMBERS {
        assert_eq!(rt; read_u32(file, at), Some(number), "{at}");
    }
    Ok(())
}

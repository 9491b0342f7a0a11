// The commands of a dylib, and numbers at addresses of its segments.
use crate::{
    Form, Location, half_at_address, header_address, number_at_address, read_image, value_at,
};
use sample_dylibs::data_dylib;
use std::test::*;

/// The offset and the number of each command.
const COMMANDS: [(u64, u32); 6] = [
    (0x20, 0x19),
    (0xb8, 0x19),
    (0x150, 0x19),
    (0x198, 0xd),
    (0x1c0, 0x8000_0022),
    (0x1f0, 0x1e),
];

/// A number of 8 bytes at an address of the segment `__DATA`.
const NUMBERS: [(u64, u64); 5] = [
    (0x1010, 0x1020),
    (0x100c, 0x1020_0000_0000),
    (0x1012, 0),
    (0x1ff9, 0),
    (0x2000, 0),
];

#[test]
fn commands_and_numbers(rt: HostRuntime) -> Result<(), Fail> {
    let alloc = rt.alloc();
    let file = data_dylib(alloc, 0x2040)?;
    let image = read_image(alloc, &file, 0, Form::Standalone)
        .ok()
        .ok_or("the dylib is read")?;
    assert_eq!(rt; image.header.len(), 0x200);
    let mut commands = image.commands();
    for (at, number) in COMMANDS {
        let command = commands.next().ok_or("a command is left")?;
        assert_eq!(rt; command.at, at);
        assert_eq!(rt; command.number, number);
    }
    assert!(rt; commands.next().is_none());
    assert_eq!(rt; header_address(&image.segments), 0);
    for (address, number) in NUMBERS {
        let word = Location {
            segment: 1,
            section: 2,
            address,
        };
        assert_eq!(rt; value_at(&image.segments, &word), number);
    }
    for data in image.segments.iter().skip(1).take(1) {
        assert_eq!(rt; number_at_address(data, 0x1011), 0x10);
        assert_eq!(rt; half_at_address(data, 0x100e), 0x1020_0000);
    }
    Ok(())
}

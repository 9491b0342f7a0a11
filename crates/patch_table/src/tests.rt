// Tables of patches made by hand: read, written again, and with the changes that no table has.
use super::*;
use dsc_base::{Fault, Rule};
use sample_dylibs::put_numbers;
use std::alloc::Global;
use std::test::*;

/// The numbers of four bytes in a table with one own record, each with its place; all others are 0.
const TABLE: [(usize, u32); 13] = [
    // "dsc_patches_v1"
    (0x0, 0x5f637364),
    (0x4, 0x63746170),
    (0x8, 0x5f736568),
    (0xc, 0x3176),
    // the identifier
    (0x10, 0x3850a348),
    (0x14, 0x215872ed),
    (0x18, 0xcf5b1391),
    (0x1c, 0x3d4256a4),
    // an override of image 1, with no records of the cache and one of the file
    (0x20, 0x1),
    (0x24, 0x1),
    (0x2c, 0x1),
    // the word at 0x10 becomes a place in the file
    (0x30, 0x10),
    (0x38, 0x2),
];

/// Edits of that table, its length, and whether it is one.
const CASES: [(&[(usize, u32)], usize, bool); 26] = [
    (&[(0x40, 0x600)], 0x48, true),
    // cut by one byte, one byte more, and no bytes
    (&[], 0x47, false),
    (&[], 0x49, false),
    (&[], 0x0, false),
    // cut in the head, and a head alone
    (&[(0x2c, 0x0)], 0x2f, false),
    (&[(0x2c, 0x0)], 0x30, true),
    // another letter, no NUL
    (&[(0x0, 0x5f637365)], 0x48, false),
    (&[(0xc, 0x20003176)], 0x48, false),
    // a kind below and one above; a program with an image and without
    (&[(0x20, 0x0)], 0x48, false),
    (&[(0x20, 0x3)], 0x48, false),
    (&[(0x20, 0x2)], 0x48, false),
    (&[(0x20, 0x2), (0x24, 0x0)], 0x48, true),
    // the record in the other list, also of a program
    (&[(0x28, 0x1), (0x2c, 0x0)], 0x48, true),
    (
        &[(0x20, 0x2), (0x24, 0x0), (0x28, 0x1), (0x2c, 0x0)],
        0x48,
        false,
    ),
    // each base, one above them, and a byte in the gap
    (&[(0x38, 0x0)], 0x48, true),
    (&[(0x38, 0x1)], 0x48, true),
    (&[(0x38, 0x3)], 0x48, false),
    (&[(0x3c, 0x1000000)], 0x48, false),
    // counts that are too high
    (&[(0x28, 0x1)], 0x48, false),
    (&[(0x2c, 0xffffffff), (0x28, 0xffffffff)], 0x48, false),
    // a second record above the first one, at its place, and below
    (&[(0x2c, 0x2), (0x48, 0x11)], 0x60, true),
    (&[(0x2c, 0x2), (0x48, 0x10)], 0x60, false),
    (&[(0x2c, 0x2), (0x48, 0x8)], 0x60, false),
    (&[(0x2c, 0x2), (0x34, 0x1), (0x48, 0x11)], 0x60, false),
    // below, but in the other list
    (&[(0x28, 0x1), (0x48, 0x8)], 0x60, true),
    // the greatest place and value
    (
        &[
            (0x30, 0xffffffff),
            (0x34, 0xffffffff),
            (0x40, 0xffffffff),
            (0x44, 0xffffffff),
        ],
        0x48,
        true,
    ),
];

fn table_with(alloc: Global, len: usize, edits: &[(usize, u32)]) -> Result<Vec<u8>, Fail> {
    let mut bytes = vec![in alloc; 0u8; 0x60]?;
    put_numbers(&mut bytes, &TABLE);
    put_numbers(&mut bytes, edits);
    bytes.resize(len, 0)?;
    Ok(bytes)
}

#[test]
fn one_record(rt: HostRuntime) -> Result<(), Fail> {
    let alloc = rt.alloc();
    let bytes = table_with(alloc, 0x48, &[(0x40, 0x600)])?;
    let patches = read_patches(alloc, &bytes).ok().ok_or("the table is read")?;
    assert_eq!(rt; patches.cache_uuid[0], 0x48);
    assert_eq!(rt; patches.cache_uuid[15], 0x3d);
    assert_eq!(rt; patches.program, false);
    assert_eq!(rt; patches.image, 1);
    assert_eq!(rt; patches.cached.len(), 0);
    let record = Record {
        at: 0x10,
        base: Base::File,
        value: 0x600,
    };
    assert_eq!(rt; patches.own.as_slice(), [record].as_slice());
    Ok(())
}

#[test]
fn tables(rt: HostRuntime) -> Result<(), Fail> {
    let alloc = rt.alloc();
    for (edits, len, is_table) in &CASES {
        let bytes = table_with(alloc, *len, edits)?;
        match read_patches(alloc, &bytes) {
            Ok(patches) => {
                assert_eq!(rt; true, *is_table);
                let written = write_patches(alloc, &patches).ok().ok_or("memory is left")?;
                assert_eq!(rt; written.as_slice(), bytes.as_slice());
            }
            Err(Fault::Broken(site)) => {
                assert_eq!(rt; false, *is_table);
                assert_eq!(rt; site.rule, Rule::PatchShape);
                assert_eq!(rt; site.at, 0);
            }
            Err(Fault::Memory) => return Err("memory is left".into()),
        }
    }
    Ok(())
}

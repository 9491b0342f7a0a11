// Symbol tables that are merged, and a dylib as a usual linker makes it: rows by hand.
use super::sets::{Patches, has_bytes, set_bytes};
use super::{is_refused, run_line};
use crate::tests::dylibs::plain_dylib;
use dsc_base::{MemStore, Store};
use macho_image::{Form, read_image};
use sample_dylibs::{system_dylib, usual_dylib};
use std::alloc::Global;
use std::test::Fail;

// ---- symbols, in the plain dylib

/// LC_SYMTAB with `_a` of the first group and `_b` of the second, their names, and LC_DYSYMTAB.
const SYMBOLS: Patches<'static> = &[
    (0x10, b"\x05"),
    (0x14, b"\x70\x01"),
    (0x118, b"/s.dylib"),
    (
        0x128,
        b"\x02\0\0\0\x18\0\0\0\0\x10\0\0\x02\0\0\0\x20\x10\0\0\x07\0\0\0",
    ),
    (
        0x140,
        b"\x0B\0\0\0\x50\0\0\0\0\0\0\0\x01\0\0\0\x01\0\0\0\x01\0\0\0\x02\0\0\0",
    ),
    (0x1000, b"\x01\0\0\0\x0E\x01\0\0\0\x08"),
    (0x1010, b"\x04\0\0\0\x0F\x01\0\0\0\x09"),
    (0x1020, b"\0_a\0_b\0"),
];

/// The same with an entry for a debugger before both.
const SYMBOLS_WITH_A_STAB: Patches<'static> = &[
    (0x134, b"\x03\0\0\0\x30"),
    (0x148, b"\0\0\0\0\x02\0\0\0\x02\0\0\0\x01\0\0\0\x03\0\0\0"),
    (0x1000, b"\0\0\0\0\x64\0\0\0\0\0"),
    (0x1010, b"\x01\0\0\0\x0E\x01\0\0\0\x08"),
    (0x1020, b"\x04\0\0\0\x0F\x01\0\0\0\x09\0"),
    (0x1030, b"\0_a\0_b\0"),
];

/// The merged linkedit: both symbols, and their names.
const MERGED: Patches<'static> = &[
    (
        0x3000,
        b"\x01\0\0\0\x0E\x01\0\0\0\x18\0\x20\xFF\x7F\0\0\x04\0\0\0\x0F\x01\0\0\0\x19\0\x20\xFF\x7F\0\0",
    ),
    (0x3020, b"\0_a\0_b\0"),
];

#[test]
fn symbols_are_merged(rt: HostRuntime) -> Result<(), Fail> {
    let alloc = rt.alloc();
    let mut store = MemStore::new(alloc);
    let mut file = plain_dylib(alloc)?;
    set_bytes(&mut file, SYMBOLS);
    store.insert("S", file)?;
    let mut with_a_stab = plain_dylib(alloc)?;
    set_bytes(&mut with_a_stab, SYMBOLS);
    set_bytes(&mut with_a_stab, SYMBOLS_WITH_A_STAB);
    store.insert("T", with_a_stab)?;
    let answer = run_line(&rt, alloc, "build c S", &mut store, 99, 99)?;
    assert_eq!(rt;
        answer.out.bytes(),
        b"built 1 images, span 0x4000\n".as_slice()
    );
    let cache = store.get(alloc, "c", 0x4000)?;
    has_bytes(&rt, &cache, MERGED);
    let answer = run_line(&rt, alloc, "build d T", &mut store, 99, 99)?;
    assert_eq!(rt;
        answer.out.bytes(),
        b"built 1 images, span 0x4000\n".as_slice()
    );
    assert_eq!(rt; store.file("d"), Some(cache.as_slice()));
    let mut outside = plain_dylib(alloc)?;
    set_bytes(&mut outside, SYMBOLS);
    set_bytes(&mut outside, &[(0x1010, b"\x07")]);
    is_refused(&rt, alloc, outside, "111 TableNameOutside image 0 at 0x1")
}

// ---- a dylib as a usual linker makes it

/// Fourteen commands; pointers by their new places, linked with steps of 8, 8 and 24 bytes: the binder's, two of
/// constants, the lazy one and one of data, beside a number; and differences and offsets of the code by where both ends go.
const USUAL: Patches<'static> = &[
    (0x1010, b"\x0E\0\0\0"),
    (0x2003, b"\x01\x30\0\0"),
    (0x2102, b"\xFA\x2E\0\0"),
    (0x210B, b"\x01\x2F\0\0"),
    (0x2113, b"\xE9\x1E\0\0"),
    (0x2144, b"\0\x30\0\0\0\x10\0\0"),
    (0x2154, b"\x11\x10\0\0"),
    (
        0x4000,
        b"\x10\x38\0\x20\xFF\x7F\x02\0\x10\x20\0\x20\xFF\x7F\x02\0\x08\x50\0\x20\xFF\x7F\0\0",
    ),
    (0x5000, b"\0\x38\0\x20\xFF\x7F\x06\0\x2A"),
    (0x5018, b"\x10\x60\0\x20\xFF\x7F\0\0"),
];

/// Where its file and that of the system are put.
const USUAL_NAMES: [&str; 2] = [
    "out/usr/lib/libusual.dylib",
    "out/usr/lib/libSystem.B.dylib",
];

#[test]
fn a_usual_dylib_is_built(rt: HostRuntime) -> Result<(), Fail> {
    let alloc = rt.alloc();
    let mut store = MemStore::new(alloc);
    store.insert("U", usual_dylib(alloc)?)?;
    store.insert("S", system_dylib(alloc)?)?;
    let answer = run_line(&rt, alloc, "build c U S", &mut store, 99, 99)?;
    assert_eq!(rt;
        answer.out.bytes(),
        b"built 2 images, span 0x9000\n".as_slice()
    );
    let cache = store.get(alloc, "c", 0x9000)?;
    has_bytes(&rt, &cache, USUAL);
    let answer = run_line(&rt, alloc, "check c U S", &mut store, 99, 99)?;
    assert_eq!(rt; answer.out.bytes(), b"agrees: 2 images\n".as_slice());
    let answer = run_line(&rt, alloc, "extract c out", &mut store, 99, 99)?;
    assert_eq!(rt; answer.out.bytes(), b"extracted 2 images\n".as_slice());
    for name in USUAL_NAMES {
        let file = store.get(alloc, name, 0x6000)?;
        assert_eq!(rt;
            read_image(alloc, &file, 0, Form::Standalone).is_ok(),
            true,
            "{name}"
        );
    }
    Ok(())
}

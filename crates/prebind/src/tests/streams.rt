// What the streams of one dylib spell, and streams that break a rule of each group before other broken ones.
use super::dylibs::{Dylib, PLAIN};
use crate::ImageStreams;
use export_trie::Export;
use std::process::Abort;

/// A bind by its address, ordinal, name, weak import and addend.
type Bound = (u64, u64, &'static [u8], bool, i64);

/// A reference by its address, the segment to which it leads and the offset in its section.
type Referred = (u64, u32, u64);

/// The rebases, binds, references and names that are exported.
pub(super) struct Spelled {
    rebases: &'static [u64],
    binds: &'static [Bound],
    references: &'static [Referred],
    names: &'static [&'static [u8]],
}

pub(super) type Row = (Dylib, Result<Spelled, (u16, u64)>);

/// A dylib whose streams are all broken.
const BROKEN: Dylib = Dylib {
    rebase: b"\x11\xf0",
    bind: b"\x51\xd0",
    weak: b"\x00\x01",
    lazy: b"\x00\x00\xd0",
    exports: b"\x00\x01_f\x00\x00",
    split: b"\x7e",
    ..PLAIN
};

pub(super) static ROWS: [Row; 9] = [
    (
        PLAIN,
        Ok(Spelled {
            rebases: &[],
            binds: &[],
            references: &[],
            names: &[],
        }),
    ),
    (
        Dylib {
            rebase: b"\x11\x21\x08\x52\x00",
            bind: b"\x11\x41_g\x00\x60\x7f\x51\x71\x18\x90\x00",
            lazy: b"\x71\x20\x12\x40_f\x00\x90\x00",
            exports: b"\x00\x02b\x00\x08a\x00\x0c\x02\x00\x10\x00\x02\x00\x20\x00",
            split: b"\x7f\x01\x02\x01\x01\x80\x18\x01\x02\x01\x10",
            ..PLAIN
        },
        Ok(Spelled {
            rebases: &[0x1008, 0x1010],
            binds: &[(0x1018, 1, b"_g", true, -1), (0x1020, 2, b"_f", false, 0)],
            references: &[(0x1010, 0, 0xc00)],
            names: &[b"a", b"b"],
        }),
    ),
    (BROKEN, Err((22, 1))),
    (
        Dylib {
            rebase: b"",
            ..BROKEN
        },
        Err((55, 1)),
    ),
    (
        Dylib {
            rebase: b"",
            bind: b"",
            ..BROKEN
        },
        Err((75, 2)),
    ),
    (
        Dylib {
            rebase: b"\x11\x21\x10\x51\x00",
            bind: b"",
            lazy: b"\x71\x14\x11\x40_f\x00\x90\x00",
            ..BROKEN
        },
        Err((81, 1)),
    ),
    (
        Dylib {
            rebase: b"\x11\x21\x10\x51\x00",
            bind: b"",
            weak: b"\x00",
            lazy: b"\x71\x14\x11\x40_f\x00\x90\x00",
            ..BROKEN
        },
        Err((82, 0x1010)),
    ),
    (
        Dylib {
            exports: b"\x00\x01_f\x00\x00",
            split: b"\x7e",
            ..PLAIN
        },
        Err((93, 0)),
    ),
    (
        Dylib {
            split: b"\x7e",
            ..PLAIN
        },
        Err((102, 0)),
    ),
];

fn are_rebases(rt: &impl Abort, streams: &ImageStreams<'_>, wanted: &[u64]) {
    assert_eq!(rt; streams.rebases.len(), wanted.len());
    for (rebase, address) in streams.rebases.iter().zip(wanted) {
        assert_eq!(rt; rebase.address, *address);
    }
}

fn are_binds(rt: &impl Abort, streams: &ImageStreams<'_>, wanted: &[Bound]) {
    assert_eq!(rt; streams.binds.len(), wanted.len());
    for (bind, wanted) in streams.binds.iter().zip(wanted) {
        let (address, ordinal, name, weak, addend) = *wanted;
        assert_eq!(rt; (bind.at.address, bind.ordinal), (address, ordinal));
        assert_eq!(rt; (bind.weak, bind.addend), (weak, addend));
        assert_eq!(rt; bind.name, name);
    }
}

fn are_references(rt: &impl Abort, streams: &ImageStreams<'_>, wanted: &[Referred]) {
    assert_eq!(rt; streams.references.len(), wanted.len());
    for (reference, wanted) in streams.references.iter().zip(wanted) {
        let led = (reference.from, reference.to_segment, reference.to_offset);
        assert_eq!(rt; led, *wanted);
    }
}

fn are_names(rt: &impl Abort, exports: &[Export], wanted: &[&[u8]]) {
    assert_eq!(rt; exports.len(), wanted.len());
    for (export, name) in exports.iter().zip(wanted) {
        assert!(rt; export.name.as_slice() == *name);
    }
}

pub(super) fn are_spelled(
    rt: &impl Abort,
    streams: &ImageStreams<'_>,
    exports: &[Export],
    wanted: &Spelled,
) {
    are_rebases(rt, streams, wanted.rebases);
    are_binds(rt, streams, wanted.binds);
    are_references(rt, streams, wanted.references);
    are_names(rt, exports, wanted.names);
}

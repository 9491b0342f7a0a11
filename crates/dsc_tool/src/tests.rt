mod asking;
mod checks;
mod dylibs;
mod extractions;
mod heads;
mod pointers;
mod refusals;
mod sets;
mod tables;
mod trials;
mod words;

use crate::{Status, run};
use dsc_base::{
    GetFault, MemSink, MemStore, NoMemory, OpenGate, PutFault, SoundStore, Store, put_u32, read_u64,
};
use dylibs::{data_dylib, large_dylib, plain_dylib};
use macho_image::{Form, read_image};
use refusals::REFUSED;
use std::alloc::{AllocError, Global};
use std::process::Abort;
use std::test::Fail;
use std::thread::Threads;

/// What a run answers, and what both streams hold after it.
#[derive(Drop)]
struct Answer {
    status: Status,
    out: MemSink,
    err: MemSink,
}

/// Runs the words of the line, with room for so many bytes on each stream.
fn run_line<R: Threads + Sync, S: Store>(
    rt: &R,
    alloc: Global,
    line: &str,
    store: &mut S,
    out_room: usize,
    err_room: usize,
) -> Result<Answer, Fail> {
    let mut words = Vec::new(alloc);
    for word in line.split_whitespace() {
        words.push(word)?;
    }
    run_words(rt, alloc, &words, store, out_room, err_room)
}

/// The same of these words.
fn run_words<R: Threads + Sync, S: Store>(
    rt: &R,
    alloc: Global,
    words: &[&str],
    store: &mut S,
    out_room: usize,
    err_room: usize,
) -> Result<Answer, Fail> {
    let words = owned(alloc, words)?;
    let mut out = MemSink::with_room(alloc, out_room)?;
    let mut err = MemSink::with_room(alloc, err_room)?;
    let status = run(rt, alloc, &words, store, &mut out, &mut err, &OpenGate);
    Ok(Answer { status, out, err })
}

fn owned(alloc: Global, words: &[&str]) -> Result<Vec<String>, AllocError> {
    let mut owned = Vec::new(alloc);
    for word in words {
        owned.push(String::from_str(alloc, word)?)?;
    }
    Ok(owned)
}

/// A store whose files are empty until one is too large. It doesn't tell its files, so it counts a fault.
#[derive(Drop)]
struct LargeStore {
    empty_files: u64,
    get_faults: u64,
}

impl Store for LargeStore {
    ghost use Rattle.std.specs.Prelude.{None};

    ghost files = { λ _. None };

    ghost get_faults = { λ s. s.get_faults };

    ghost put_faults = { λ _. 0 };

    fn get(&mut self, alloc: Global, _name: &str, _limit: u64) -> Result<Vec<u8>, GetFault> {
        if self.empty_files > 0 {
            self.empty_files -= 1;
            return Ok(Vec::new(alloc));
        }
        self.get_faults = self.get_faults.saturating_add(1);
        Err(GetFault::TooLarge)
    }

    fn put(&mut self, _alloc: Global, _name: &str, _bytes: &[u8]) -> Result<(), PutFault> {
        Err(PutFault::Memory)
    }
}

/// What a run over a store with the empty file A says, where the gets and puts with these numbers fail.
const UNREAD: [(&str, Option<u32>, &str); 5] = [
    ("build c B", None, "dsc: cannot read input 0\n"),
    ("build c A", Some(0), "dsc: cannot read input 0\n"),
    ("build c A B", None, "dsc: cannot read input 1\n"),
    ("build c A A A", Some(1), "dsc: cannot read input 1\n"),
    ("build c A A A", Some(2), "dsc: cannot read input 2\n"),
];

#[test]
fn inputs_that_are_not_read_are_told(rt: HostRuntime) -> Result<(), Fail> {
    let alloc = rt.alloc();
    for (line, failing, want) in UNREAD {
        let mut store = MemStore::new(alloc);
        store.insert("A", Vec::new(alloc))?;
        if let Some(call) = failing {
            store.fail_at(call, 0)?;
        }
        let answer = run_line(&rt, alloc, line, &mut store, 99, 99)?;
        assert_eq!(rt; answer.status, Status::ReadFault, "{line}");
        assert_eq!(rt; answer.err.bytes(), want.as_bytes(), "{line}");
        assert_eq!(rt; answer.out.bytes(), b"".as_slice(), "{line}");
        assert_eq!(rt; store.file("c"), None, "{line}");
    }
    // A text that isn't taken whole is a fault of writing, and no other text follows.
    let mut store = MemStore::new(alloc);
    let answer = run_line(&rt, alloc, "build c A", &mut store, 99, 11)?;
    assert_eq!(rt; answer.status, Status::WriteFault);
    assert_eq!(rt; answer.err.bytes(), b"dsc: cannot".as_slice());
    Ok(())
}

/// How many empty files stand before one that is too large, and what is said of it. Reading goes before
/// the rules that an empty file breaks.
const TOO_LARGE: [(u64, &str); 3] = [
    (0, "dsc: refused 1 FileTooLarge image 0 at 0x4000000\n"),
    (1, "dsc: refused 1 FileTooLarge image 1 at 0x4000000\n"),
    (2, "dsc: refused 1 FileTooLarge image 2 at 0x4000000\n"),
];

#[test]
fn an_input_that_is_too_large_is_refused(rt: HostRuntime) -> Result<(), Fail> {
    let alloc = rt.alloc();
    for (empty_files, want) in TOO_LARGE {
        let mut store = LargeStore {
            empty_files,
            get_faults: 0,
        };
        let answer = run_line(&rt, alloc, "build c A B C", &mut store, 99, 99)?;
        assert_eq!(rt; answer.status, Status::Refused);
        assert_eq!(rt; answer.err.bytes(), want.as_bytes());
    }
    Ok(())
}

/// Numbers of 8 bytes in the cache of the plain dylib. The text mapping ends where the data mapping, of
/// size 0, and the linkedit mapping begin; slide information has 40 bytes; the rest of the region is the
/// most that the cache may slide.
const CACHE_NUMBERS: [(usize, u64); 23] = [
    (0x10, 0x3_0000_00F8),
    (0x18, 0x1_0000_0158),
    (0x38, 0x2000),
    (0x40, 40),
    // the version 5 identifier over an identifier of zeros
    (0x58, 0x2158_72ED_3850_A348),
    (0x60, 0x3D42_56A4_CF5B_1391),
    (0xE0, 0x7FFF_2000_0000),
    (0xE8, 0xDFE0_0000),
    (0xF0, 0xDFDF_C000),
    (0xF8, 0x7FFF_2000_0000),
    (0x100, 0x2000),
    (0x110, 0x5_0000_0005),
    (0x118, 0x7FFF_2000_2000),
    (0x120, 0),
    (0x138, 0x7FFF_2000_2000),
    (0x140, 0x2000),
    (0x148, 0x2000),
    (0x158, 0x7FFF_2000_1000),
    // the cached header: its flags, and the address and offset of its section
    (0x1018, 0x8000_0085),
    (0x1088, 0x7FFF_2000_1400),
    (0x1098, 0x1400),
    // slide information: version 2 and pages of 4096 bytes, and the mask of 16 bits
    (0x2000, 0x1000_0000_0002),
    (0x2018, 0xFFFF_0000_0000_0000),
];

#[test]
fn a_plain_dylib_is_built(rt: HostRuntime) -> Result<(), Fail> {
    let alloc = rt.alloc();
    let mut store = MemStore::new(alloc);
    store.insert("A", plain_dylib(alloc)?)?;
    let answer = run_line(&rt, alloc, "build c A", &mut store, 99, 99)?;
    assert_eq!(rt; answer.status, Status::Done);
    assert_eq!(rt;
        answer.out.bytes(),
        b"built 1 images, span 0x4000\n".as_slice()
    );
    assert_eq!(rt; answer.err.bytes(), b"".as_slice());
    let cache = store.get(alloc, "c", 0x4000)?;
    assert_eq!(rt; cache.len(), 0x4000);
    for (at, want) in CACHE_NUMBERS {
        assert_eq!(rt; read_u64(&cache, at), Some(want), "at {at:x}");
    }
    let image = read_image(alloc, &cache, 0x1000, Form::Cached)
        .ok()
        .ok_or("the cached dylib is read")?;
    assert_eq!(rt; image.install_name, b"/a.dylib".as_slice());
    let starts: Vec<u64> = image.segments.iter().map(|s| s.vmaddr).collect(alloc)?;
    assert_eq!(rt;
        starts.as_slice(),
        [0x7FFF_2000_1000, 0x7FFF_2000_3000].as_slice()
    );
    // A put that fails leaves what it took, and standard output that fails leaves the cache.
    store.fail_at(1, 100)?;
    let answer = run_line(&rt, alloc, "build d A", &mut store, 99, 99)?;
    assert_eq!(rt; answer.status, Status::WriteFault);
    assert_eq!(rt; answer.out.bytes(), b"".as_slice());
    assert_eq!(rt; answer.err.bytes(), b"dsc: cannot write\n".as_slice());
    assert_eq!(rt; store.file("d"), cache.get(..100));
    let answer = run_line(&rt, alloc, "build e A", &mut store, 5, 99)?;
    assert_eq!(rt; answer.status, Status::WriteFault);
    assert_eq!(rt; answer.out.bytes(), b"built".as_slice());
    assert_eq!(rt; answer.err.bytes(), b"dsc: cannot write\n".as_slice());
    assert_eq!(rt; store.file("e"), Some(cache.as_slice()));
    Ok(())
}

/// Numbers of four bytes to set in the dylib with data, each with its place.
fn put_all(file: &mut [u8], numbers: &[(usize, u32)]) {
    for (place, value) in numbers {
        if *place < file.len() && file.len() - *place >= 4 {
            put_u32(file, *place, *value);
        }
    }
}

#[test]
fn other_files_are_refused(rt: HostRuntime) -> Result<(), Fail> {
    let alloc = rt.alloc();
    for (numbers, length, want) in REFUSED {
        let mut file = data_dylib(alloc, 0x1000)?;
        put_all(&mut file, numbers);
        file.truncate(length);
        is_refused(&rt, alloc, file, want)?;
    }
    let other = universal_file(alloc, 1)?;
    is_refused(&rt, alloc, other, "4 NoSlice image 0 at 0x0")?;
    let mut crossing = data_dylib(alloc, 0x2000)?;
    put_all(&mut crossing, &AT_THE_EDGE);
    put_all(&mut crossing, &[(0x3000, 0x1FFC_2111)]);
    is_refused(&rt, alloc, crossing, "28 RebaseCrossesPage image 0 at 0x4")?;
    let large = large_dylib(alloc, 0x2000_1000)?;
    is_refused(&rt, alloc, large, "141 SpanTooLarge image 0 at 0x20003000")?;
    let large = large_dylib(alloc, 0x1FFF_E000)?;
    is_refused(
        &rt,
        alloc,
        large,
        "171 LinkeditTooLarge image 0 at 0x20000000",
    )
}

/// A universal file with an entry for i386, and, where it has two entries, behind it one of the dylib with data.
fn universal_file(alloc: Global, entries: u32) -> Result<Vec<u8>, NoMemory> {
    let mut file = Vec::new(alloc);
    file.resize(0x1000, 0)?;
    put_all(
        &mut file,
        &[
            (0x0, 0xBEBA_FECA),
            (0x4, entries.swap_bytes()),
            (0x8, 0x0700_0000),
            (0x10, 0x0010_0000),
            (0x14, 0x0010_0000),
            (0x1C, 0x0700_0001),
            (0x24, 0x0010_0000),
            (0x28, 0x4020_0000),
        ],
    );
    file.extend_from_slice(&data_dylib(alloc, 0x1000)?)?;
    Ok(file)
}

#[test]
fn a_universal_file_is_built_as_its_slice(rt: HostRuntime) -> Result<(), Fail> {
    let alloc = rt.alloc();
    let mut store = MemStore::new(alloc);
    store.insert("A", data_dylib(alloc, 0x1000)?)?;
    store.insert("U", universal_file(alloc, 2)?)?;
    run_line(&rt, alloc, "build c A", &mut store, 99, 99)?;
    let answer = run_line(&rt, alloc, "build d U", &mut store, 99, 99)?;
    assert_eq!(rt;
        answer.out.bytes(),
        b"built 1 images, span 0x5000\n".as_slice()
    );
    assert_eq!(rt; store.file("d"), store.file("c"));
    Ok(())
}

/// In the dylib with two pages of data: six bytes of rebases, of which the last is a word at the end of the first page.
const AT_THE_EDGE: [(usize, u32); 3] = [(0x1CC, 6), (0x3000, 0x1FF8_2111), (0x3004, 0x51)];

/// A file alone is refused with this text, and nothing is put.
fn is_refused<R: Threads + Sync + Abort>(
    rt: &R,
    alloc: Global,
    file: Vec<u8>,
    want: &str,
) -> Result<(), Fail> {
    let mut store = SoundStore::new(alloc);
    store.insert("A", file)?;
    let answer = run_line(rt, alloc, "build c A", &mut store, 99, 99)?;
    let text = format!(in alloc; "dsc: refused {want}\n")?;
    assert_eq!(rt; answer.status, Status::Refused, "{want}");
    assert_eq!(rt; answer.err.bytes(), text.as_bytes(), "{want}");
    assert_eq!(rt; store.file("c"), None, "{want}");
    Ok(())
}

/// A dylib with data and no rebase, whose install name begins with these four bytes.
fn still_dylib(alloc: Global, name: u32) -> Result<Vec<u8>, NoMemory> {
    let mut file = data_dylib(alloc, 0x1000)?;
    put_all(&mut file, &[(0x1CC, 0), (0x1B0, name)]);
    Ok(file)
}

/// Numbers of 8 bytes in the cache of one such dylib: where slide information stands and how long it is,
/// the most that the cache may slide, the number and size of the commands of the cached header, where
/// text and data go, the word in the data, and the start of its page.
const ONE: [(usize, u64); 9] = [
    (0x38, 0x3000),
    (0x40, 42),
    (0xF0, 0xDFDF_B000),
    (0x158, 0x7FFF_2000_1000),
    (0x1010, 0x1D0_0000_0005),
    (0x1038, 0x7FFF_2000_1000),
    (0x10D0, 0x7FFF_2000_2000),
    (0x2010, 0x1020),
    (0x3028, 0x4000),
];

/// The same of two: where text and data of each go.
const TWO: [(usize, u64); 6] = [
    (0x158, 0x7FFF_2000_1000),
    (0x178, 0x7FFF_2000_2000),
    (0x1038, 0x7FFF_2000_1000),
    (0x10D0, 0x7FFF_2000_3000),
    (0x2038, 0x7FFF_2000_2000),
    (0x20D0, 0x7FFF_2000_4000),
];

#[test]
fn several_dylibs_are_built(rt: HostRuntime) -> Result<(), Fail> {
    let alloc = rt.alloc();
    let mut store = MemStore::new(alloc);
    store.insert("A", still_dylib(alloc, 0x642E_612F)?)?;
    store.insert("B", still_dylib(alloc, 0x642E_622F)?)?;
    let answer = run_line(&rt, alloc, "build c A", &mut store, 99, 99)?;
    assert_eq!(rt; answer.status, Status::Done);
    assert_eq!(rt;
        answer.out.bytes(),
        b"built 1 images, span 0x5000\n".as_slice()
    );
    let cache = store.get(alloc, "c", 0x5000)?;
    assert_eq!(rt; cache.len(), 0x5000);
    for (at, want) in ONE {
        assert_eq!(rt; read_u64(&cache, at), Some(want), "at {at:x}");
    }
    let answer = run_line(&rt, alloc, "build c A B", &mut store, 99, 99)?;
    assert_eq!(rt;
        answer.out.bytes(),
        b"built 2 images, span 0x7000\n".as_slice()
    );
    let cache = store.get(alloc, "c", 0x7000)?;
    for (at, want) in TWO {
        assert_eq!(rt; read_u64(&cache, at), Some(want), "at {at:x}");
    }
    let answer = run_line(&rt, alloc, "build d A A", &mut store, 99, 99)?;
    assert_eq!(rt; answer.status, Status::Refused);
    assert_eq!(rt;
        answer.err.bytes(),
        b"dsc: refused 121 DuplicateName image 1 at 0x0\n".as_slice()
    );
    assert_eq!(rt; store.file("d"), None);
    Ok(())
}

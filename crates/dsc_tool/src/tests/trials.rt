// Caches of trial dylibs.
use super::run_line;
use crate::Status;
use cache_build::{Options, build};
use dsc_base::{MemStore, OpenGate};
use dsc_gen::{Shape, generate};
use std::alloc::Global;
use std::process::Abort;
use std::test::Fail;
use std::thread::Threads;

/// How the line of each trial begins.
const TRIALS: [(&str, &str); 6] = [
    ("trial 5 1", "trial: 1 images, 120 words, span 0xb000, sum "),
    ("trial 5 40", "trial: 40 images, 4800 words, span 0x"),
    (
        "trial --jobs 2 05 0040",
        "trial: 40 images, 4800 words, span 0x",
    ),
    (
        "trial 5 --jobs=7 40",
        "trial: 40 images, 4800 words, span 0x",
    ),
    (
        "trial 5 40 --jobs 64",
        "trial: 40 images, 4800 words, span 0x",
    ),
    (
        "trial 18446744073709551615 2",
        "trial: 2 images, 240 words, span 0x",
    ),
];

#[test]
fn trials_are_told(rt: HostRuntime) -> Result<(), Fail> {
    let alloc = rt.alloc();
    let forty = line_of_forty(&rt, alloc)?;
    for (line, begins) in TRIALS {
        let mut store = MemStore::new(alloc);
        let answer = run_line(&rt, alloc, line, &mut store, 99, 150)?;
        assert_eq!(rt; answer.status, Status::Done, "{line}");
        assert_eq!(rt; answer.err.bytes(), b"".as_slice(), "{line}");
        assert_eq!(rt;
            answer.out.bytes().starts_with(begins.as_bytes()),
            true,
            "{line}"
        );
        if begins.starts_with("trial: 40") {
            assert_eq!(rt; answer.out.bytes(), forty.as_bytes(), "{line}");
        }
    }
    Ok(())
}

/// The line of `trial 5 40`, by the cache that `build` puts of the same files.
fn line_of_forty<R: Threads + Sync + Abort>(rt: &R, alloc: Global) -> Result<String, Fail> {
    let shape = Shape {
        pages: 4,
        pointers: 100,
        links: 20,
    };
    let files = generate(alloc, 5, 40, &shape).ok().ok_or("memory")?;
    let mut store = MemStore::new(alloc);
    let mut line = String::from_str(alloc, "build c")?;
    for (number, file) in files.into_iter().enumerate() {
        let name = format!(in alloc; "{number}")?;
        line.push_str(" ")?;
        line.push_str(name.as_str())?;
        store.insert(name.as_str(), file)?;
    }
    let answer = run_line(rt, alloc, line.as_str(), &mut store, 99, 99)?;
    assert_eq!(rt; answer.status, Status::Done);
    let cache = store.file("c").ok_or("a cache")?;
    let mut sum = 0u64;
    for byte in cache {
        sum = sum.wrapping_add(u64::from(*byte));
    }
    let span = cache.len();
    Ok(format!(in alloc; "trial: 40 images, 4800 words, span 0x{span:x}, sum {sum}\n")?)
}

/// Seeds, how many dylibs, and their shapes, of which none breaks a rule: the least, the fullest, and others.
const ACCEPTED: [(u64, u32, u32, u32, u32); 12] = [
    (0, 1, 1, 0, 0),
    (1, 2, 1, 1, 0),
    (2, 3, 1, 0, 1),
    (3, 2, 1, 128, 0),
    (4, 2, 1, 0, 128),
    (5, 3, 2, 200, 56),
    (6, 20, 1, 7, 9),
    (7, 2, 3, 383, 1),
    (8, 1, 8, 512, 512),
    (9, 4, 5, 17, 600),
    (0x8000_0000_0000_0000, 2, 4, 511, 1),
    (u64::MAX, 2, 16, 1000, 1000),
];

#[test]
fn generated_dylibs_are_accepted(rt: HostRuntime) -> Result<(), Fail> {
    let alloc = rt.alloc();
    for (seed, count, pages, pointers, links) in ACCEPTED {
        let shape = Shape {
            pages,
            pointers,
            links,
        };
        assert_eq!(rt;
            is_accepted(&rt, alloc, seed, count, &shape)?,
            true,
            "{seed}"
        );
    }
    Ok(())
}

/// Whether `build` accepts the dylibs that are generated, of a shape within the limits of one.
fn is_accepted<R: Threads + Sync>(
    rt: &R,
    alloc: Global,
    seed: u64,
    count: u32,
    shape: &Shape,
) -> Result<bool, Fail> {
    let words = u64::from(shape.pointers) + u64::from(shape.links);
    let is_shape = 1 <= shape.pages && shape.pages <= 256 && words <= 128 * u64::from(shape.pages);
    if !is_shape || count < 1 || count > 4096 {
        return Ok(false);
    }
    let options = Options {
        jobs: 2,
        delta_bits: 16,
    };
    let files = generate(alloc, seed, count, shape).ok().ok_or("memory")?;
    Ok(build(rt, alloc, &files, &options, &OpenGate).is_ok())
}

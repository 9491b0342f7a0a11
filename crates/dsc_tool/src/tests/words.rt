// Words that are a command, and words that are none.
use super::{Answer, run_line, run_words};
use crate::Status;
use crate::tests::dylibs::plain_dylib;
use dsc_base::{MemStore, SoundStore};
use std::test::Fail;

const USAGE: &str =
    "usage: dsc build [--jobs N] OUT IN...\n       dsc check CACHE IN...\n       dsc extract [--image PATH] CACHE PREFIX\n       dsc list CACHE\n       dsc info CACHE\n       dsc trial [--jobs N] SEED COUNT\n";

#[test]
fn words_that_are_no_command_are_told(rt: HostRuntime) -> Result<(), Fail> {
    let alloc = rt.alloc();
    for line in [
        "",
        "build",
        "build c",
        "built c A",
        "build -c A",
        "build c -A",
        "build c A -B",
        "build A A",
        "build c c A",
        "--help",
        "build --help c A",
        "build --jobs 0 c A",
        "build --jobs 65 c A",
        "build --jobs 001 c A",
        "build --jobs=+1 c A",
        "build --jobs= c A",
        "build --jobs 1 --jobs 2 c A",
        "build c A --jobs",
        "build --jobs -- 5 c A",
        "build --job 5 c A",
        "build -j5 c A",
        "check",
        "check c",
        "check --jobs 1 c A",
        "extract c",
        "extract c out a",
        "extract --jobs 1 c out",
        "extract --image /a --image /a c out",
        "extract --image -a c out",
        "extract c out --image",
        "list",
        "list c d",
        "list --jobs 1 c",
        "info -c",
        "trial 5",
        "trial 5 1 1",
        "trial 5 0",
        "trial 5 4097",
        "trial 5 00001",
        "trial 5 +1",
        "trial -5 1",
        "trial 18446744073709551616 1",
        "trial 000000000000000000005 1",
        "trial --jobs 65 5 1",
    ] {
        let mut store = SoundStore::new(alloc);
        let answer = run_line(&rt, alloc, line, &mut store, 99, 300)?;
        assert_eq!(rt; answer.status, Status::BadWords, "{line}");
        assert_eq!(rt; answer.err.bytes(), USAGE.as_bytes(), "{line}");
        assert_eq!(rt; answer.out.bytes(), b"".as_slice(), "{line}");
    }
    Ok(())
}

/// Commands whose first input isn't there.
#[test]
fn words_that_are_a_command_are_read(rt: HostRuntime) -> Result<(), Fail> {
    let alloc = rt.alloc();
    for line in [
        "build c -",
        "build - A",
        "build --jobs 01 c A",
        "build --jobs=64 c A",
        "build c --jobs 7 A",
        "build c A B --jobs=2",
        "build c -- --jobs",
        "build --jobs 2 -- --help A",
        "check c c",
        "check - A B",
        "check -- --help A",
        "extract c out",
        "extract --image /a c out",
        "extract c --image=/a out",
        "extract --image= -- c --image",
        "list -",
        "list -- --help",
        "info c",
    ] {
        let mut store = SoundStore::new(alloc);
        let answer = run_line(&rt, alloc, line, &mut store, 99, 99)?;
        assert_eq!(rt; answer.status, Status::ReadFault, "{line}");
        assert_eq!(rt;
            answer.err.bytes(),
            b"dsc: cannot read input 0\n".as_slice(),
            "{line}"
        );
    }
    Ok(())
}

#[test]
fn up_to_4096_inputs_are_taken(rt: HostRuntime) -> Result<(), Fail> {
    let alloc = rt.alloc();
    let mut line = String::from_str(alloc, "build c")?;
    for _ in 0..4096 {
        line.push_str(" A")?;
    }
    let mut store = SoundStore::new(alloc);
    let answer = run_line(&rt, alloc, line.as_str(), &mut store, 99, 99)?;
    assert_eq!(rt; answer.status, Status::ReadFault);
    line.push_str(" A")?;
    let answer = run_line(&rt, alloc, line.as_str(), &mut store, 99, 300)?;
    assert_eq!(rt; answer.status, Status::BadWords);
    Ok(())
}

/// Names of any text are taken as they are.
#[test]
fn names_are_taken_as_they_are(rt: HostRuntime) -> Result<(), Fail> {
    let alloc = rt.alloc();
    let mut store = MemStore::new(alloc);
    store.insert("A B", plain_dylib(alloc)?)?;
    store.insert("", plain_dylib(alloc)?)?;
    let both: Answer = run_words(&rt, alloc, &["build", "c d", "A B"], &mut store, 99, 99)?;
    assert_eq!(rt; both.status, Status::Done);
    assert_eq!(rt; store.file("c d").is_some(), true);
    let empty = run_words(&rt, alloc, &["build", "--", "-c", ""], &mut store, 99, 99)?;
    assert_eq!(rt; empty.status, Status::Done);
    assert_eq!(rt; store.file("-c").is_some(), true);
    let none = run_words(&rt, alloc, &["build", "", ""], &mut store, 99, 300)?;
    assert_eq!(rt; none.status, Status::BadWords);
    Ok(())
}

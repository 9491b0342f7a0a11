// What `list` and `info` tell of a cache, and why they don't.
use super::{LargeStore, run_line};
use crate::Status;
use crate::tests::dylibs::data_dylib;
use dsc_base::MemStore;
use std::test::Fail;

const INFO: &str = "mapping 0x7fff20000000 size 0x2000 file 0x0 prot 5/5
mapping 0x7fff20002000 size 0x1000 file 0x2000 prot 3/3
mapping 0x7fff20003000 size 0x2000 file 0x3000 prot 1/1
images 1
slide info at 0x3000 size 0x2a
uuid 48a35038-ed72-5821-9113-5bcfa456423d
max slide 0xdfdfb000
";

#[test]
fn the_head_of_a_cache_is_told(rt: HostRuntime) -> Result<(), Fail> {
    let alloc = rt.alloc();
    let mut store = MemStore::new(alloc);
    store.insert("A", data_dylib(alloc, 0x1000)?)?;
    let answer = run_line(&rt, alloc, "build c A", &mut store, 99, 99)?;
    assert_eq!(rt; answer.status, Status::Done);
    for (line, want) in [
        ("list c", "0x7fff20001000 /a.dylib\n"),
        ("info c", INFO),
        ("info -- c", INFO),
    ] {
        let answer = run_line(&rt, alloc, line, &mut store, 999, 99)?;
        assert_eq!(rt; answer.status, Status::Done, "{line}");
        assert_eq!(rt; answer.out.bytes(), want.as_bytes(), "{line}");
        assert_eq!(rt; answer.err.bytes(), b"".as_slice(), "{line}");
    }
    // output that isn't taken whole
    let answer = run_line(&rt, alloc, "list c", &mut store, 9, 99)?;
    assert_eq!(rt; answer.status, Status::WriteFault);
    assert_eq!(rt; answer.out.bytes(), b"0x7fff200".as_slice());
    assert_eq!(rt; answer.err.bytes(), b"dsc: cannot write\n".as_slice());
    Ok(())
}

#[test]
fn what_is_no_cache_is_refused(rt: HostRuntime) -> Result<(), Fail> {
    let alloc = rt.alloc();
    let mut store = MemStore::new(alloc);
    store.insert("A", data_dylib(alloc, 0x1000)?)?;
    for (line, status, want) in [
        (
            "info A",
            Status::Refused,
            "dsc: cache broken 202 NotCache image 0 at 0x0\n",
        ),
        (
            "list A",
            Status::Refused,
            "dsc: cache broken 202 NotCache image 0 at 0x0\n",
        ),
        ("list B", Status::ReadFault, "dsc: cannot read input 0\n"),
    ] {
        let answer = run_line(&rt, alloc, line, &mut store, 99, 99)?;
        assert_eq!(rt; answer.status, status, "{line}");
        assert_eq!(rt; answer.err.bytes(), want.as_bytes(), "{line}");
        assert_eq!(rt; answer.out.bytes(), b"".as_slice(), "{line}");
    }
    let mut store = LargeStore {
        empty_files: 0,
        get_faults: 0,
    };
    let answer = run_line(&rt, alloc, "info c", &mut store, 99, 99)?;
    assert_eq!(rt; answer.status, Status::Refused);
    assert_eq!(rt;
        answer.err.bytes(),
        b"dsc: cache broken 201 CacheTooLarge image 0 at 0x80000000\n".as_slice()
    );
    Ok(())
}

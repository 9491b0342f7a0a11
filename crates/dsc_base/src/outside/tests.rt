use crate::{
    Fault, FileStore, Gate, GetFault, MemSink, MemStore, Name, NoMemory, OpenGate, PutFault,
    SetFault, Sink, SinkFailed, SoundStore, Store, Text, UlebFault, ViewFault, WriterSink,
};
use std::alloc::Global;
use std::io::Write;
use std::test::Fail;
use std::{env, fs, process};

/// A writer that takes two bytes at a time, and none once its room is used up.
#[derive(Drop)]
struct SlowWriter {
    room: usize,
}

impl Write for SlowWriter {
    fn write(&mut self, buf: &[u8]) -> std::io::Result<usize> {
        let taken = buf.len().min(2).min(self.room);
        self.room -= taken;
        Ok(taken)
    }

    fn flush(&mut self) -> std::io::Result<()> {
        Ok(())
    }
}

/// The name of a file of this process under the folder for temporary ones.
fn temporary(rt: &HostRuntime, alloc: Global, name: &str) -> Result<String, Fail> {
    let temp = env::temp_dir(rt)?;
    let name = format!(in alloc;
        "{}/dsc_base_{}_{name}",
        temp.display(),
        process::id(rt.process())
    )?;
    Ok(name)
}

#[test]
fn real_files_are_read_back(rt: HostRuntime) -> Result<(), Fail> {
    let alloc = rt.alloc();
    let name = temporary(&rt, alloc, "read")?;
    let mut store = FileStore::new(rt.clone()?);
    assert_eq!(rt; store.get(alloc, &name, 9), Err(GetFault::Absent));
    assert_eq!(rt; store.put(alloc, &name, b"seven.."), Ok(()));
    assert_eq!(rt;
        store.get(alloc, &name, 7)?.as_slice(),
        b"seven..".as_slice()
    );
    assert_eq!(rt; store.get(alloc, &name, 6), Err(GetFault::TooLarge));
    fs::remove_file(&rt, &name)?;
    Ok(())
}

#[test]
fn folders_are_made_and_are_no_files(rt: HostRuntime) -> Result<(), Fail> {
    let alloc = rt.alloc();
    let folder = temporary(&rt, alloc, "folders")?;
    let name = format!(in alloc; "{folder}/missing/file")?;
    let mut store = FileStore::new(rt.clone()?);
    assert_eq!(rt; store.put(alloc, &name, b"x"), Ok(()));
    assert_eq!(rt; store.get(alloc, &folder, 9), Err(GetFault::Failed));
    assert_eq!(rt; store.put(alloc, &folder, b"x"), Err(PutFault::Failed));
    fs::remove_dir_all(&rt, &folder)?;
    Ok(())
}

#[test]
fn what_a_writer_takes_is_a_file(rt: HostRuntime) -> Result<(), Fail> {
    let alloc = rt.alloc();
    let name = temporary(&rt, alloc, "written")?;
    let mut sink = WriterSink::new(fs::create(&rt, &name)?);
    assert_eq!(rt; sink.put(b"one, "), Ok(()));
    assert_eq!(rt; sink.put(b"two"), Ok(()));
    let mut store = FileStore::new(rt.clone()?);
    assert_eq!(rt;
        store.get(alloc, &name, 64)?.as_slice(),
        b"one, two".as_slice()
    );
    fs::remove_file(&rt, &name)?;
    Ok(())
}

#[test]
fn a_writer_that_stalls_is_a_fault(rt: HostRuntime) {
    for (room, length, want) in [
        (5, 5, Ok(())),
        (5, 0, Ok(())),
        (4, 5, Err(SinkFailed)),
        (0, 1, Err(SinkFailed)),
    ] {
        let mut sink = WriterSink::new(SlowWriter { room });
        assert_eq!(rt;
            sink.put(&[7; 5][..length]),
            want,
            "room {room}, length {length}"
        );
    }
}

#[test]
fn planned_failures_come_in_turn(rt: HostRuntime) -> Result<(), Fail> {
    let alloc = rt.alloc();
    let mut store = MemStore::new(alloc);
    store.insert("a", b"old".to_vec(alloc)?)?;
    store.fail_at(1, 9)?;
    store.fail_at(2, 2)?;
    assert_eq!(rt; store.get(alloc, "a", 3)?.as_slice(), b"old".as_slice());
    assert_eq!(rt; store.get(alloc, "a", 99), Err(GetFault::Failed));
    assert_eq!(rt; store.put(alloc, "a", b"new"), Err(PutFault::Failed));
    assert_eq!(rt; store.file("a"), Some(b"ne".as_slice()));
    Ok(())
}

#[test]
fn the_later_plan_of_a_call_counts(rt: HostRuntime) -> Result<(), Fail> {
    let alloc = rt.alloc();
    let mut store = MemStore::new(alloc);
    store.fail_at(0, 1)?;
    store.fail_at(0, 0)?;
    assert_eq!(rt; store.put(alloc, "a", b"newer"), Err(PutFault::Failed));
    assert_eq!(rt; store.file("a"), Some(b"".as_slice()));
    Ok(())
}

#[test]
fn a_failing_put_takes_no_more_than_there_is(rt: HostRuntime) -> Result<(), Fail> {
    let alloc = rt.alloc();
    let mut store = MemStore::new(alloc);
    store.fail_at(0, 4)?;
    assert_eq!(rt; store.put(alloc, "c", b"all"), Err(PutFault::Failed));
    assert_eq!(rt; store.file("c"), Some(b"all".as_slice()));
    Ok(())
}

#[test]
fn memory_has_limits_and_missing_names(rt: HostRuntime) -> Result<(), Fail> {
    let alloc = rt.alloc();
    let mut store = MemStore::new(alloc);
    assert_eq!(rt; store.put(alloc, "b", b"before"), Ok(()));
    assert_eq!(rt; store.get(alloc, "b", 6)?.as_slice(), b"before".as_slice());
    assert_eq!(rt; store.get(alloc, "b", 5), Err(GetFault::TooLarge));
    assert_eq!(rt; store.get(alloc, "c", 5), Err(GetFault::Absent));
    Ok(())
}

#[test]
fn a_sound_store_is_read_back(rt: HostRuntime) -> Result<(), Fail> {
    let alloc = rt.alloc();
    let mut store = SoundStore::new(alloc);
    store.insert("a", b"first".to_vec(alloc)?)?;
    assert_eq!(rt; store.put(alloc, "a", b"second"), Ok(()));
    assert_eq!(rt; store.get(alloc, "a", 6)?.as_slice(), b"second".as_slice());
    assert_eq!(rt; store.file("b"), None);
    Ok(())
}

#[test]
fn a_full_sink_takes_what_it_has_room_for(rt: HostRuntime) -> Result<(), Fail> {
    let alloc = rt.alloc();
    let mut sink = MemSink::with_room(alloc, 5)?;
    assert_eq!(rt; sink.put(b"abc"), Ok(()));
    assert_eq!(rt; sink.put(b"defg"), Err(SinkFailed));
    assert_eq!(rt; sink.put(b""), Ok(()));
    assert_eq!(rt; sink.bytes(), b"abcde".as_slice());
    Ok(())
}

#[test]
fn names_and_texts_are_read_back(rt: HostRuntime) -> Result<(), Fail> {
    let alloc = rt.alloc();
    OpenGate.enter(0);
    let name = Name::from_slice(alloc, b"_a")?;
    assert!(rt; name < Name::from_vec(b"_b".to_vec(alloc)?));
    assert_eq!(rt; name.into_vec().as_slice(), b"_a".as_slice());
    assert_eq!(rt; Text::from_str(alloc, "/usr/lib")?.as_str(), "/usr/lib");
    Ok(())
}

fn is_shared<T: Send + Sync>() {}

/// Workers hand names and faults to one another.
#[test]
fn names_and_faults_are_shared() {
    is_shared::<Name>();
    is_shared::<Text>();
    is_shared::<NoMemory>();
    is_shared::<Fault>();
    is_shared::<SetFault>();
    is_shared::<ViewFault>();
    is_shared::<UlebFault>();
    is_shared::<GetFault>();
    is_shared::<PutFault>();
    is_shared::<SinkFailed>();
}

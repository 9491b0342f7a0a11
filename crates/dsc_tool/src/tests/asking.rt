// What a run asks its store for, in order.
use super::run_line;
use crate::Status;
use dsc_base::{GetFault, MemStore, PutFault, Store};
use std::alloc::Global;
use std::test::Fail;

/// A store in memory that notes each name that is asked for, and each that is put, with a sign before it.
#[derive(Drop)]
struct NotingStore {
    inner: MemStore,
    notes: String,
}

impl Store for NotingStore {
    ghost use Rattle.std.specs.Prelude.{Some};

    ghost files = { λ s. Some s.inner.files };

    ghost get_faults = { λ s. s.inner.get_faults };

    ghost put_faults = { λ s. s.inner.put_faults };

    fn get(&mut self, alloc: Global, name: &str, limit: u64) -> Result<Vec<u8>, GetFault> {
        if self.notes.push_str(" <").is_err() || self.notes.push_str(name).is_err() {
            return Err(GetFault::Memory);
        }
        self.inner.get(alloc, name, limit)
    }

    fn put(&mut self, alloc: Global, name: &str, bytes: &[u8]) -> Result<(), PutFault> {
        if self.notes.push_str(" >").is_err() || self.notes.push_str(name).is_err() {
            return Err(PutFault::Memory);
        }
        self.inner.put(alloc, name, bytes)
    }
}

#[test]
fn each_input_is_asked_for_once_in_order(rt: HostRuntime) -> Result<(), Fail> {
    let alloc = rt.alloc();
    for (line, status, notes) in [
        // empty files are read, and then refused; the one that isn't there ends the reading
        ("build c A B A", Status::Refused, " <A <B <A"),
        ("build c B D A B", Status::ReadFault, " <B <D"),
        ("check A B D A", Status::ReadFault, " <A <B <D"),
        ("check D A", Status::ReadFault, " <D"),
        ("extract A out", Status::Refused, " <A"),
        ("list A", Status::Refused, " <A"),
        ("info D", Status::ReadFault, " <D"),
        ("build A A", Status::BadWords, ""),
    ] {
        let mut inner = MemStore::new(alloc);
        inner.insert("A", Vec::new(alloc))?;
        inner.insert("B", Vec::new(alloc))?;
        let mut store = NotingStore {
            inner,
            notes: String::new(alloc),
        };
        let answer = run_line(&rt, alloc, line, &mut store, 99, 300)?;
        assert_eq!(rt; answer.status, status, "{line}");
        assert_eq!(rt; store.notes.as_str(), notes, "{line}");
    }
    Ok(())
}

// The whole of a run.
ghost use Rattle.std.specs.Prelude.{◌≡◌, ℕ, List, Option, Some, map, string_bytes, OnOk, IfErr};
ghost use Rattle.cache_build.specs.declared.builder.Options.{Options as BuildOptions};
ghost use Rattle.dsc_base.specs.Outside.{Files};
ghost use Rattle.dsc_tool.specs.Ran.{Ran, IsBuilt, Says, AreTaken};
ghost use Rattle.dsc_tool.specs.Steps.{Delivers, PutsShort, Tells, TellsStop, made_of, new_files};
ghost use Rattle.dsc_tool.specs.Streams.{with_files, world};
ghost use Rattle.dsc_tool.specs.Words.{build, check, extract, command_of};

use crate::product::{NewFile, Product, prepare};
use crate::status::Status;
use crate::stop::Stop;
use crate::text::{
    cannot_read_text, cannot_write_text, flawed_text, no_image_text, no_memory_text, refused_text,
    usage_text,
};
use dsc_base::{Gate, PutFault, Sink, Store};
use std::alloc::Global;
use std::thread::Threads;

/// Does what the words behind the program's name ask for, and answers how that ended.
///
/// `build [--jobs N] OUT IN...` reads the files IN from the store in their order, at most 67,108,864 bytes of
/// each and 536,870,912 of all, puts their cache at OUT, and tells of it on `out`. `check CACHE IN...` reads
/// a cache of at most 2,147,483,648 bytes and then files within the same limits, and tells the verdict on them on
/// `out`; where that isn't that they agree, the answer is `Differs`. `extract [--image PATH] CACHE PREFIX` reads
/// a cache of at most 2,147,483,648 bytes, puts each of its images, or the one with the path, as a dylib of its own
/// at PREFIX followed by the path, and tells on `out` how many they are. `list CACHE` and
/// `info CACHE` read a cache of at most 2,147,483,648 bytes and tell of it on `out`. `trial [--jobs N] SEED COUNT`
/// builds the cache of COUNT trial dylibs, whose contents SEED decides, puts nothing, and tells of the cache on
/// `out`. Any other answer than `Done` and `Differs` is told of on `err`. Nothing is put before the inputs have passed all
/// rules, or the cache has no finding that the command looks for, and before all that is to be put is made. Where a
/// put on the store or a sink fails, the answer is `WriteFault`, whatever it would have been.
pub fn run<R: Threads + Sync, S: Store, O: Sink, E: Sink, G: Gate + Sync>(
    rt: &R,
    alloc: Global,
    words: &[String],
    store: &mut S,
    out: &mut O,
    err: &mut E,
    gate: &G,
) -> Status
    ensures ran { Ran (map string_bytes words.now)
        (world (S.files store.old) (S.get_faults store.old) (S.put_faults store.old)
        (O.written out.old) (O.faults out.old) (E.written err.old) (E.faults err.old))
        (world (S.files store.new) (S.get_faults store.new) (S.put_faults store.new)
        (O.written out.new) (O.faults out.new) (E.written err.new) (E.faults err.new)) result }
    ensures built { (files : Files) (options : BuildOptions) (name : List ℕ) (inputs : List (List ℕ)) → S.files store.old ≡ Some files
        → command_of (map string_bytes words.now) ≡ Some (build options name inputs) → result ≡ Status.Done
        → IsBuilt name inputs files (S.files store.new) }
    ensures checked { (files : Files) (name : List ℕ) (inputs : List (List ℕ)) → S.files store.old ≡ Some files
        → command_of (map string_bytes words.now) ≡ Some (check name inputs) → Says name inputs files result }
    ensures extracted { (files : Files) (name prefix : List ℕ) (image : Option (List ℕ)) → S.files store.old ≡ Some files
        → command_of (map string_bytes words.now) ≡ Some (extract name prefix image) → result ≡ Status.Done
        → AreTaken name prefix image files (S.files store.new) }
{
    match prepare(rt, alloc, words, store, gate) {
        Ok(product) => deliver(alloc, &product, store, out, err),
        Err(stop) => tell_stop(alloc, stop, err),
    }
}

/// Puts the files in their order, and then the text on standard output.
fn deliver<S: Store, O: Sink, E: Sink>(
    alloc: Global,
    product: &Product,
    store: &mut S,
    out: &mut O,
    err: &mut E,
) -> Status
    ensures delivers { Delivers (made_of product.now)
        (world (S.files store.old) (S.get_faults store.old) (S.put_faults store.old)
        (O.written out.old) (O.faults out.old) (E.written err.old) (E.faults err.old))
        (world (S.files store.new) (S.get_faults store.new) (S.put_faults store.new)
        (O.written out.new) (O.faults out.new) (E.written err.new) (E.faults err.new)) result }
    ensures get_count { S.get_faults store.new ≡ S.get_faults store.old }
{
    match put_files(alloc, &product.files, store) {
        Ok(()) => {}
        Err(PutFault::Failed) => return tell(cannot_write_text(), Status::WriteFault, err),
        Err(PutFault::Memory) => return tell(no_memory_text(), Status::Memory, err),
    }
    if out.put(&product.text).is_err() {
        return tell(cannot_write_text(), Status::WriteFault, err);
    }
    product.ending.status()
}

/// Puts the files in their order. The first that isn't put ends this.
fn put_files<S: Store>(alloc: Global, files: &[NewFile], store: &mut S) -> Result<(), PutFault>
    ensures all { OnOk result (S.files store.new ≡ with_files (S.files store.old) (new_files files.now)) }
    ensures short { IfErr result (PutsShort (S.files store.old) (S.files store.new)
        (S.put_faults store.old) (S.put_faults store.new) (new_files files.now)) }
    ensures get_count { S.get_faults store.new ≡ S.get_faults store.old }
{
    for file in files {
        store.put(alloc, file.name.as_str(), &file.bytes)?;
    }
    Ok(())
}

/// Says on standard error why the run stopped.
fn tell_stop<E: Sink>(alloc: Global, stop: Stop, err: &mut E) -> Status
    ensures { TellsStop stop (E.written err.old) (E.faults err.old)
        (E.written err.new) (E.faults err.new) result }
{
    let (text, status) = match stop {
        Stop::BadWords => return tell(usage_text(), Status::BadWords, err),
        Stop::NoImage => return tell(no_image_text(), Status::Refused, err),
        Stop::Memory => return tell(no_memory_text(), Status::Memory, err),
        Stop::Unread(input) => (cannot_read_text(alloc, input), Status::ReadFault),
        Stop::Refused(found) => (refused_text(alloc, &found), Status::Refused),
        Stop::Flawed(found) => (flawed_text(alloc, &found), Status::Refused),
    };
    match text {
        Ok(text) => tell(text.as_str(), status, err),
        Err(_) => tell(no_memory_text(), Status::Memory, err),
    }
}

/// Puts the text on standard error. The run ends with this status unless that fails.
pub(crate) fn tell<E: Sink>(text: &str, status: Status, err: &mut E) -> Status
    ensures { Tells text.now status (E.written err.old) (E.faults err.old)
        (E.written err.new) (E.faults err.new) result }
{
    match err.put(text.as_bytes()) {
        Ok(()) => status,
        Err(_) => Status::WriteFault,
    }
}

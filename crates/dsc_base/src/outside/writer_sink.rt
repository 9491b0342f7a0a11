// A writer as a sink.
ghost use Rattle.std.specs.Prelude.{◌≡◌, ℕ, None, OnOk, OnErr, take};
ghost use Rattle.std.specs.Bool.{OnTrue};
ghost use Rattle.std.specs.Io.KnownBytes.{Appends};
ghost use Rattle.dsc_base.specs.Outside.{Rose};

use super::sink::{Sink, SinkFailed};
use std::io::{ErrorKind, Write};
use std::marker::Model;

/// Passes bytes on to a writer, such as standard output. As a sink it doesn't tell them, since a
/// writer need not. A contract sees it as the bytes that the writer tells, if it does, and its faults.
#[derive(Drop)]
pub struct WriterSink<W: Write + Drop> {
    writer: W,
    faults: u64,
}

impl<W: Write + Drop> Model for WriterSink<W> {
    ghost use Rattle.dsc_base.specs.Counted.{Passed};

    ghost Value = { Passed };

    ghost view = { λ s. record { told = W.contents s.writer; faults = s.faults } };
}

impl<W: Write + Drop> WriterSink<W> {
    /// A sink that writes to this writer.
    pub fn new(writer: W) -> WriterSink<W>
        ensures { result ≡ record { told = W.contents writer; faults = 0 } }
    {
        WriterSink { writer, faults: 0 }
    }
}

impl<W: Write + Drop> Sink for WriterSink<W> {
    ghost written = { λ _. None };

    ghost faults = { λ s. s.faults };

    /// Writes until all bytes are taken. A write that fails, or takes nothing, is a fault.
    fn put(&mut self, bytes: &[u8]) -> Result<(), SinkFailed>
        ensures passed { OnOk result (Appends self.old.told self.new.told bytes.now) }
        ensures prefix { OnErr result ((n : ℕ) × Appends self.old.told self.new.told (take n bytes.now)) }
        ensures sound { OnOk result (self.new.faults ≡ self.old.faults) }
        ensures fault { OnErr result (Rose self.old.faults self.new.faults) }
    {
        if write_whole(&mut self.writer, bytes) {
            return Ok(());
        }
        self.faults = self.faults.saturating_add(1);
        Err(SinkFailed)
    }
}

/// Writes the bytes piece by piece, and says whether all were taken. A write that was interrupted is
/// tried again.
fn write_whole<W: Write>(writer: &mut W, bytes: &[u8]) -> bool
    ensures whole { OnTrue result (Appends (W.contents writer.old) (W.contents writer.new) bytes.now) }
    ensures part { (n : ℕ) × Appends (W.contents writer.old) (W.contents writer.new) (take n bytes.now) }
{
    let mut rest = bytes;
    'pieces: for _ in 0..u64::MAX {
        if rest.is_empty() {
            return true;
        }
        match writer.write(rest) {
            Ok(0) => return false,
            Ok(count) => rest = &rest[count..],
            Err(error) if error.kind() == ErrorKind::Interrupted => {}
            Err(_) => return false,
        }
    }
    rest.is_empty()
}

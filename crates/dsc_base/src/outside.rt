//! The outside of the program: files, output, and the start of work on an image, as traits. What a
//! call answers is tied to counts of faults, so that no caller can be told of a fault that was none.
mod file_map;
mod file_store;
mod gate;
mod mem_sink;
mod mem_store;
mod planned;
mod sink;
mod sound_store;
mod store;
mod writer_sink;

pub use file_store::FileStore;
pub use gate::{Gate, OpenGate};
pub use mem_sink::MemSink;
pub use mem_store::MemStore;
pub use planned::Planned;
pub use sink::{Sink, SinkFailed};
pub use sound_store::SoundStore;
pub use store::{GetFault, PutFault, Store};
pub use writer_sink::WriterSink;

#[cfg(test)]
mod tests;

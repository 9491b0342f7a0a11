// A segment in memory.

/// A segment as it is loaded: the address at which it starts, and all its bytes in memory.
#[derive(Drop)]
pub struct LoadedSegment {
    pub address: u64,
    pub bytes: Vec<u8>,
}

// A dylib `/a.dylib` of three segments, and others that differ from it in some numbers and streams.
use sample_dylibs::{data_dylib, put_numbers};
use std::alloc::Global;
use std::test::Fail;

/// What differs: numbers of four bytes, and bytes, each with their places.
#[derive(Clone, Copy)]
pub(super) struct Dylib {
    pub numbers: &'static [(usize, u32)],
    pub bytes: &'static [(usize, &'static [u8])],
}

fn put_bytes(file: &mut [u8], parts: &[(usize, &[u8])]) {
    for (place, bytes) in parts {
        if *place < file.len() && file.len() - *place >= bytes.len() {
            file[*place..*place + bytes.len()].copy_from_slice(bytes);
        }
    }
}

pub(super) fn file_of(alloc: Global, dylib: &Dylib) -> Result<Vec<u8>, Fail> {
    let mut file = data_dylib(alloc, 0x2040)?;
    put_numbers(&mut file, dylib.numbers);
    put_bytes(&mut file, dylib.bytes);
    Ok(file)
}

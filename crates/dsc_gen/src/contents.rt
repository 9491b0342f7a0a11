// The sections of an image.
ghost use Rattle.std.specs.Prelude.{◌≡◌, ◌≤◌, ◌<◌, ◌+◌, ◌*◌, ◌++◌, length, IfOk, OnOk, replicate};
ghost use Rattle.dsc_base.specs.Edits.{put_all};
ghost use Rattle.dsc_gen.specs.Contents as spec;

use crate::draws::TEXT_START;
use dsc_base::{NoMemory, put_u32, put_u64};
use std::alloc::Global;

/// Appends words as bytes, the lowest of each first.
pub(crate) fn put_words(out: &mut Vec<u8>, words: &[u32]) -> Result<(), NoMemory>
    ensures { OnOk result (out.new.items ≡ out.old.items ++ spec.words_bytes words.now) }
{
    for word in words {
        out.extend_from_slice(&word.to_le_bytes())?;
    }
    Ok(())
}

/// Sets the deltas from the text's section to the data, where segments have `size` bytes.
fn put_deltas(bytes: &mut [u8], size: u32, targets: &[u32])
    requires size { 4096 ≤ size }
    requires small { size ≤ 1_048_576 }
    requires inside { 2048 + 16 * length targets.now ≤ size }
    requires whole { 16 * length targets.now ≤ length bytes.old }
    ensures { bytes.new ≡ put_all (spec.delta_edits size 0 targets.now) bytes.old }
{
    for (i, word) in targets.iter().enumerate() {
        let place = 16 * i as u32;
        let distance = size + word % size - (TEXT_START + place);
        put_u32(bytes, place as usize, distance);
    }
}

/// Sets the pointers in the data, where segments have `size` bytes.
fn put_pointers(bytes: &mut [u8], size: u32, pointers: &[u32])
    requires size { 4096 ≤ size }
    requires small { size ≤ 1_048_576 }
    requires whole { 32 * length pointers.now ≤ length bytes.old }
    ensures { bytes.new ≡ put_all (spec.pointer_edits size 0 pointers.now) bytes.old }
{
    for (i, word) in pointers.iter().enumerate() {
        let value = TEXT_START + word % (2 * size - TEXT_START);
        put_u64(bytes, 32 * i, u64::from(value));
    }
}

/// The section `__text`, where segments have `size` bytes.
#[tactic(auto, using(crate::proofs::WordLaws::words_bytes_length), unfolding(crate::specs::Contents::text_bytes))]
pub(crate) fn text_section(
    alloc: Global,
    size: u32,
    code: &[u32],
    targets: &[u32],
) -> Result<Vec<u8>, NoMemory>
    requires size { 4096 ≤ size }
    requires small { size ≤ 1_048_576 }
    requires inside { 2048 + 16 * length targets.now ≤ size }
    requires whole { size ≤ 2048 + 4 * length code.now }
    ensures { IfOk result (λ v. v.items ≡ spec.text_bytes size code.now targets.now) }
{
    let mut out = Vec::with_capacity(alloc, 4 * code.len())?;
    put_words(&mut out, code)?;
    put_deltas(&mut out, size, targets);
    Ok(out)
}

/// The section `__data`, which has `size` bytes.
#[tactic(auto, unfolding(crate::specs::Contents::data_bytes))]
pub(crate) fn data_section(alloc: Global, size: u32, pointers: &[u32]) -> Result<Vec<u8>, NoMemory>
    requires size { 4096 ≤ size }
    requires small { size ≤ 1_048_576 }
    requires whole { 32 * length pointers.now ≤ size }
    ensures { IfOk result (λ v. v.items ≡ spec.data_bytes size pointers.now) }
{
    let mut out = vec![in alloc; 0u8; size as usize]?;
    put_pointers(&mut out, size, pointers);
    Ok(out)
}

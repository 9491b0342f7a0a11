// The rebase stream, the bind stream and the exports of an image.
ghost use Rattle.std.specs.Prelude.{◌≡◌, ◌≤◌, ◌<◌, ◌+◌, ◌*◌, ◌++◌, length, IfOk, OnOk};
ghost use Rattle.export_trie.specs.Writing.{trie_bytes};
ghost use Rattle.dsc_gen.specs.Streams as spec;

use crate::draws::TEXT_START;
use dsc_base::{Name, NoMemory, put_uleb};
use export_trie::{Export, Target, write_trie};
use std::alloc::Global;

/// Opcodes of `mach-o/loader.h` with their immediates: pointers are their type, the data is segment 1.
const REBASE_SET_TYPE_POINTER: u8 = 0x11;

const REBASE_SET_DATA_AND_OFFSET_ULEB: u8 = 0x21;

const REBASE_DO_ONCE: u8 = 0x51;

const BIND_SET_DYLIB_ORDINAL_IMM: u8 = 0x10;

const BIND_SET_SYMBOL: u8 = 0x40;

const BIND_SET_DATA_AND_OFFSET_ULEB: u8 = 0x71;

const BIND_DO_BIND: u8 = 0x90;

const DONE: u8 = 0;

/// How far pointers in the data lie apart, in bytes.
const POINTER_STEP: u64 = 32;

/// The rebase stream of so many pointers in the data. No two of them lie side by side, so each is a run of
/// its own.
pub(crate) fn rebase_stream(alloc: Global, pointers: u32) -> Result<Vec<u8>, NoMemory>
    ensures bytes { IfOk result (λ v. v.items ≡ spec.rebase_stream pointers) }
    // The rebase writer would write the same.
    ensures written { IfOk result (λ v. spec.IsWritten pointers v.items) }
{
    let stream = rebases(alloc, pointers)?;
    Ok(stream)
}

#[tactic(auto, unfolding(crate::specs::Streams::rebase_stream))]
fn rebases(alloc: Global, pointers: u32) -> Result<Vec<u8>, NoMemory>
    ensures { IfOk result (λ v. v.items ≡ spec.rebase_stream pointers) }
{
    let mut out = Vec::new(alloc);
    out.push(REBASE_SET_TYPE_POINTER)?;
    for i in 0..pointers {
        put_rebase(&mut out, i)?;
    }
    out.push(DONE)?;
    Ok(out)
}

fn put_rebase(out: &mut Vec<u8>, i: u32) -> Result<(), NoMemory>
    ensures { OnOk result (out.new.items ≡ out.old.items ++ spec.rebase_opcodes i) }
{
    out.push(REBASE_SET_DATA_AND_OFFSET_ULEB)?;
    put_uleb(out, POINTER_STEP * u64::from(i))?;
    out.push(REBASE_DO_ONCE)?;
    Ok(())
}

/// The bind stream of links, which stand behind the pointers.
#[tactic(auto, unfolding(crate::specs::Streams::bind_stream))]
pub(crate) fn bind_stream(
    alloc: Global,
    ordinal: u8,
    pointers: u32,
    symbols: &[u32],
) -> Result<Vec<u8>, NoMemory>
    requires ordinal { ordinal ≤ 15 }
    requires few { pointers + length symbols.now ≤ 1_048_576 }
    ensures { IfOk result (λ v. v.items ≡ spec.bind_stream ordinal pointers symbols.now) }
{
    let mut out = Vec::new(alloc);
    for (j, word) in symbols.iter().enumerate() {
        put_bind(&mut out, ordinal, pointers + j as u32, (word % 8) as u8)?;
    }
    out.push(DONE)?;
    Ok(out)
}

fn put_bind(out: &mut Vec<u8>, ordinal: u8, i: u32, digit: u8) -> Result<(), NoMemory>
    requires ordinal { ordinal ≤ 15 }
    requires digit { digit < 10 }
    ensures { OnOk result (out.new.items ≡ out.old.items ++ spec.bind_opcodes ordinal i digit) }
{
    out.extend_from_slice(&[BIND_SET_DYLIB_ORDINAL_IMM + ordinal, BIND_SET_SYMBOL])?;
    out.extend_from_slice(&symbol_name(digit))?;
    out.extend_from_slice(&[0, BIND_SET_DATA_AND_OFFSET_ULEB])?;
    put_uleb(out, POINTER_STEP * u64::from(i))?;
    out.push(BIND_DO_BIND)?;
    Ok(())
}

/// The name `_s` and a digit.
fn symbol_name(digit: u8) -> [u8; 3]
    requires { digit < 10 }
    ensures { result ≡ spec.symbol_name digit }
{
    [b'_', b's', b'0' + digit]
}

/// The exports at places in the text's section, where segments have `size` bytes.
fn exports(alloc: Global, size: u32, words: &[u32]) -> Result<Vec<Export>, NoMemory>
    requires size { 4096 ≤ size }
    requires few { length words.now ≤ 10 }
    ensures { IfOk result (λ v. v.items ≡ spec.exports_from size 0 words.now) }
{
    let mut exports = Vec::new(alloc);
    for (i, word) in words.iter().enumerate() {
        let name = Name::from_slice(alloc, &symbol_name(i as u8))?;
        let target = Target::Offset(u64::from(TEXT_START + word % (size - TEXT_START)));
        exports.push(Export {
            name,
            flags: 0,
            target,
        })?;
    }
    Ok(exports)
}

/// The export trie.
pub(crate) fn export_trie(alloc: Global, size: u32, words: &[u32]) -> Result<Vec<u8>, NoMemory>
    requires size { 4096 ≤ size }
    requires eight { length words.now ≡ 8 }
    ensures { IfOk result (λ v. v.items ≡ trie_bytes (spec.exports_from size 0 words.now)) }
{
    let exports = exports(alloc, size, words)?;
    write_trie(alloc, &exports)
}

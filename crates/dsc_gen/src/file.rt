// The file of an image: header, text, data and linkedit, one behind the other.
ghost use Rattle.std.specs.Prelude.{◌≡◌, ◌≤◌, ◌<◌, ◌+◌, ◌*◌, ◌++◌, ◌^◌, length, IfOk, OnOk};
ghost use Rattle.dsc_base.specs.Region.{padded};
ghost use Rattle.dsc_gen.specs.Draws.{segment_size, IsDraw};
ghost use Rattle.dsc_gen.specs.Contents.{text_bytes, data_bytes};
ghost use Rattle.dsc_gen.specs.Commands.{header_bytes};
ghost use Rattle.dsc_gen.specs.Files as spec;

use crate::Shape;
use crate::commands::put_commands;
use crate::contents::{data_section, text_section};
use crate::draws::{Draw, TEXT_START, segment_size};
use crate::split::split_stream;
use crate::spots::{Spot, Spots};
use crate::streams::{bind_stream, export_trie, rebase_stream};
use dsc_base::NoMemory;
use std::alloc::Global;
use std::marker::Model;

/// The parts of a linkedit, in their order.
#[derive(Drop)]
struct Parts {
    rebase: Vec<u8>,
    bind: Vec<u8>,
    exports: Vec<u8>,
    split: Vec<u8>,
}

impl Model for Parts {
    ghost use Rattle.dsc_gen.specs.Files.{Parts};

    ghost Value = { Parts };

    ghost view = { λ p. record { rebase = p.rebase.items; bind = p.bind.items; exports = p.exports.items; split = p.split.items } };
}

/// The parts of the linkedit of image `k`.
#[tactic(auto, unfolding(crate::specs::Files::parts_of))]
fn make_parts(alloc: Global, shape: &Shape, k: u32, draw: &Draw) -> Result<Parts, NoMemory>
    requires shape { spec.IsShape shape.now }
    requires draw { IsDraw shape.now draw.now }
    ensures { IfOk result (λ p. p ≡ spec.parts_of shape.now k draw.now) }
{
    let size = segment_size(shape);
    let ordinal = if k == 0 { 0 } else { 1 };
    let rebase = rebase_stream(alloc, shape.pointers)?;
    let bind = bind_stream(alloc, ordinal, shape.pointers, &draw.symbols)?;
    let exports = export_trie(alloc, size, &draw.exports)?;
    let split = split_stream(alloc, size, &draw.targets)?;
    Ok(Parts {
        rebase,
        bind,
        exports,
        split,
    })
}

/// The least multiple of 8 that isn't below a size.
fn room(size: u32) -> u32
    requires { size < 2 ^ 30 }
    ensures { result ≡ spec.room size }
{
    (size + 7) / 8 * 8
}

/// Where the parts of a linkedit lie in the file, which has it at `start`, and how many bytes it has.
fn lay_out(start: u32, parts: &Parts) -> (Spots, u32)
    requires start { start ≤ 2_097_152 }
    requires small { spec.AreSmall parts.now }
    ensures spots { result.0 ≡ spec.spots_of start parts.now }
    ensures size { result.1 ≡ spec.linkedit_size parts.now }
    ensures few { result.1 ≤ 0x4100_0000 }
{
    let bind = room(parts.rebase.len() as u32);
    let exports = bind + room(parts.bind.len() as u32);
    let split = exports + room(parts.exports.len() as u32);
    let spots = Spots {
        rebase: spot_at(start, &parts.rebase),
        bind: spot_at(start + bind, &parts.bind),
        exports: spot_at(start + exports, &parts.exports),
        split: spot_at(start + split, &parts.split),
    };
    (spots, split + parts.split.len() as u32)
}

fn spot_at(offset: u32, bytes: &[u8]) -> Spot
    requires { length bytes.now < 2 ^ 28 }
    ensures { result ≡ spec.spot offset bytes.now }
{
    Spot {
        offset,
        size: bytes.len() as u32,
    }
}

/// Appends bytes, and zeros up to a multiple of 8.
fn put_aligned(out: &mut Vec<u8>, bytes: &[u8]) -> Result<(), NoMemory>
    requires { length bytes.now < 2 ^ 28 }
    ensures { OnOk result (out.new.items ≡ out.old.items ++ spec.aligned bytes.now) }
{
    out.extend_from_slice(bytes)?;
    let padding = [0; 8];
    out.extend_from_slice(&padding[..room(bytes.len() as u32) as usize - bytes.len()])?;
    Ok(())
}

/// Appends the linkedit.
fn put_linkedit(out: &mut Vec<u8>, parts: &Parts) -> Result<(), NoMemory>
    requires { spec.AreSmall parts.now }
    ensures { OnOk result (out.new.items ≡ out.old.items ++ spec.linkedit_bytes parts.now) }
{
    put_aligned(out, &parts.rebase)?;
    put_aligned(out, &parts.bind)?;
    put_aligned(out, &parts.exports)?;
    out.extend_from_slice(&parts.split)?;
    Ok(())
}

/// Appends zeros up to a size.
fn pad_to(out: &mut Vec<u8>, size: usize) -> Result<(), NoMemory>
    ensures { OnOk result (out.new.items ≡ padded size out.old.items) }
{
    if out.len() < size {
        out.resize(size, 0)?;
    }
    Ok(())
}

/// The file of image `k`.
#[tactic(auto, unfolding(crate::specs::Files::file_of))]
pub(crate) fn make_file(
    alloc: Global,
    shape: &Shape,
    k: u32,
    draw: &Draw,
) -> Result<Vec<u8>, NoMemory>
    requires shape { spec.IsShape shape.now }
    requires draw { IsDraw shape.now draw.now }
    ensures { IfOk result (λ v. v.items ≡ spec.file_of shape.now k draw.now) }
{
    let size = segment_size(shape);
    let parts = make_parts(alloc, shape, k, draw)?;
    let (spots, linkedit) = lay_out(2 * size, &parts);
    let text = text_section(alloc, size, &draw.code, &draw.targets)?;
    let pointers = data_section(alloc, size, &draw.pointers)?;
    let mut out = Vec::with_capacity(alloc, (2 * size + linkedit) as usize)?;
    put_commands(alloc, &mut out, k, size, linkedit, &draw.identifier, &spots)?;
    pad_to(&mut out, TEXT_START as usize)?;
    out.extend_from_slice(&text)?;
    out.extend_from_slice(&pointers)?;
    put_linkedit(&mut out, &parts)?;
    Ok(out)
}

// The streams of the images in a linkedit.
ghost use Rattle.std.specs.Prelude.{◌≡◌, ◌≤◌, ◌^◌, length, OnOk, IfOk, IfErr};
ghost use Rattle.dsc_base.specs.Limits.{span_limit};
ghost use Rattle.export_trie.specs.Writing.{IsWritable};
ghost use Rattle.linkedit_merge.specs.Parts as parts;
ghost use Rattle.linkedit_merge.specs.ReadBack.{IsTrie};
ghost use Rattle.linkedit_merge.specs.Sizes.{IsSize, Exceeds, own_streams, spans_of};

use crate::parts::{put_part, span_behind};
use crate::sizes::{SizeFault, end_behind};
use dsc_base::{NoMemory, SPAN_LIMIT, Span};
use export_trie::{Export, trie_len, write_trie};
use macho_image::Streams;
use std::alloc::Global;

/// Where the streams of an image stand in the file, each 0 and 0 if it is empty.
#[derive(Clone, Copy)]
pub(crate) struct StreamSpots {
    pub bind: Span,
    pub lazy: Span,
    pub exports: Span,
    pub function_starts: Span,
    pub data_in_code: Span,
}

/// Where the streams of an image end behind other parts. The trie isn't written for it.
pub(crate) fn streams_end(
    alloc: Global,
    before: u64,
    streams: &Streams<'_>,
    exports: &[Export],
) -> Result<u64, SizeFault>
    requires before { before ≤ span_limit }
    requires writable { IsWritable exports.now }
    ensures size { IfOk result (IsSize span_limit (parts.end_behind before (parts.lens_of (own_streams streams.now exports.now)))) }
    ensures cause { IfErr result (Exceeds span_limit (parts.end_behind before (parts.lens_of (own_streams streams.now exports.now)))) }
{
    let lens = [
        streams.bind.len() as u64,
        streams.lazy.len() as u64,
        trie_len(alloc, exports)?,
        streams.function_starts.len() as u64,
        streams.data_in_code.len() as u64,
    ];
    end_behind(before, &lens, SPAN_LIMIT)
}

/// Puts a part behind the others; gives its range in the file, where the linkedit starts at a place.
fn put_stream(out: &mut Vec<u8>, start: u64, part: &[u8]) -> Result<Span, NoMemory>
    requires { start ≤ 2 ^ 32 }
    ensures bytes { OnOk result (out.new.items ≡ parts.with_part out.old.items part.now) }
    ensures span { IfOk result (λ s. s ≡ parts.span_behind start (length out.old.items) (length part.now)) }
{
    let span = span_behind(start, out.len() as u64, part.len() as u64);
    put_part(out, part)?;
    Ok(span)
}

/// Puts the streams of an image behind the others.
pub(crate) fn put_streams(
    alloc: Global,
    out: &mut Vec<u8>,
    start: u64,
    streams: &Streams<'_>,
    exports: &[Export],
) -> Result<StreamSpots, NoMemory>
    requires start { start ≤ 2 ^ 32 }
    requires writable { IsWritable exports.now }
    ensures bytes { OnOk result (out.new.items ≡ parts.joined_behind out.old.items (own_streams streams.now exports.now)) }
    ensures trie { OnOk result (IsTrie exports.now) }
    ensures spots { IfOk result (λ s. spans_of s ≡ parts.spans_behind start (length out.old.items) (parts.lens_of (own_streams streams.now exports.now))) }
{
    let trie = write_trie(alloc, exports)?;
    Ok(StreamSpots {
        bind: put_stream(out, start, streams.bind)?,
        lazy: put_stream(out, start, streams.lazy)?,
        exports: put_stream(out, start, &trie)?,
        function_starts: put_stream(out, start, streams.function_starts)?,
        data_in_code: put_stream(out, start, streams.data_in_code)?,
    })
}

// The spans of one image.
ghost use Rattle.std.specs.Prelude.{◌≡◌, ◌≤◌, ◌<◌, ◌⊎◌, ◌+◌, ◌-◌, ◌^◌, [], ◌∷◌, All, replicate, length};
ghost use Rattle.dsc_base.specs.Edits.{put_all, AllFit};
ghost use Rattle.ref_rewrite.specs.Plans.{IsSoundPlan};
ghost use Rattle.ref_rewrite.specs.Rewritten.{lies_in, edits_in, parts_in, put_parts, rewritten};

use crate::{ImagePlan, Piece};
use dsc_base::{Edit, Gate, Span, put_u32, put_u64};

/// The three spans of an image, by offsets in the cache file.
#[derive(Clone, Copy)]
pub(crate) struct Spans {
    pub text: Span,
    pub writable: Span,
    pub fixed: Span,
}

/// Whether as many bytes as `len` from an offset lie wholly in the span.
fn lies_in(span: Span, at: u64, len: u64) -> bool
    ensures { result ≡ lies_in span at len }
{
    span.at <= at && at - span.at <= span.len && len <= span.len - (at - span.at)
}

/// Copies the bytes to their place in the span whose bytes the area has, if they lie in it.
fn copy_in(span: Span, at: u64, bytes: &[u8], area: &mut [u8])
    requires { length area.old ≡ span.len }
    ensures { area.new ≡ put_parts (parts_in span (record { at = at; bytes = bytes.now } ∷ [])) area.old }
{
    if lies_in(span, at, bytes.len() as u64) {
        let start = (at - span.at) as usize;
        area[start..start + bytes.len()].copy_from_slice(bytes);
    }
}

/// Sets the number at its place in the span whose bytes the area has, if it lies in it.
fn set_in(span: Span, edit: Edit, area: &mut [u8])
    requires size { length area.old ≡ span.len }
    requires width { (edit.width ≡ 4) ⊎ (edit.width ≡ 8) }
    requires value { edit.value < 256 ^ edit.width }
    ensures { area.new ≡ put_all (edits_in span (edit ∷ [])) area.old }
{
    if lies_in(span, edit.at, u64::from(edit.width)) {
        let start = (edit.at - span.at) as usize;
        if edit.width == 4 {
            put_u32(area, start, edit.value as u32);
        } else {
            put_u64(area, start, edit.value);
        }
    }
}

/// Copies the bytes to their place in the span that they lie in.
fn copy_bytes(
    spans: Spans,
    at: u64,
    bytes: &[u8],
    text: &mut [u8],
    writable: &mut [u8],
    fixed: &mut [u8],
)
    requires text { length text.old ≡ spans.text.len }
    requires writable { length writable.old ≡ spans.writable.len }
    requires fixed { length fixed.old ≡ spans.fixed.len }
    ensures text { text.new ≡ put_parts (parts_in spans.text (record { at = at; bytes = bytes.now } ∷ [])) text.old }
    ensures writable { writable.new ≡ put_parts (parts_in spans.writable (record { at = at; bytes = bytes.now } ∷ [])) writable.old }
    ensures fixed { fixed.new ≡ put_parts (parts_in spans.fixed (record { at = at; bytes = bytes.now } ∷ [])) fixed.old }
{
    copy_in(spans.text, at, bytes, text);
    copy_in(spans.writable, at, bytes, writable);
    copy_in(spans.fixed, at, bytes, fixed);
}

/// Copies each piece to its place, in order.
fn copy_pieces(
    spans: Spans,
    pieces: &[Piece<'_>],
    text: &mut [u8],
    writable: &mut [u8],
    fixed: &mut [u8],
)
    requires text { length text.old ≡ spans.text.len }
    requires writable { length writable.old ≡ spans.writable.len }
    requires fixed { length fixed.old ≡ spans.fixed.len }
    ensures text { text.new ≡ put_parts (parts_in spans.text pieces.now) text.old }
    ensures writable { writable.new ≡ put_parts (parts_in spans.writable pieces.now) writable.old }
    ensures fixed { fixed.new ≡ put_parts (parts_in spans.fixed pieces.now) fixed.old }
{
    for piece in pieces {
        copy_bytes(spans, piece.at, piece.bytes, text, writable, fixed);
    }
}

/// Sets each number at its place in the span that it lies in, in order.
fn set_numbers(spans: Spans, edits: &[Edit], text: &mut [u8], writable: &mut [u8], fixed: &mut [u8])
    requires text { length text.old ≡ spans.text.len }
    requires writable { length writable.old ≡ spans.writable.len }
    requires fixed { length fixed.old ≡ spans.fixed.len }
    requires widths { All (λ e. (e.width ≡ 4) ⊎ (e.width ≡ 8)) edits.now }
    requires values { AllFit edits.now }
    ensures text { text.new ≡ put_all (edits_in spans.text edits.now) text.old }
    ensures writable { writable.new ≡ put_all (edits_in spans.writable edits.now) writable.old }
    ensures fixed { fixed.new ≡ put_all (edits_in spans.fixed edits.now) fixed.old }
{
    for edit in edits {
        set_in(spans.text, *edit, text);
        set_in(spans.writable, *edit, writable);
        set_in(spans.fixed, *edit, fixed);
    }
}

/// Carries out the plan of the image with this number in its three spans, which are zeros. The gate is told
/// the greatest `u32` for a number beyond it.
pub(crate) fn rewrite_image<G: Gate>(
    gate: &G,
    number: usize,
    plan: &ImagePlan<'_>,
    text: &mut [u8],
    writable: &mut [u8],
    fixed: &mut [u8],
)
    requires sound { IsSoundPlan plan.now }
    requires text { text.old ≡ replicate plan.now.text.len 0 }
    requires writable { writable.old ≡ replicate plan.now.writable.len 0 }
    requires fixed { fixed.old ≡ replicate plan.now.fixed.len 0 }
    ensures text { text.new ≡ rewritten plan.now plan.now.text }
    ensures writable { writable.new ≡ rewritten plan.now plan.now.writable }
    ensures fixed { fixed.new ≡ rewritten plan.now plan.now.fixed }
{
    gate.enter(u32::try_from(number).unwrap_or(u32::MAX));
    let spans = Spans {
        text: plan.text,
        writable: plan.writable,
        fixed: plan.fixed,
    };
    let copies = plan.copies.as_slice();
    let header = plan.header.as_slice();
    let edits = plan.edits.as_slice();
    copy_pieces(spans, copies, text, writable, fixed);
    copy_bytes(spans, plan.header_at, header, text, writable, fixed);
    set_numbers(spans, edits, text, writable, fixed);
}

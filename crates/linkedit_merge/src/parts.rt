// Parts of a linkedit, one behind the other.
ghost use Rattle.std.specs.Prelude.{◌≡◌, ◌≤◌, ◌<◌, ◌+◌, ◌^◌, length, OnOk, IfOk};
ghost use Rattle.linkedit_merge.specs.Parts as spec;

use dsc_base::{NoMemory, SetFault, Span};

/// The least multiple of 8 that is not below a number of bytes.
pub fn eight_up(size: u64) -> u64
    requires { size ≤ 2 ^ 63 }
    ensures value { result ≡ spec.eight_up size }
    ensures close { result ≤ size + 7 }
{
    (size + 7) / 8 * 8
}

/// The range that so many bytes have behind others, in a file where the linkedit starts at a place; 0 and 0
/// for none.
#[tactic(auto, unfolding(crate::specs::Parts::span_behind))]
pub(crate) fn span_behind(start: u64, before: u64, len: u64) -> Span
    requires start { start ≤ 2 ^ 32 }
    requires before { before ≤ 2 ^ 63 }
    ensures span { result ≡ spec.span_behind start before len }
    ensures low { result.at ≤ start + before + 7 }
{
    if len == 0 {
        return Span { at: 0, len: 0 };
    }
    Span {
        at: start + eight_up(before),
        len,
    }
}

/// Puts a part behind the others.
#[tactic(auto, unfolding(crate::specs::Parts::with_part))]
pub(crate) fn put_part(out: &mut Vec<u8>, part: &[u8]) -> Result<(), NoMemory>
    ensures { OnOk result (out.new.items ≡ spec.with_part out.old.items part.now) }
{
    if part.is_empty() {
        return Ok(());
    }
    let at = eight_up(out.len() as u64);
    out.resize(at as usize, 0)?;
    out.extend_from_slice(part)?;
    Ok(())
}

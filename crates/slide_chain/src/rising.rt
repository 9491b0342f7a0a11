// Rising words: how many lie below a place, and how far the next one is.
ghost use Rattle.std.specs.Prelude.{◌≡◌, ◌+◌, ◌-◌, ◌*◌, ◌/◌, ◌<◌, ◌≤◌, length, take, drop, slice_index};
ghost use Rattle.slide_chain.specs.Making.{step, step_to, front, rest, AreWords};

/// How many words lie below a place.
pub(crate) fn words_below(words: &[u64], end: u64) -> usize
    requires rises { AreWords 0 words.now }
    ensures inside { result ≤ length words.now }
    ensures front { take result words.now ≡ front end words.now }
    ensures rest { drop result words.now ≡ rest end words.now }
{
    words.partition_point(|word| *word < end)
}

/// The distance from a word to the next one of its chain, in units of four bytes, or 0.
pub(crate) fn step_from(words: &[u64], i: usize, limit: u64) -> u64
    requires within { i < length words.now }
    requires rises { AreWords 0 words.now }
    ensures { result ≡ step_to limit (slice_index words.now i) (drop (i + 1) words.now) }
{
    if i + 1 < words.len() {
        step_between(words[i], words[i + 1], limit)
    } else {
        0
    }
}

/// The distance between two words of one page, in units of four bytes, where it is at most the
/// limit. Else 0.
#[tactic(auto, unfolding(crate::specs::Making::step))]
pub(crate) fn step_between(word: u64, next: u64, limit: u64) -> u64
    requires { word ≤ next }
    ensures { result ≡ step limit word next }
{
    let units = (next - word) / 4;
    if word / 4096 == next / 4096 && units <= limit {
        units
    } else {
        0
    }
}

// Slide information, and one word under it.
ghost use Rattle.std.specs.Prelude.{◌≡◌, ◌+◌, ◌%◌, ◌^◌};
ghost use Rattle.slide_chain.specs.Chains.{Slide, IsRun, delta_of, slid, moved};

use std::marker::Model;

/// How the words of the data are linked: one start for each page of 4096 bytes, and the extras of
/// pages with more than one chain. Contracts see it with both as lists.
#[derive(Drop)]
pub struct SlideInfo {
    pub mask: u64,
    pub value_add: u64,
    pub starts: Vec<u16>,
    pub extras: Vec<u16>,
}

impl Model for SlideInfo {
    ghost Value = { Slide };

    ghost view = { λ s. record { mask = s.mask; value_add = s.value_add; starts = s.starts.items; extras = s.extras.items } };
}

/// A word that slides: its offset in the data, and its value at slide 0.
#[derive(Clone, Copy, Debug, PartialEq, Eq)]
pub struct ChainWord {
    pub offset: u64,
    pub value: u64,
}

/// The word after sliding: without the mask's bits, plus `value_add` and the slide, modulo 2^64. A
/// word of value 0 stays 0.
pub fn slide_word(raw: u64, info: &SlideInfo, slide: u64) -> u64
    ensures { result ≡ slid info.now slide raw }
{
    slid(raw, info.mask, info.value_add, slide)
}

/// The word after sliding, by a mask and a number to add.
pub(crate) fn slid(raw: u64, mask: u64, value_add: u64, slide: u64) -> u64
    ensures { result ≡ moved mask value_add slide raw }
{
    let value = raw & !mask;
    if value == 0 {
        0
    } else {
        value.wrapping_add(value_add).wrapping_add(slide)
    }
}

/// How many bytes the next word of a chain is away, or 0.
pub(crate) fn delta(raw: u64, mask: u64) -> u64
    requires { IsRun mask }
    ensures { result ≡ delta_of mask raw }
{
    (raw & mask) >> (mask.trailing_zeros() - 2)
}

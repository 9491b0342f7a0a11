// Linking the words of the data.
ghost use Rattle.std.specs.Prelude.{◌≡◌, ℕ, List, map, ◌+◌, ◌-◌, ◌*◌, ◌/◌, ◌%◌, ◌^◌, ◌<◌, ◌≤◌, Option, None, length};
ghost use Rattle.dsc_base.specs.Numbers.{number_at, put_number};
ghost use Rattle.dsc_base.specs.Edits.{change_all, settled, AllFit};
ghost use Rattle.slide_chain.specs.Chains.{Slide, chain_words, chain_finding, slid_area};
ghost use Rattle.slide_chain.specs.Making.{linking, front, rest, AreWords, AllBelow, AreOutside, IsMade, given, raising};
ghost use Rattle.slide_chain.specs.Steps.Pieces.{earlier};

use crate::SlideInfo;
use crate::rising::{step_from, words_below};
use dsc_base::{get_u64, put_u64};
use std::thread;
use std::thread::Threads;

/// Writes each word's distance to the next one of its chain into its delta bits, and changes
/// nothing else. The information is what `make_slide_info` makes of these words and of the area's
/// length, and no word has a bit of the mask. At most `jobs` threads, from 1 to 64, share the pages.
pub fn write_chains<R: Threads + Sync>(
    rt: &R,
    area: &mut [u8],
    words: &[u64],
    info: &SlideInfo,
    jobs: u32,
)
    requires jobs { 1 ≤ jobs }
    requires most { jobs ≤ 64 }
    requires made { IsMade info.now (length area.old) words.now }
    requires pages { length area.old % 4096 ≡ 0 }
    requires words { AreWords 0 words.now }
    requires inside { AllBelow (length area.old) words.now }
    requires outside { AreOutside info.now.mask area.old words.now }
    ensures links { area.new ≡ change_all (linking (info.now.mask / 2 ^ 48) words.now) area.old }
    ensures back { chain_words info.now area.new ≡ given area.old words.now }
    ensures sound { chain_finding info.now area.new ≡ None }
    ensures slid { (slide : ℕ) → slid_area info.now slide area.new
        ≡ change_all (map (raising slide) words.now) area.old }
{
    let limit = info.mask >> 48;
    let size = piece_size(area.len(), jobs);
    thread::for_each_chunk_mut(
        rt,
        area,
        size,
        &|start, piece| { link_piece(piece, words, start, limit) },
    );
}

/// How many bytes of data one of so many jobs has, in whole pages, one at least.
fn piece_size(len: usize, jobs: u32) -> usize
    requires jobs { 1 ≤ jobs }
    requires whole { len % 4096 ≡ 0 }
    requires room { len < 2 ^ 63 }
    ensures some { 0 < result }
    ensures pages { result % 4096 ≡ 0 }
    ensures enough { len ≤ result * jobs }
{
    (len / 4096).div_ceil(jobs as usize).max(1) * 4096
}

/// Links the words that lie in a piece of the data, which begins at `start`.
fn link_piece(piece: &mut [u8], words: &[u64], start: usize, limit: u64)
    requires words { AreWords 0 words.now }
    requires start { start % 4096 ≡ 0 }
    requires pages { length piece.old % 4096 ≡ 0 }
    requires room { start + length piece.old < 2 ^ 64 }
    requires fits { AllFit (map (settled piece.old) (map (earlier start)
        (linking limit (front (start + length piece.old) (rest start words.now))))) }
    ensures { piece.new ≡ change_all (map (earlier start)
        (linking limit (front (start + length piece.old) (rest start words.now)))) piece.old }
{
    let behind = &words[words_below(words, start as u64)..];
    let own = &behind[..words_below(behind, (start + piece.len()) as u64)];
    link_words(piece, own, start, limit);
}

/// Links words that all lie in a piece of the data, which begins at `start`.
fn link_words(piece: &mut [u8], words: &[u64], start: usize, limit: u64)
    requires words { AreWords start words.now }
    requires inside { AllBelow (start + length piece.old) words.now }
    requires start { start % 4096 ≡ 0 }
    requires pages { length piece.old % 4096 ≡ 0 }
    requires fits { AllFit (map (settled piece.old) (map (earlier start) (linking limit words.now))) }
    ensures { piece.new ≡ change_all (map (earlier start) (linking limit words.now)) piece.old }
{
    for (i, word) in words.iter().enumerate() {
        link(piece, *word as usize - start, step_from(words, i, limit));
    }
}

/// Adds a distance to the delta bits of the word at a place, where these are 0.
fn link(area: &mut [u8], at: usize, step: u64)
    requires inside { at + 8 ≤ length area.old }
    requires fits { number_at 8 area.old at + step * 2 ^ 48 < 2 ^ 64 }
    ensures { area.new ≡ put_number 8 area.old at (number_at 8 area.old at + step * 2 ^ 48) }
{
    let raw = get_u64(area, at);
    put_u64(area, at, raw + (step << 48));
}

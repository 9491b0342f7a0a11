// One page of data with its slide information, made by hand: what is read back from it, and what is
// made and written for words of the same places, by any number of jobs.
ghost use Rattle.std.specs.Prelude.{◌≡◌, ◌*◌, ◌^◌, ◌<◌, ◌≤◌, ◌%◌, length, true, IfOk};
ghost use Rattle.slide_chain.specs.Chains.{IsRun};
ghost use Rattle.slide_chain.specs.Making.{AreWords, AllBelow, AreOutside, IsMade};

use super::*;
use dsc_base::{Fault, Rule, ViewFault, get_u64, put_u64};
use std::alloc::Global;
use std::test::*;
use std::thread::Threads;

const JOBS: [u32; 4] = [1, 2, 7, 64];

/// A mask, how many bits it has if the information is made too, a start, extras and raw words with
/// their places; the chain words with their values, and the number and the place of what is wrong.
const CASES: [(
    u64,
    u32,
    u16,
    &[u16],
    &[(usize, u64)],
    &[(usize, u64)],
    u16,
    u64,
); 10] = [
    // two words, chained
    (
        0xffff000000000000,
        16,
        4,
        &[],
        &[(0x10, 0x00067fff20002020), (0x28, 0x00007fff20001400)],
        &[(0x10, 0x7fff20002020), (0x28, 0x7fff20001400)],
        0,
        0,
    ),
    // deltas of two bits, which don't reach the third word
    (
        0x0003000000000000,
        2,
        0x8000,
        &[0x0004, 0x8040],
        &[
            (0x10, 0x00027fff20001400),
            (0x18, 0x00007fff20001400),
            (0x100, 0x00007fff20001400),
        ],
        &[
            (0x10, 0x7fff20001400),
            (0x18, 0x7fff20001400),
            (0x100, 0x7fff20001400),
        ],
        0,
        0,
    ),
    // a word of value 0 between two others
    (
        0xffff000000000000,
        0,
        4,
        &[],
        &[
            (0x10, 0x00027fff20001400),
            (0x18, 0x0004000000000000),
            (0x28, 0x00007fff20001400),
        ],
        &[(0x10, 0x7fff20001400), (0x28, 0x7fff20001400)],
        0,
        0,
    ),
    // the last word of a page
    (
        0xffff000000000000,
        16,
        0x3fe,
        &[],
        &[(0xff8, 0x00007fff20001400)],
        &[(0xff8, 0x7fff20001400)],
        0,
        0,
    ),
    // no word
    (0xffff000000000000, 16, 0x4000, &[], &[], &[], 0, 0),
    // a first word that isn't whole in its page
    (0xffff000000000000, 0, 0x3ff, &[], &[], &[], 210, 0),
    // a chain that leads on past the page
    (
        0xffff000000000000,
        0,
        0x3fe,
        &[],
        &[(0xff8, 0x00017fff20001400)],
        &[],
        210,
        0xff8,
    ),
    // a run of extras without an end
    (0xffff000000000000, 0, 0x8000, &[0x0004], &[], &[], 209, 0),
    // an index past the extras
    (0xffff000000000000, 0, 0x8001, &[0x8004], &[], &[], 209, 0),
    // two words that share four bytes
    (
        0xffff000000000000,
        0,
        0x8000,
        &[0x0004, 0x8005],
        &[],
        &[],
        211,
        0x10,
    ),
];

/// Bytes of data with a word in each eight, and bits of a delta; how many extras are needed, and
/// whether these are too many.
const FULL: [(u64, u32, u64, bool); 4] = [
    (0x21000, 1, 0x4200, true),
    (0x21000, 2, 0, false),
    (0x20000, 1, 0x4000, false),
    // no data
    (0, 1, 0, false),
];

fn put_words(bytes: &mut [u8], words: &[(usize, u64)]) {
    for (at, word) in words {
        if *at < bytes.len() && bytes.len() - *at >= 8 {
            put_u64(bytes, *at, *word);
        }
    }
}

fn data_with(alloc: Global, words: &[(usize, u64)]) -> Result<Vec<u8>, Fail>
    ensures { IfOk result (λ v. length v.items ≡ 4096) }
{
    let mut data = vec![in alloc; 0u8; 4096]?;
    put_words(&mut data, words);
    Ok(data)
}

/// Slide information of one page, spelled and read back.
fn info_with(alloc: Global, mask: u64, start: u16, extras: &[u16]) -> Result<SlideInfo, Fail>
    requires { length extras.now < 2 ^ 30 }
    ensures run { IfOk result (λ i. IsRun i.mask) }
    ensures pages { IfOk result (λ i. length i.starts * 4096 ≡ 4096) }
{
    let mut starts = Vec::new(alloc);
    starts.push(start)?;
    let mut all = Vec::new(alloc);
    all.extend_from_slice(extras)?;
    let bytes = slide_info_bytes(
        alloc,
        &SlideInfo {
            mask,
            value_add: 0,
            starts,
            extras: all,
        },
    )?;
    let info = read_slide_info(alloc, &bytes, 4096)
        .ok()
        .ok_or("the information is read")?;
    Ok(info)
}

/// Whether words are such as information can be made of.
fn are_words(words: &[u64], size: u64) -> bool
    requires { size ≤ 0x20000000 }
    ensures { result ≡ true → AreWords 0 words.now × AllBelow size words.now }
{
    let mut from = 0;
    for word in words {
        if *word < from || *word % 4 != 0 || *word % 4096 > 0xff8 || *word >= size {
            return false;
        }
        from = *word + 8;
    }
    true
}

/// Whether the numbers at the words have no bit of a mask.
fn are_outside(area: &[u8], words: &[u64], mask: u64) -> bool
    requires { length area.now ≤ 0x20000000 }
    ensures { result ≡ true → AreOutside mask area.now words.now }
{
    for word in words {
        if area.len() < 8 || *word > area.len() as u64 - 8 {
            return false;
        }
        if get_u64(area, *word as usize) & mask != 0 {
            return false;
        }
    }
    true
}

/// The places of words, one after the other.
fn places_of(alloc: Global, words: &[(usize, u64)]) -> Result<Vec<u64>, Fail> {
    let mut places = Vec::new(alloc);
    for (at, _value) in words {
        places.push(*at as u64)?;
    }
    Ok(places)
}

fn is_shared<T: Send + Sync>(_value: &T) {}

/// Links the words, if their numbers have no bit of the mask.
fn link_with<R: Threads + Sync>(
    rt: &R,
    bytes: &mut [u8],
    places: &[u64],
    info: &SlideInfo,
    jobs: u32,
) -> bool
    requires room { length bytes.old ≤ 0x20000000 }
    requires made { IsMade info.now (length bytes.old) places.now }
    requires pages { length bytes.old % 4096 ≡ 0 }
    requires words { AreWords 0 places.now }
    requires inside { AllBelow (length bytes.old) places.now }
{
    if jobs < 1 || jobs > 64 || !are_outside(bytes, places, info.mask) {
        return false;
    }
    write_chains(rt, bytes, places, info, jobs);
    true
}

/// Whether the values become what is wanted, whatever the number of jobs.
fn become_for_all<R: Threads + Sync>(
    rt: &R,
    alloc: Global,
    values: &[u8],
    places: &[u64],
    info: &SlideInfo,
    wanted: &[u8],
) -> Result<bool, Fail>
    requires room { length values.now ≤ 0x20000000 }
    requires made { IsMade info.now (length values.now) places.now }
    requires pages { length values.now % 4096 ≡ 0 }
    requires words { AreWords 0 places.now }
    requires inside { AllBelow (length values.now) places.now }
{
    for jobs in JOBS {
        let mut data = copied(alloc, values)?;
        if !link_with(rt, &mut data, places, info, jobs) || data.as_slice() != wanted {
            return Ok(false);
        }
    }
    Ok(true)
}

fn copied(alloc: Global, bytes: &[u8]) -> Result<Vec<u8>, Fail>
    ensures { IfOk result (λ v. v.items ≡ bytes.now) }
{
    let mut copy = Vec::new(alloc);
    copy.extend_from_slice(bytes)?;
    Ok(copy)
}

/// Whether a row's words are made and written as it says.
fn is_written<R: Threads + Sync>(
    rt: &R,
    alloc: Global,
    row: (u64, u32, u16),
    extras: &[u16],
    raws: &[(usize, u64)],
    words: &[(usize, u64)],
) -> Result<bool, Fail> {
    let (mask, bits, start) = row;
    let places = places_of(alloc, words)?;
    if bits < 1 || bits > 16 || !are_words(&places, 4096) {
        return Ok(false);
    }
    let info = make_slide_info(alloc, 4096, &places, bits)
        .ok()
        .ok_or("the words of a row")?;
    if info.mask != mask
        || info.starts.as_slice() != [start].as_slice()
        || info.extras.as_slice() != extras
    {
        return Ok(false);
    }
    let values = data_with(alloc, words)?;
    let wanted = data_with(alloc, raws)?;
    become_for_all(rt, alloc, &values, &places, &info, &wanted)
}

/// A word in each eight bytes.
fn each_eight(alloc: Global, size: u64) -> Result<Vec<u64>, Fail>
    requires { size ≤ 0x20000000 }
{
    let mut places = Vec::new(alloc);
    for k in 0..size / 8 {
        places.push(k * 8)?;
    }
    Ok(places)
}

/// What becomes of data full of words: how many extras are needed, whether these are too many, and
/// whether the last one is marked and all numbers of jobs write the same.
fn fill<R: Threads + Sync>(
    rt: &R,
    alloc: Global,
    size: u64,
    bits: u32,
) -> Result<(u64, bool, bool), Fail>
    requires room { size ≤ 0x20000000 }
    requires pages { size % 4096 ≡ 0 }
    requires bits { 1 ≤ bits }
    requires most { bits ≤ 16 }
{
    let places = each_eight(alloc, size)?;
    if !are_words(&places, size) {
        return Ok((0, false, false));
    }
    match make_slide_info(alloc, size, &places, bits) {
        Ok(info) => {
            let is_marked = info.extras.is_empty() || info.extras[info.extras.len() - 1] >= 0x8000;
            let values = vec![in alloc; 0u8; size as usize]?;
            let mut wanted = copied(alloc, &values)?;
            let is_linked = link_with(rt, &mut wanted, &places, &info, 1);
            let is_same = become_for_all(rt, alloc, &values, &places, &info, &wanted)?;
            Ok((
                info.extras.len() as u64,
                false,
                is_marked && is_linked && is_same,
            ))
        }
        Err(Fault::Broken(site)) => Ok((site.at, true, site.rule == Rule::TooManyExtras)),
        Err(Fault::Memory) => Ok((0, false, false)),
    }
}

#[test]
fn reads(rt: HostRuntime) -> Result<(), Fail> {
    let alloc = rt.alloc();
    for (mask, _bits, start, extras, raws, want, number, place) in CASES {
        assert!(rt; extras.len() < 100);
        let info = info_with(alloc, mask, start, extras)?;
        let mut data = data_with(alloc, raws)?;
        match read_chains(alloc, &info, &data) {
            Ok(words) => {
                assert_eq!(rt; (0, 0), (number, place), "start {start:x}");
                assert_eq!(rt; words.len(), want.len(), "start {start:x}");
                unslide(&mut data, &info);
                for (word, (at, value)) in words.iter().zip(want) {
                    assert!(rt; *at <= 4088);
                    assert_eq!(rt; word.offset, *at as u64, "start {start:x}");
                    assert_eq!(rt; word.value, *value, "at {at:x}");
                    assert_eq!(rt; get_u64(&data, *at), *value, "at {at:x}");
                }
            }
            Err(ViewFault::Broken(finding)) => {
                assert_eq!(rt;
                    (finding.kind.number(), finding.at),
                    (number, place),
                    "start {start:x}"
                );
            }
            Err(ViewFault::Memory) => assert!(rt; false, "memory"),
        }
    }
    Ok(())
}

#[test]
fn writes(rt: HostRuntime) -> Result<(), Fail> {
    let alloc = rt.alloc();
    for (mask, bits, start, extras, raws, words, _number, _place) in CASES {
        if bits > 0 {
            assert!(rt; is_written(&rt, alloc, (mask, bits, start), extras, raws, words)?);
        }
    }
    for (size, bits, extras, is_refused) in FULL {
        assert!(rt; size <= 0x21000 && size % 4096 == 0 && bits >= 1 && bits <= 16);
        assert_eq!(rt;
            fill(&rt, alloc, size, bits)?,
            (extras, is_refused, true),
            "{size:x} bytes"
        );
    }
    let info = info_with(alloc, 0xffff000000000000, 4, &[])?;
    is_shared(&info);
    assert_eq!(rt;
        slide_word(0x00067fff20002020, &info, 0x1000),
        0x7fff20003020
    );
    assert_eq!(rt; slide_word(0x0006000000000000, &info, 0x1000), 0);
    Ok(())
}

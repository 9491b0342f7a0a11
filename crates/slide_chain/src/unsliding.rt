// The data at slide 0, in place.
ghost use Rattle.std.specs.Prelude.{◌≡◌, ℕ, ◌+◌, ◌*◌, ◌≤◌, ◌<◌, List, [], length, map, filter, nat_lt, Option, None};
ghost use Rattle.std.specs.List.{flat_map};
ghost use Rattle.dsc_base.specs.Numbers.{number_at, put_number};
ghost use Rattle.dsc_base.specs.Edits.{change_all};
ghost use Rattle.slide_chain.specs.Chains.{Slide, slide_of, Suits, IsRun, delta_of, moved, moving, chain, extra_heads, heads, page_reached, page_leaving, each_page, chain_finding, slid_area};
ghost use Rattle.slide_chain.specs.Steps.Apart.{AreApart};

use crate::SlideInfo;
use crate::sieve::{MARKED, NO_WORD, PLACES, skipped};
use crate::words::{delta, slid};
use dsc_base::{get_u64, put_u64};

/// Sets each chain word to its value at slide 0 and each other word that is reached to 0, and
/// changes nothing else. Nothing is wrong with the chains.
pub fn unslide(area: &mut [u8], info: &SlideInfo)
    requires suits { Suits info.now area.old }
    requires sound { chain_finding info.now area.old ≡ None }
    ensures { area.new ≡ slid_area info.now 0 area.old }
{
    unslide_pages(area, info.mask, info.value_add, &info.starts, &info.extras);
}

fn unslide_pages(area: &mut [u8], mask: u64, value_add: u64, starts: &[u16], extras: &[u16])
    requires suits { Suits (slide_of mask value_add starts.now extras.now) area.old }
    requires sound { chain_finding (slide_of mask value_add starts.now extras.now) area.old ≡ None }
    ensures { area.new ≡ slid_area (slide_of mask value_add starts.now extras.now) 0 area.old }
{
    for (i, start) in starts.iter().enumerate() {
        unslide_page(area, mask, value_add, extras, i * 4096, *start);
    }
}

fn unslide_page(area: &mut [u8], mask: u64, value_add: u64, extras: &[u16], page: usize, start: u16)
    requires inside { page + 4096 ≤ length area.old }
    requires run { IsRun mask }
    requires stays { page_leaving mask extras.now area.old page start ≡ [] }
    requires apart { AreApart (page_reached mask extras.now area.old page start) }
    ensures { area.new ≡ change_all (map (moving mask value_add 0)
        (page_reached mask extras.now area.old page start)) area.old }
{
    if start == NO_WORD {
        return;
    }
    if start < MARKED {
        unslide_chain(area, mask, value_add, page, page + start as usize * 4);
        return;
    }
    unslide_run(
        area,
        mask,
        value_add,
        &extras[skipped(extras, start)..],
        page,
    );
}

fn unslide_run(area: &mut [u8], mask: u64, value_add: u64, extras: &[u16], page: usize)
    requires inside { page + 4096 ≤ length area.old }
    requires run { IsRun mask }
    requires heads { filter (nat_lt (page + 0xFF8)) (extra_heads page extras.now) ≡ [] }
    requires stays { filter (λ a. nat_lt (page + 0xFF8) (a + delta_of mask (number_at 8 area.old a)))
        (flat_map (chain mask area.old (page + 0xFF8) 1024) (extra_heads page extras.now)) ≡ [] }
    requires apart { AreApart (flat_map (chain mask area.old (page + 0xFF8) 1024) (extra_heads page extras.now)) }
    ensures { area.new ≡ change_all (map (moving mask value_add 0)
        (flat_map (chain mask area.old (page + 0xFF8) 1024) (extra_heads page extras.now)))
        area.old }
{
    for extra in extras {
        unslide_chain(
            area,
            mask,
            value_add,
            page,
            page + (*extra % 0x4000) as usize * 4,
        );
        if *extra >= MARKED {
            return;
        }
    }
}

/// Follows one chain from its first word on, and sets each word behind it.
fn unslide_chain(area: &mut [u8], mask: u64, value_add: u64, page: usize, head: usize)
    requires inside { page + 4096 ≤ length area.old }
    requires run { IsRun mask }
    requires head { head ≤ page + 0xFF8 }
    requires stays { filter (λ a. nat_lt (page + 0xFF8) (a + delta_of mask (number_at 8 area.old a)))
        (chain mask area.old (page + 0xFF8) 1024 head) ≡ [] }
    requires apart { AreApart (chain mask area.old (page + 0xFF8) 1024 head) }
    ensures { area.new ≡ change_all (map (moving mask value_add 0)
        (chain mask area.old (page + 0xFF8) 1024 head)) area.old }
{
    let mut at = head;
    for _step in 0..PLACES + 1 {
        let raw = get_u64(area, at);
        put_u64(area, at, slid(raw, mask, value_add, 0));
        let delta = delta(raw, mask);
        if delta == 0 {
            return;
        }
        at += delta as usize;
    }
}

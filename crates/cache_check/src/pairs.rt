// The same section of a file and of its cached image.
ghost use Rattle.std.specs.Prelude.{◌≡◌, ◌≤◌, ◌+◌, ◌^◌, IfSome, option_copied, option_map};
ghost use Rattle.macho_image.specs.Places.{numbered_section};
ghost use Rattle.cache_check.specs.Bytes as spec;
ghost use Rattle.cache_check.specs.Steps.Sides.{pair_view};

use macho_image::{Image, Section, Segment};

/// A section of a file with the segment around it, and the same of the cached image.
#[derive(Clone, Copy)]
pub(crate) struct Pair<'s, 'a, 'b> {
    pub own: &'s Segment<'a>,
    pub here: &'s Section,
    pub cached: &'s Segment<'b>,
    pub there: &'s Section,
}

/// The section of a number, which counts from 1.
fn numbered(sections: &[Section], number: u32) -> Option<&Section>
    ensures { option_copied result ≡ numbered_section sections.entry.now number }
{
    if number == 0 {
        return None;
    }
    sections.get(number as usize - 1)
}

/// The sections of a number, which counts from 1, where both images have one.
#[tactic(auto, unfolding(crate::specs::Bytes::pair_of))]
pub(crate) fn pair_of<'s, 'a, 'b>(
    file: &'s Image<'a>,
    cached: &'s Image<'b>,
    number: u32,
) -> Option<Pair<'s, 'a, 'b>>
    ensures pair { option_map pair_view result ≡ spec.pair_of file.entry.now cached.entry.now number }
    ensures here { IfSome result (λ p. p.here.now.addr + p.here.now.size ≤ 2 ^ 47) }
    ensures there { IfSome result (λ p. p.there.now.addr ≤ 2 ^ 47) }
{
    file.facts();
    cached.facts();
    let here = numbered(&file.sections, number)?;
    let there = numbered(&cached.sections, number)?;
    let own = file.segments.get(here.segment as usize)?;
    let segment = cached.segments.get(there.segment as usize)?;
    Some(Pair {
        own,
        here,
        cached: segment,
        there,
    })
}

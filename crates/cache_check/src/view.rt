// A cache that was read.
use cache_header::CacheHead;
use slide_chain::{ChainWord, SlideInfo};
use std::marker::Model;

/// A cache that was read whole. `flat` has its bytes in file order as they are mapped at slide 0, and
/// `words` all words that slide, by rising offset in the data, which is the second mapping.
///
/// The head has at most 4,096 images, and nothing is wrong with the mappings of a file as long as `flat`.
/// The words lie in the data, rise by eight bytes or more, at multiples of four, none of them across the end
/// of a page of 4096 bytes, and `flat` has each word's value.
#[derive(Drop)]
pub struct CacheView {
    pub head: CacheHead,
    pub info: SlideInfo,
    pub words: Vec<ChainWord>,
    pub flat: Vec<u8>,
}

impl Model for CacheView {
    ghost use Rattle.cache_check.specs.Views.{View};

    ghost Value = { View };

    ghost use Rattle.cache_check.specs.Inside.{view_fields, IsSoundInside};

    ghost view = { view_fields };

    ghost invariant = { IsSoundInside };
}

impl CacheView {
    ghost use Rattle.cache_check.specs.Views.{IsSoundView};

    /// Does nothing; its contract tells what is true of every view.
    pub fn facts(&self)
        ensures { IsSoundView self.now }
    {
        let _ = &self.flat;
    }
}

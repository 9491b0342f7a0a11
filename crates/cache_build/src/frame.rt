// Where slide information and the merged linkedit stand, behind the segments.
ghost use Rattle.std.specs.Prelude.{◌≡◌, ◌≤◌, ◌+◌, List};
ghost use Rattle.linkedit_merge.specs.Shares.{Share};
ghost use Rattle.linkedit_merge.specs.Linkedit.{linkedit_size as linkedit_size_of};
ghost use Rattle.cache_build.specs.Places.{frame_of};

use cache_layout::Layout;
use dsc_base::page_up;

/// Where slide information stands in the file and how many bytes it has, where the merged linkedit
/// stands, and where the cache ends.
#[derive(Clone, Copy)]
pub struct Frame {
    pub slide_at: u64,
    pub slide_size: u64,
    pub linkedit_at: u64,
    pub span: u64,
}

impl Frame {
    /// What stands behind the segments, for slide information and a linkedit of so many bytes.
    #[tactic(auto, unfolding(crate::specs::Places::frame_of, linkedit_merge::specs::Linkedit::linkedit_start))]
    pub fn of_sizes(layout: &Layout, slide_size: u64, linkedit_size: u64) -> Frame
        requires low { layout.now.fixed.at + layout.now.fixed.len ≤ 0x2000_0000 }
        requires slide { slide_size ≤ 0x2000_0000 }
        requires linkedit { linkedit_size ≤ 0x2000_0000 }
        ensures { (shares : List Share) → linkedit_size ≡ linkedit_size_of shares → result ≡ frame_of layout.now slide_size shares }
    {
        let fixed = layout.fixed();
        let slide_at = fixed.at + fixed.len;
        let linkedit_at = page_up(slide_at + slide_size);
        Frame {
            slide_at,
            slide_size,
            linkedit_at,
            span: linkedit_at + page_up(linkedit_size),
        }
    }
}

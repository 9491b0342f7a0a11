// What is planned for the ranges of one image.
use dsc_base::{Edit, Span};
use std::marker::Model;

/// Bytes to be copied to an offset of the cache file.
#[derive(Drop)]
pub struct Piece<'a> {
    pub at: u64,
    pub bytes: &'a [u8],
}

impl<'a> Model for Piece<'a> {
    ghost use Rattle.ref_rewrite.specs.Plans.{Part};

    ghost Value = { Part };

    ghost view = { λ p. record { at = p.at; bytes = p.bytes.now } };
}

/// What the three ranges of one image hold: zeros, over them the copies in order, over these the header,
/// and over it the edits. All places are offsets in the cache file. `text`, `writable` and `fixed` are the
/// image's parts of the file's executable, writable and read-only ranges, and `words` lists, rising, the
/// offsets in the writable range of the words that lead to places.
#[derive(Drop)]
pub struct ImagePlan<'a> {
    pub copies: Vec<Piece<'a>>,
    pub edits: Vec<Edit>,
    pub header: Vec<u8>,
    pub header_at: u64,
    pub text: Span,
    pub writable: Span,
    pub fixed: Span,
    pub words: Vec<u64>,
}

impl<'a> Model for ImagePlan<'a> {
    ghost use Rattle.ref_rewrite.specs.Plans.{Plan};

    ghost Value = { Plan };

    ghost view = { λ p. record { copies = p.copies.items; edits = p.edits.items; header = p.header.items; header_at = p.header_at; text = p.text; writable = p.writable; fixed = p.fixed; words = p.words.items } };
}

/// Types that workers may share and hand back.
fn is_shared<T: Send + Sync>(_value: &T) {}

impl<'a> Piece<'a> {
    /// Does nothing; workers may share and hand back a piece.
    pub fn shares(&self) {
        is_shared(self);
    }
}

impl<'a> ImagePlan<'a> {
    /// Does nothing; workers may share and hand back a plan.
    pub fn shares(&self) {
        is_shared(self);
    }
}

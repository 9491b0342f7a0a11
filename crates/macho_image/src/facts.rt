// What is known of every image.
ghost use Rattle.macho_image.specs.Breaks.{IsSound};

use crate::Image;

/// A type that workers may share and hand back.
fn is_shared<T: Send + Sync>(_value: &T) {}

impl<'a> Image<'a> {
    /// Does nothing; its contract tells what is true of each image. Its header breaks none of the rules
    /// that it can break by itself, a file of its own begins with its first segment, it has the segments, sections and dependencies that its header spells,
    /// and each segment has as many bytes as its filesize.
    pub fn facts(&self)
        ensures { IsSound self.now }
    {
        is_shared(self);
        let _ = &self.header;
    }
}

// Places of words: which addresses a segment has, where a word of 8 bytes may lie, and which words share a
// byte; and where an image's header stands.
mod close;
mod number;
mod record;
mod segment_index;
mod text;

pub use close::first_close;
pub use number::{half_at_address, number_at_address, value_at};
pub use record::{PlaceFault, locate, section_around};
pub use segment_index::{Inside, SegmentIndex};
pub use text::{header_address, text_number};

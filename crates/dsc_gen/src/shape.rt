// How large generated images are.

/// The size of generated images: pages of 4096 bytes in the text segment, and as many in the data segment;
/// pointers in the data, and as many deltas from the text to the data; and links to other images' symbols.
#[derive(Clone, Copy, Debug, PartialEq, Eq)]
pub struct Shape {
    pub pages: u32,
    pub pointers: u32,
    pub links: u32,
}

// What is told before the work on an image begins.

/// Is entered once for each image, before the bytes of that image are changed. It tells nothing.
pub trait Gate {
    /// The work on the image with this number begins.
    fn enter(&self, image: u32);
}

/// A gate that does nothing.
#[derive(Clone, Copy, Debug, PartialEq, Eq)]
pub struct OpenGate;

impl Gate for OpenGate {
    fn enter(&self, _image: u32) {}
}

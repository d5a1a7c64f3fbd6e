use std::alloc::{AllocError, Global};

/// A text that grows. Where memory is wanting for a part it takes no more, and says so at its end.
#[derive(Drop)]
pub struct TreeText {
    bytes: Vec<u8>,
    grown: Result<(), AllocError>,
}

impl TreeText {
    /// The empty text.
    pub fn new(alloc: Global) -> TreeText {
        TreeText {
            bytes: Vec::new(alloc),
            grown: Ok(()),
        }
    }

    /// Writes a part behind the text so far.
    pub fn put(&mut self, text: &[u8]) {
        if self.grown.is_ok() {
            self.grown = self.bytes.extend_from_slice(text);
        }
    }

    /// The whole text, or that memory was wanting.
    pub fn finish(self) -> Result<Vec<u8>, AllocError> {
        let TreeText { bytes, grown } = self;
        match grown {
            Ok(()) => Ok(bytes),
            Err(error) => Err(error),
        }
    }
}

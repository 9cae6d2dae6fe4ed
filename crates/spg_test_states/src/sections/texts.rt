use spg_base::{Bytes, Memory};
use spg_opclass::OpClass;
use spg_radix::{ByteText, Radix};

/// A class of texts.
pub(crate) trait Texts: OpClass {
    /// The key of a text.
    fn key(text: ByteText) -> Self::Key;
}

impl Texts for Radix {
    fn key(text: ByteText) -> ByteText {
        text
    }
}

/// The key of these bytes.
pub(crate) fn key_of<O: Texts>(text: Bytes) -> Result<O::Key, Memory> {
    match ByteText::new(text) {
        Some(text) => Ok(O::key(text)),
        None => Err(Memory),
    }
}

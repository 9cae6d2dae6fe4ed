// Texts as keys.
ghost use Rattle.std.specs.Prelude.{◌≡◌, ◌<◌, length, IfOk, IsErrOf};
ghost use Rattle.spgist.specs.declared.texts.TextRefused.TheVariants as refused;

use spg_base::{Bytes, Memory};
use spg_radix::ByteText;
use std::alloc::Global;

/// Why bytes are no key.
#[derive(Clone, Copy, Debug, PartialEq, Eq, thiserror::Error)]
pub enum TextRefused {
    /// There are more than 3,900 bytes.
    #[error("the text is longer than 3,900 bytes")]
    TooLong,
    /// Want of memory.
    #[error("out of memory")]
    Memory,
}

impl From<Memory> for TextRefused {
    ghost from_gives = { λ _ e. e ≡ refused.Memory };

    fn from(_: Memory) -> TextRefused {
        TextRefused::Memory
    }
}

/// The text of these bytes. `TooLong` only where there are more than 3,900.
pub fn text(alloc: Global, bytes: &[u8]) -> Result<ByteText, TextRefused>
    ensures ok { IfOk result (λ text. text ≡ bytes.now) }
    ensures long { IsErrOf result refused.TooLong → 3900 < length bytes.now }
{
    match ByteText::new(Bytes::copy(alloc, bytes)?) {
        Some(text) => Ok(text),
        None => Err(TextRefused::TooLong),
    }
}

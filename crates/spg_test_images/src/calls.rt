//! Calls of images, and what each is to answer.

use spg_base::Failed;
use spg_io::{Images, IoRefused};

/// A call with its answer, or a byte of the page that was read last.
#[derive(Clone, Copy)]
pub(crate) enum Call {
    Clear(Result<(), IoRefused>),
    /// Puts a page that is full of this byte.
    Put(u8, Result<(), IoRefused>),
    Len(Result<Option<u64>, Failed>),
    /// Reads the page of this block.
    Get(u32, Result<bool, Failed>),
    /// The byte that stands there.
    Holds(usize, u8),
}

/// Whether a call for a name answers so.
pub(crate) fn answers<I: Images>(
    images: &mut I,
    page: &mut [u8; 8192],
    name: &str,
    call: &Call,
) -> bool {
    match *call {
        Call::Clear(wanted) => images.clear(name) == wanted,
        Call::Put(byte, wanted) => images.put(name, &[byte; 8192]) == wanted,
        Call::Len(wanted) => images.len(name) == wanted,
        Call::Get(block, wanted) => images.get(name, block, page) == wanted,
        Call::Holds(at, byte) => page.get(at).copied() == Some(byte),
    }
}

/// Whether all calls, each for its name, answer so, one after another.
pub(crate) fn all_answer<I: Images>(images: &mut I, calls: &[(&str, Call)]) -> bool {
    let mut page = [0; 8192];
    for (name, call) in calls {
        if !answers(images, &mut page, name, call) {
            return false;
        }
    }
    true
}

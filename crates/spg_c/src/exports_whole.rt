// What C calls. Each answers a number: 0 where the call was done, else why it was not.
ghost use Rattle.std.specs.Prelude.{◌≡◌, length};
ghost use Rattle.spg_c.specs.Calls.{Opens};
ghost use Rattle.spg_c.specs.Held.{index_of};
ghost use Rattle.spg_c.specs.Images.{SavesAny, Loads, HandsFault};
ghost use Rattle.spg_c.specs.Handing.{HandsBytes, handed_out};
ghost use Rattle.spg_c.specs.Told.{IsTold, IsHanded};
ghost use Rattle.spg_c.specs.declared.any.AnyIndex.TheVariants.{Nothing};

use crate::handing::{fill_bytes, hand_fault, hand_image};
use crate::handle::SpgIndex;
use crate::refused::told;
use crate::texts::text_of;
use crate::values::SpgFault;
use crate::whole;
use std::alloc::Global;

/// An empty index of a class, of at most so many pages, 4 to 131,072. One that the handle had is gone then.
#[unsafe(no_mangle)]
pub extern "C" fn spg_c_open(alloc: Global, handle: &mut SpgIndex, class: u32, limit: u32) -> u32
    ensures { IsTold result (λ answer. Opens class limit (index_of handle.old) (index_of handle.new) answer) }
{
    told(whole::open(alloc, handle, class, limit))
}

/// Gives back the memory of the index. The handle may be opened again.
#[unsafe(no_mangle)]
pub extern "C" fn spg_c_close(handle: &mut SpgIndex)
    ensures { index_of handle.new ≡ Nothing }
{
    handle.close()
}

/// Writes the image of the index to the front of a buffer. `len` is how many bytes it has, also where there is no room for it.
#[unsafe(no_mangle)]
pub extern "C" fn spg_c_save(
    alloc: Global,
    handle: &mut SpgIndex,
    buffer: &mut [u8],
    len: &mut usize,
) -> u32
    ensures { IsHanded (λ answer. SavesAny (index_of handle.old) (index_of handle.new) answer) (λ answer. HandsBytes buffer.old buffer.new len.old len.new result answer) }
{
    hand_image(&whole::image(alloc, handle), buffer, len)
}

/// The index of a class whose image these bytes are. One that the handle had is gone then. Where they are none,
/// `fault` tells the first block that is wrong and why, and the handle stays as it was.
#[unsafe(no_mangle)]
pub extern "C" fn spg_c_load(
    alloc: Global,
    handle: &mut SpgIndex,
    class: u32,
    limit: u32,
    bytes: &[u8],
    fault: &mut SpgFault,
) -> u32
    ensures { IsHanded (λ answer. Loads class limit bytes.now (index_of handle.old) (index_of handle.new) answer) (λ answer. HandsFault fault.old fault.new result answer) }
{
    hand_fault(whole::load(alloc, handle, class, limit, bytes), fault)
}

/// Writes what an answer says, as much of it as there is room for, with no 0 behind it. Gives how many bytes it has.
#[unsafe(no_mangle)]
pub extern "C" fn spg_c_text(answer: u32, buffer: &mut [u8]) -> usize
    ensures { IsHanded (λ text. length text ≡ result) (λ text. buffer.new ≡ handed_out (λ n. n) text buffer.old) }
{
    let text = text_of(answer).as_bytes();
    fill_bytes(text, buffer);
    text.len()
}

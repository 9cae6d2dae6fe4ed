ghost use Rattle.std.specs.Prelude.{◌≡◌, OnOk};
ghost use Rattle.spg_core.specs.Stage.{free};
ghost use Rattle.spg_core.specs.Seen.{stage_at};

use crate::sections::driver::begin;
use crate::sections::texts::{Texts, key_of};
use spg_base::{Bytes, Memory, Row};
use spg_core::State;
use std::alloc::Global;

/// What the text of an inner tuple that is put below the root begins with, its last byte, and the
/// first byte for which it gains a node.
const FRONTS: [(&[u8], u8, u16); 4] = [
    (b"abc", b'd', 0),
    (b"ab", b'c', 0),
    (b"a", b'b', 0),
    (b"", b'a', 14),
];

/// A text of 3,900 bytes.
fn long_text(alloc: Global, end: u8) -> Result<Bytes, Memory> {
    let mut text = Bytes::copy(alloc, b"abcd")?;
    for _ in 0..3896 {
        text.push(end)?;
    }
    Ok(text)
}

/// Three texts of 3,900 bytes, which divide the root.
fn fill_root<O: Texts>(alloc: Global, state: &mut State<O>) -> Result<(), Memory>
    requires { stage_at state.old 0 ≡ free }
    ensures { OnOk result (stage_at state.new 0 ≡ free) }
{
    for number in 1..4u8 {
        let key = key_of::<O>(long_text(alloc, b'0' + number)?)?;
        begin(state, Row::at(1, u16::from(number)), Some(key), 8)?;
    }
    Ok(())
}

/// Does some sections of an insert that is given up, and so leaves no leaf.
fn try_text<O: Texts>(state: &mut State<O>, text: Bytes, sections: u8) -> Result<(), Memory>
    requires { stage_at state.old 0 ≡ free }
    ensures { OnOk result (stage_at state.new 0 ≡ free) }
{
    let key = key_of::<O>(text)?;
    begin(state, Row::at(2, 1), Some(key), sections)
}

/// A text of these bytes, first and last.
fn text_of(alloc: Global, upper: &[u8], ends: &[u8]) -> Result<Bytes, Memory> {
    let mut text = Bytes::copy(alloc, upper)?;
    text.extend(ends)?;
    Ok(text)
}

/// Splits the inner tuple of the root before the last byte of its prefix. What goes below gains a
/// node for the end of the text and one for each byte from the first on.
fn widen<O: Texts>(
    alloc: Global,
    state: &mut State<O>,
    upper: &[u8],
    last: u8,
    first: u16,
) -> Result<(), Memory>
    requires { stage_at state.old 0 ≡ free }
    ensures { OnOk result (stage_at state.new 0 ≡ free) }
{
    try_text(state, Bytes::copy(alloc, upper)?, 2)?;
    try_text(state, text_of(alloc, upper, &[last])?, 3)?;
    for byte in first..256 {
        let text = text_of(alloc, upper, &[last, byte as u8])?;
        try_text(state, text, 3)?;
    }
    Ok(())
}

/// Makes an empty index one of texts on six pages, whose clock is at 0. The last page has four inner
/// tuples, each below the next: three of 257 nodes and one of 243, which hangs from the root. Nothing is
/// free there.
pub(crate) fn widen_all<O: Texts>(alloc: Global, state: &mut State<O>) -> Result<(), Memory>
    requires { stage_at state.old 0 ≡ free }
    ensures { OnOk result (stage_at state.new 0 ≡ free) }
{
    fill_root(alloc, state)?;
    for (upper, last, first) in FRONTS {
        widen(alloc, state, upper, last, first)?;
    }
    Ok(())
}

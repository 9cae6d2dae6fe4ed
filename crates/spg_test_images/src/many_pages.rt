use spg_base::{Bytes, Memory, Row};
use spg_radix::{ByteText, Radix};
use spg_whole::Index;
use std::alloc::Global;
use std::test::Fail;

/// How many texts are put. Two have room on a page, and three not.
const COUNT: u16 = 2050;

const LENGTH: usize = 2750;

/// A text that begins with its number.
fn text(alloc: Global, number: u16) -> Result<ByteText, Memory> {
    let mut text = Bytes::new(alloc);
    text.extend(&number.to_be_bytes())?;
    text.extend(&[0; LENGTH])?;
    match ByteText::new(text) {
        Some(text) => Ok(text),
        None => Err(Memory),
    }
}

/// How many of the texts are put.
fn put_all(alloc: Global, index: &mut Index<Radix>) -> Result<u32, Memory> {
    let mut added = 0u32;
    for number in 1..=COUNT {
        let key = text(alloc, number)?;
        if index.insert(Row::at(1, number), Some(key)).is_ok() {
            added = added.saturating_add(1);
        }
    }
    Ok(added)
}

#[test]
fn sweeps_more_than_1000_pages(rt: HostRuntime) -> Result<(), Fail> {
    let mut index = Index::new(rt.alloc(), Radix, 65_536)?;
    assert_eq!(rt; put_all(rt.alloc(), &mut index)?, 2050);
    assert!(rt; index.stat().pages > 1000);
    assert!(rt; index.delete(Row::at(1, 1))? && index.delete(Row::at(1, COUNT))?);
    assert_eq!(rt; index.vacuum()?, 2);
    Ok(())
}

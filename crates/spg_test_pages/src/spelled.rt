//! How names and refusals are spelled, blocks that a section touched, a loop over a list.

use spg_base::{Block, List, Offset, Place, Point, Row, SeatNo, Span, Stamp};
use spg_tree::{PickRefused, Touched};
use std::process::Abort;
use std::test::Fail;

#[test]
fn names_are_spelled(rt: HostRuntime) -> Result<(), Fail> {
    let block = Block(7);
    let place = Place {
        block: Block(3),
        offset: Offset(4),
    };
    let stamp = Stamp::at(9);
    let seat = SeatNo::first();
    let span = Span { from: 2, to: 5 };
    let row = Row::at(1, 2);
    let point = Point { x: -1, y: 2 };
    let text = format!(in rt.alloc(); "{block} {place} {stamp} {seat} {span} {row} {point}")?;
    assert_eq!(rt; text.as_str(), "7 (3,4) 9 0 2..5 1.2 -1,2");
    let full = PickRefused::IndexFull;
    let refused = format!(in rt.alloc(); "{full}")?;
    assert_eq!(rt; refused.as_str(), "the index is full");
    Ok(())
}

#[test]
fn a_touched_block_is_read(rt: HostRuntime) -> Result<(), Fail> {
    let mut touched = Touched::new();
    touched.push(Block(5));
    assert!(rt; touched.get(0) == Some(Block(5)));
    assert!(rt; touched.get(1) == None);
    Ok(())
}

#[test]
fn a_list_is_walked(rt: HostRuntime) -> Result<(), Fail> {
    let mut rows = List::new(rt.alloc());
    rows.push(Row::at(1, 2))?;
    rows.push(Row::at(3, 4))?;
    let mut met = List::new(rt.alloc());
    for row in &rows {
        met.push(*row)?;
    }
    assert!(rt; met.as_slice() == [Row::at(1, 2), Row::at(3, 4)].as_slice());
    Ok(())
}

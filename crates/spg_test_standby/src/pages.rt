//! The pages of a standby beside those of its primary, one by one.

use crate::writes::row;
use spg_base::{Block, Bytes, Memory, Point};
use spg_kd::Kd;
use spg_opclass::{OpClass, Query, TakesValue, With, WithKey};
use spg_quad::Quad;
use spg_radix::{ByteText, Radix};
use spg_range::{Range32, Ranges};
use spg_standby::{Pair, Wrote};
use spg_tree::PageTable;
use std::alloc::Global;
use std::test::Fail;

/// How many records the standby may be behind.
const LAG: u32 = 5;

/// How many rows are put at first, and how many behind the first vacuum. Each third is deleted.
const FIRST: u16 = 600;

const LAST: u16 = 750;

/// A class that has a key for each number. Those of every fourth number are equal.
trait Numbered: OpClass {
    fn numbered(alloc: Global, number: u16) -> Result<Self::Key, Memory>;
}

fn point(number: u16) -> Point {
    let number = i32::from(number);
    if number % 4 == 0 {
        return Point { x: 0, y: 0 };
    }
    Point {
        x: number % 31,
        y: number % 37,
    }
}

impl Numbered for Quad {
    fn numbered(_alloc: Global, number: u16) -> Result<Point, Memory> {
        Ok(point(number))
    }
}

impl Numbered for Kd {
    fn numbered(_alloc: Global, number: u16) -> Result<Point, Memory> {
        Ok(point(number))
    }
}

impl Numbered for Radix {
    fn numbered(alloc: Global, number: u16) -> Result<ByteText, Memory> {
        let Point { x, y } = point(number);
        let bytes = [x.to_be_bytes(), y.to_be_bytes()];
        let mut text = Bytes::new(alloc);
        for four in &bytes {
            text.extend(four)?;
        }
        match ByteText::new(text) {
            Some(text) => Ok(text),
            None => Err(Memory),
        }
    }
}

impl Numbered for Ranges {
    fn numbered(_alloc: Global, number: u16) -> Result<Range32, Memory> {
        let Point { x, y } = point(number);
        match Range32::new(x, x.saturating_add(y)) {
            Some(range) => Ok(range),
            None => Ok(Range32::empty()),
        }
    }
}

impl<O: Numbered + TakesValue> Numbered for With<O> {
    fn numbered(alloc: Global, number: u16) -> Result<WithKey<O::Key>, Memory> {
        Ok(WithKey {
            key: O::numbered(alloc, number)?,
            value: u64::from(number),
        })
    }
}

/// How many of these rows are put.
fn put<O: Numbered>(alloc: Global, pair: &mut Pair<O>, from: u16, to: u16) -> Result<u32, Memory> {
    let mut added = 0u32;
    for number in from..=to {
        let key = O::numbered(alloc, number)?;
        if pair.insert(row(number), Some(key)).0 == Wrote::Added {
            added = added.saturating_add(1);
        }
    }
    Ok(added)
}

/// How many of each third row are deleted.
fn kill<O: OpClass>(pair: &mut Pair<O>) -> u32 {
    let mut killed = 0u32;
    for number in 1..=FIRST {
        if number % 3 == 0 && pair.kill(row(number)).0 == Wrote::Killed {
            killed = killed.saturating_add(1);
        }
    }
    killed
}

/// Whether rows are put, deleted and swept, and others put; a second vacuum then sweeps none.
fn changes<O: Numbered>(alloc: Global, pair: &mut Pair<O>) -> Result<bool, Memory> {
    Ok(
        put(alloc, pair, 1, FIRST)? == 600
            && kill(pair) == 200
            && pair.vacuum().0 == Wrote::Vacuumed(200)
            && put(alloc, pair, FIRST + 1, LAST)? == 150
            && pair.vacuum().0 == Wrote::Vacuumed(0),
    )
}

/// Whether chains were moved and divided, on several pages.
fn was_changed<O: OpClass>(pair: &Pair<O>) -> bool {
    let pages = pair.primary().pages();
    pages.page_count() > 5 && pages.clock() > 0
}

/// Whether finds leave no record queued.
fn catches_up<O: OpClass>(pair: &mut Pair<O>) -> Result<bool, Memory> {
    for _turn in 0..LAG {
        let _found = pair.find(Query::All)?;
    }
    Ok(pair.queued() == 0)
}

fn is_same_page(one: &PageTable, other: &PageTable, block: u32) -> bool {
    let at = Block(block);
    block < one.page_count()
        && block < other.page_count()
        && one.page(at).bytes() == other.page(at).bytes()
}

/// Whether all pages are the same, and the clock.
fn are_same(one: &PageTable, other: &PageTable) -> bool {
    if one.page_count() != other.page_count() || one.clock() != other.clock() {
        return false;
    }
    for block in 0..one.page_count() {
        if !is_same_page(one, other, block) {
            return false;
        }
    }
    true
}

/// Whether the standby has the primary's pages, and has applied all its events.
fn is_level<O: OpClass>(pair: &Pair<O>) -> bool {
    are_same(pair.primary().pages(), pair.follower().pages())
        && pair.follower().applied() == pair.primary().journal().len()
}

fn is_level_then<O: Numbered>(alloc: Global, class: O) -> Result<bool, Memory> {
    let mut pair = Pair::new(alloc, class, 4096, LAG)?;
    Ok(
        changes(alloc, &mut pair)?
            && was_changed(&pair)
            && catches_up(&mut pair)?
            && is_level(&pair),
    )
}

#[test]
fn a_standby_of_a_quad_tree_has_the_pages_of_its_primary(rt: HostRuntime) -> Result<(), Fail> {
    assert!(rt; is_level_then(rt.alloc(), Quad)?);
    Ok(())
}

#[test]
fn a_standby_of_a_kd_tree_has_the_pages_of_its_primary(rt: HostRuntime) -> Result<(), Fail> {
    assert!(rt; is_level_then(rt.alloc(), Kd)?);
    Ok(())
}

#[test]
fn a_standby_of_a_radix_tree_has_the_pages_of_its_primary(rt: HostRuntime) -> Result<(), Fail> {
    assert!(rt; is_level_then(rt.alloc(), Radix)?);
    Ok(())
}

#[test]
fn a_standby_of_ranges_has_the_pages_of_its_primary(rt: HostRuntime) -> Result<(), Fail> {
    assert!(rt; is_level_then(rt.alloc(), Ranges)?);
    Ok(())
}

#[test]
fn a_standby_of_points_with_numbers_has_the_pages_of_its_primary(
    rt: HostRuntime,
) -> Result<(), Fail> {
    assert!(rt; is_level_then(rt.alloc(), With { inner: Quad })?);
    assert!(rt; is_level_then(rt.alloc(), With { inner: Kd })?);
    Ok(())
}

#[test]
fn a_standby_of_texts_with_numbers_has_the_pages_of_its_primary(
    rt: HostRuntime,
) -> Result<(), Fail> {
    assert!(rt; is_level_then(rt.alloc(), With { inner: Radix })?);
    Ok(())
}

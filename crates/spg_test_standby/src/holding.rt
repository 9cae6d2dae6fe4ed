//! Finds that hold a record back. What they answer comes from another model.

use crate::writes::{Keys, ORIGIN, Write, count, done, put_all};
use spg_base::{Memory, Point};
use spg_quad::Quad;
use spg_standby::{Pair, Wrote};
use std::alloc::Global;
use std::test::Fail;

/// Whether four finds follow what divided the root, and a find behind them holds back the record by which
/// a vacuum takes a redirect away. The redirect came while this find was open; the find behind it has
/// none to hold.
fn holds_a_redirect(pair: &mut Pair<Quad>) -> Result<bool, Memory> {
    Ok(
        put_all(pair, 292, Keys::Equal) == 292
            && count(pair)? == (577, 579, 289)
            && count(pair)? == (579, 580, 289)
            && count(pair)? == (580, 581, 290)
            && count(pair)? == (581, 583, 291)
            && done(pair, Write::Put(293, ORIGIN)) == (Wrote::Added, 586)
            && done(pair, Write::Vacuum) == (Wrote::Vacuumed(0), 588)
            && count(pair)? == (583, 587, 292)
            && count(pair)? == (587, 588, 293),
    )
}

/// The same of a new pair.
fn holds_a_redirect_at(alloc: Global, lag: u32) -> Result<bool, Memory> {
    let mut pair = Pair::new(alloc, Quad, 4096, lag)?;
    holds_a_redirect(&mut pair)
}

/// A record waits for the find that needs a redirect.
#[test]
fn a_redirect_stays_for_an_open_find(rt: HostRuntime) -> Result<(), Fail> {
    assert!(rt; holds_a_redirect_at(rt.alloc(), 12)?);
    Ok(())
}

/// Whether a row is deleted and swept and a row put then, where 600 rows stand.
fn sweeps_one(pair: &mut Pair<Quad>, then: u16) -> Result<bool, Memory> {
    Ok(
        put_all(pair, 600, Keys::Spread) == 600
            && count(pair)? == (1192, 1200, 598)
            && done(pair, Write::Kill(1)) == (Wrote::Killed, 1201)
            && done(pair, Write::Vacuum) == (Wrote::Vacuumed(1), 1204)
            && done(pair, Write::Put(then, SPOT)) == (Wrote::Added, 1206),
    )
}

const SPOT: Option<Point> = Some(Point { x: 5, y: 5 });

/// What two finds give, where the row that is put after the vacuum has this offset.
fn found_then(alloc: Global, then: u16) -> Result<Option<[(u64, u64, usize); 2]>, Memory> {
    let mut pair = Pair::new(alloc, Quad, 4096, 20)?;
    if !sweeps_one(&mut pair, then)? {
        return Ok(None);
    }
    Ok(Some([count(&mut pair)?, count(&mut pair)?]))
}

/// The record that puts a row again waits for the find that was open when the row was swept. One that
/// puts another row does not.
#[test]
fn a_row_is_not_used_again_under_an_open_find(rt: HostRuntime) -> Result<(), Fail> {
    let again = found_then(rt.alloc(), 1)?;
    assert_eq!(rt; again, Some([(1200, 1204, 599), (1204, 1206, 600)]));
    let other = found_then(rt.alloc(), 601)?;
    assert_eq!(rt; other, Some([(1200, 1206, 600), (1206, 1206, 600)]));
    Ok(())
}

use crate::near::cases::{CASES, Case};
use crate::near::others::Others;
use crate::near::turns::{Turn, take_turn};
use spg_among::{NearOut, near_among};
use spg_base::{Memory, Point, SeatNo};
use spg_core::{OpenKind, State};
use spg_kd::Kd;
use spg_near::{NearClass, NearRow};
use spg_quad::Quad;
use std::alloc::Global;
use std::test::Fail;

/// Searches by seat 0, where it has nothing open.
pub(crate) fn search<O: NearClass>(
    alloc: Global,
    state: &mut State<O>,
    target: Point,
    limit: u16,
    others: &mut Others<'_>,
) -> Result<Option<NearOut>, Memory> {
    if limit == 0 {
        return Ok(None);
    }
    match state.open_of(SeatNo::first()) {
        OpenKind::Nothing => {
            let out = near_among(alloc, state, SeatNo::first(), target, limit, others)?;
            Ok(Some(out))
        }
        _ => Ok(None),
    }
}

/// Takes turns one after another. False where one could not be done.
pub(crate) fn take_turns<O: NearClass>(state: &mut State<O>, by: SeatNo, turns: &[Turn]) -> bool {
    for turn in turns {
        if !take_turn(state, by, *turn) {
            return false;
        }
    }
    true
}

/// Does what a case says. None where another seat's turn could not be done.
fn go<O: NearClass>(
    alloc: Global,
    state: &mut State<O>,
    by: SeatNo,
    case: &Case,
) -> Result<Option<NearOut>, Memory> {
    if !take_turns(state, by, case.before) {
        return Ok(None);
    }
    let mut others = Others::new(by, case.between);
    let out = search(alloc, state, case.target, case.limit, &mut others)?;
    Ok(if others.is_done() { out } else { None })
}

/// Whether these rows begin with those.
fn begin_with(rows: &[NearRow], first: &[(u16, u128)]) -> bool {
    for i in 0..first.len() {
        let (offset, distance) = first[i];
        match rows.get(i) {
            Some(near) if near.row.offset() == offset && near.distance == distance => {}
            _ => return false,
        }
    }
    true
}

/// Whether the search gave what it had to.
fn is_given(out: &Option<NearOut>, case: &Case) -> bool {
    match (out, case.count) {
        (Some(NearOut::Near { rows, .. }), Some(count)) => {
            rows.len() == count && begin_with(rows.as_slice(), case.rows)
        }
        (Some(NearOut::Latched { by, .. }), None) => by.number() == 1,
        _ => false,
    }
}

/// Whether the case comes out as it says in a new index.
fn is_right<O: NearClass>(
    alloc: Global,
    class: O,
    case: &Case,
    stats: (u64, u64),
) -> Result<bool, Memory> {
    let by = SeatNo::new(1).unwrap_or(SeatNo::first());
    let mut state = State::new(alloc, class, 65536)?;
    let out = go(alloc, &mut state, by, case)?;
    let stat = state.stat();
    Ok((stat.inner, stat.redirect) == stats && is_given(&out, case))
}

#[test]
fn gives_the_nearest_whatever_others_do(rt: HostRuntime) -> Result<(), Fail> {
    for (row, case) in CASES.iter().enumerate() {
        assert!(rt; is_right(rt.alloc(), Quad, case, case.quad)?, "row {row}");
        assert!(rt; is_right(rt.alloc(), Kd, case, case.kd)?, "row {row}");
    }
    Ok(())
}

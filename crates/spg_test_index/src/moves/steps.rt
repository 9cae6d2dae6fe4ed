//! Calls of two seats, and what they are to answer.

use crate::calls::{insert_step, kill, open_insert, open_vacuum, vacuum_step};
use crate::moves::places::{At, Stands, stands_at};
use spg_base::{Memory, Point, Row, SeatNo};
use spg_core::{InsertOut, State, VacuumOut};
use spg_quad::Quad;
use std::alloc::Global;

/// A call with its answer, or what stands at a place. Seat 0 deletes and inserts, another seat has the
/// vacuum. With a section of the vacuum stand the blocks that it changes.
#[derive(Clone, Copy)]
pub(crate) enum Step {
    Kills(At),
    OpensVacuum,
    Vacuums(VacuumOut, &'static [u32]),
    OpensInsert(At, (i32, i32)),
    Inserts(InsertOut),
    Holds(At, Stands),
}

fn row_of(at: At) -> Option<Row> {
    let (block, offset) = at;
    Row::new(block, offset)
}

/// Whether a row is deleted.
fn kills(state: &mut State<Quad>, at: At) -> bool {
    match row_of(at) {
        Some(row) => kill(state, SeatNo::first(), row) == Some(Ok(true)),
        None => false,
    }
}

/// Whether an insert opens.
fn opens_insert(state: &mut State<Quad>, at: At, point: (i32, i32)) -> bool {
    let (x, y) = point;
    match row_of(at) {
        Some(row) => {
            open_insert(state, SeatNo::first(), row, Some(Point { x, y })) == Some(Ok(()))
        }
        None => false,
    }
}

/// Whether the last section changed just these blocks.
fn has_touched(state: &State<Quad>, blocks: &[u32]) -> bool {
    state.touched().as_slice() == blocks
}

/// Whether an insert answers so.
fn inserts(state: &mut State<Quad>, out: InsertOut) -> bool {
    insert_step(state, SeatNo::first()) == Some(Ok(out))
}

/// Whether a vacuum answers so.
fn vacuums(state: &mut State<Quad>, seat: SeatNo, out: VacuumOut, blocks: &[u32]) -> bool {
    vacuum_step(state, seat) == Some(Ok(out)) && has_touched(state, blocks)
}

/// Whether a step comes out as it says.
pub(crate) fn is_so(
    alloc: Global,
    state: &mut State<Quad>,
    second: SeatNo,
    step: &Step,
) -> Result<bool, Memory> {
    match *step {
        Step::Kills(row) => Ok(kills(state, row)),
        Step::OpensVacuum => Ok(open_vacuum(state, second) == Some(Ok(()))),
        Step::Vacuums(out, blocks) => Ok(vacuums(state, second, out, blocks)),
        Step::OpensInsert(row, point) => Ok(opens_insert(state, row, point)),
        Step::Inserts(out) => Ok(inserts(state, out)),
        Step::Holds(at, stands) => Ok(stands_at(alloc, state, at)? == stands),
    }
}

//! 64 seats do the sections of inserts, deletions, scans and vacuums in an order that a seed gives, and
//! the journal that comes of it is replayed over a plain list of lives.

ghost use Rattle.std.specs.Prelude.{◌<◌};

use crate::calls::{
    close_scan, give_up, insert_or_give_up, kill, open_insert, open_scan, open_vacuum, scan_read,
    vacuum_step,
};
use crate::lives::ROWS;
use crate::replay::judge;
use spg_base::{List, Memory, Point, PointCond, Row, SeatNo};
use spg_core::{
    InsertOut, OpenKind, OpenRefused, ReadOut, State, StepRefused, VacuumOut, VacuumRefused,
};
use spg_opclass::Query;
use spg_quad::Quad;
use spg_rows::Journal;
use std::alloc::Global;
use std::mem;
use std::test::Fail;

/// How many turns an order has. In a turn one seat does up to eight sections.
const TURNS: u32 = 2_000;

/// Numbers that follow from a seed.
#[derive(Drop)]
struct Draw {
    last: u32,
}

impl Draw {
    /// A number below this one.
    fn below(&mut self, end: u32) -> u32
        requires { 0 < end }
        ensures { result < end }
    {
        self.last = self
            .last
            .wrapping_mul(1_664_525)
            .wrapping_add(1_013_904_223);
        (self.last >> 8) % end
    }

    /// The index of one of so many items.
    fn index(&mut self, count: usize) -> usize
        requires { 0 < count }
        ensures { result < count }
    {
        self.below(u32::MAX) as usize % count
    }
}

/// How often seats met one another, who was met last, and how many rows were deleted.
#[derive(Drop)]
struct Met {
    last: Option<SeatNo>,
    restarted: u32,
    latched: u32,
    killed: u32,
    held: u32,
}

/// A row of the plain list.
fn row_in(draw: &mut Draw) -> Row {
    Row::at(1, draw.below(u32::from(ROWS)) as u16 + 1)
}

/// A point of a small grid, so that chains move and divide, or a null.
fn key_in(draw: &mut Draw) -> Option<Point> {
    if draw.below(16) == 0 {
        return None;
    }
    Some(Point {
        x: draw.below(40) as i32,
        y: draw.below(3) as i32,
    })
}

fn query_in(alloc: Global, draw: &mut Draw) -> Result<Query<Quad>, Memory> {
    match draw.below(4) {
        0 => Ok(Query::All),
        1 => Ok(Query::Null),
        _ => {
            let mut conds = List::new(alloc);
            conds.push(PointCond::Left(draw.below(40) as i32))?;
            Ok(Query::Where(conds))
        }
    }
}

/// A seat with nothing open opens an insert, a scan or a vacuum, or deletes a row.
fn begin(
    alloc: Global,
    state: &mut State<Quad>,
    seat: SeatNo,
    draw: &mut Draw,
    met: &mut Met,
) -> Result<(), Memory> {
    match draw.below(16) {
        0 | 1 => open_scan(state, seat, query_in(alloc, draw)?).unwrap_or(Ok(())),
        3 => begin_vacuum(state, seat, met),
        4 | 5 | 6 | 7 => kill_one(state, seat, draw, met),
        _ => begin_insert(state, seat, draw, met),
    }
}

/// Deletes a row.
fn kill_one(
    state: &mut State<Quad>,
    seat: SeatNo,
    draw: &mut Draw,
    met: &mut Met,
) -> Result<(), Memory> {
    if let Some(killed) = kill(state, seat, row_in(draw))
        && killed?
    {
        met.killed = met.killed.saturating_add(1);
    }
    Ok(())
}

/// Notes for whom a row waits.
fn note_refused(refused: &OpenRefused, met: &mut Met) -> Result<(), Memory> {
    match refused {
        OpenRefused::RowUsed => Ok(()),
        OpenRefused::RowHeld { by } => {
            met.last = Some(*by);
            met.held = met.held.saturating_add(1);
            Ok(())
        }
        OpenRefused::Memory => Err(Memory),
    }
}

/// Notes who has a vacuum open.
fn note_open(refused: &VacuumRefused, met: &mut Met) -> Result<(), Memory> {
    match refused {
        VacuumRefused::Open { by } => {
            met.last = Some(*by);
            Ok(())
        }
        VacuumRefused::Memory => Err(Memory),
    }
}

/// Opens an insert of a row, unless it is used or waits for a seat.
fn begin_insert(
    state: &mut State<Quad>,
    seat: SeatNo,
    draw: &mut Draw,
    met: &mut Met,
) -> Result<(), Memory> {
    match open_insert(state, seat, row_in(draw), key_in(draw)) {
        Some(Err(refused)) => note_refused(&refused, met),
        _ => Ok(()),
    }
}

/// Opens a vacuum, unless a seat has one open.
fn begin_vacuum(state: &mut State<Quad>, seat: SeatNo, met: &mut Met) -> Result<(), Memory> {
    match open_vacuum(state, seat) {
        Some(Err(refused)) => note_open(&refused, met),
        _ => Ok(()),
    }
}

/// The next section of a seat's vacuum, which now and then is given up.
fn sweep(
    state: &mut State<Quad>,
    seat: SeatNo,
    draw: &mut Draw,
    met: &mut Met,
) -> Result<(), Memory> {
    if draw.below(60) == 0 {
        give_up(state, seat);
        return Ok(());
    }
    match vacuum_step(state, seat) {
        Some(Ok(out)) => note_sweep(&out, met),
        Some(Err(memory)) => return Err(memory),
        None => {}
    }
    Ok(())
}

/// Notes whom a vacuum has met.
fn note_sweep(out: &VacuumOut, met: &mut Met) {
    if let VacuumOut::Latched { by, .. } = out {
        met.last = Some(*by);
        met.latched = met.latched.saturating_add(1);
    }
}

/// Notes whom an insert has met.
fn note_section(out: &InsertOut, met: &mut Met) {
    if let InsertOut::Restarted { by, .. } = out {
        met.last = Some(*by);
        met.restarted = met.restarted.saturating_add(1);
    }
}

/// Notes whom a scan has met.
fn note_read(out: &ReadOut, met: &mut Met) {
    if let ReadOut::Latched { by, .. } = out {
        met.last = Some(*by);
        met.latched = met.latched.saturating_add(1);
    }
}

/// The next section of a seat's insert, which now and then is given up.
fn step(
    state: &mut State<Quad>,
    seat: SeatNo,
    draw: &mut Draw,
    met: &mut Met,
) -> Result<(), Memory> {
    if draw.below(40) == 0 {
        give_up(state, seat);
        return Ok(());
    }
    match insert_or_give_up(state, seat) {
        Some(Ok(out)) => note_section(&out, met),
        Some(Err(StepRefused::Memory)) => return Err(Memory),
        _ => {}
    }
    Ok(())
}

/// Ends a seat's scan.
fn close(state: &mut State<Quad>, seat: SeatNo) -> Result<(), Memory> {
    match close_scan(state, seat) {
        Some(Err(memory)) => Err(memory),
        _ => Ok(()),
    }
}

/// Reads an item of a seat's scan, which holds so many.
fn read(
    state: &mut State<Quad>,
    seat: SeatNo,
    held: usize,
    draw: &mut Draw,
    met: &mut Met,
) -> Result<(), Memory> {
    if held == 0 {
        return close(state, seat);
    }
    if let Some(out) = scan_read(state, seat, draw.index(held)) {
        note_read(&out?, met);
    }
    Ok(())
}

/// A seat goes on with what it has open, or opens something.
fn act(
    alloc: Global,
    state: &mut State<Quad>,
    seat: SeatNo,
    draw: &mut Draw,
    met: &mut Met,
) -> Result<(), Memory> {
    match state.open_of(seat) {
        OpenKind::Nothing => begin(alloc, state, seat, draw, met),
        OpenKind::Insert => step(state, seat, draw, met),
        OpenKind::Scan { held } => read(state, seat, held, draw, met),
        OpenKind::Vacuum => sweep(state, seat, draw, met),
    }
}

/// The seat whose turn is next: often the one that another has met.
fn next_seat(draw: &mut Draw, met: &mut Met) -> Option<SeatNo> {
    if draw.below(4) > 0 && met.last.is_some() {
        return met.last.take();
    }
    SeatNo::new(draw.below(64) as u8)
}

/// A seat does up to eight sections.
fn take_turn(
    alloc: Global,
    state: &mut State<Quad>,
    draw: &mut Draw,
    met: &mut Met,
) -> Result<(), Memory> {
    let Some(seat) = next_seat(draw, met) else {
        return Ok(());
    };
    for _ in 0..draw.below(8) + 1 {
        act(alloc, state, seat, draw, met)?;
    }
    Ok(())
}

/// Takes all turns of an order.
fn take_turns(
    alloc: Global,
    state: &mut State<Quad>,
    draw: &mut Draw,
    met: &mut Met,
) -> Result<(), Memory> {
    for _ in 0..TURNS {
        take_turn(alloc, state, draw, met)?;
    }
    Ok(())
}

/// The journal is right, and vacuums swept rows that were inserted again.
fn is_right_journal(alloc: Global, journal: &Journal<Quad>) -> Result<bool, Memory> {
    match judge(alloc, journal)? {
        Some(done) => Ok(done.vacuums > 40 && done.swept > 200 && done.again > 50),
        None => Ok(false),
    }
}

/// Seats met each other often.
fn is_busy(met: &Met) -> bool {
    met.restarted > 100 && met.latched > 100 && met.killed > 100 && met.held > 20
}

/// Chains were moved or divided, and inner tuples made.
fn is_restructured(state: &State<Quad>) -> bool {
    let stat = state.stat();
    stat.inner > 1 && stat.redirect > 0
}

/// Whether an order keeps a state's journal right, and has enough of everything.
fn goes_right(alloc: Global, state: &mut State<Quad>, seed: u32) -> Result<bool, Memory> {
    let mut draw = Draw { last: seed };
    let mut met = Met {
        last: None,
        restarted: 0,
        latched: 0,
        killed: 0,
        held: 0,
    };
    take_turns(alloc, state, &mut draw, &mut met)?;
    Ok(is_right_journal(alloc, state.journal())? && is_busy(&met) && is_restructured(state))
}

/// The same on a new state.
fn starts_right(alloc: Global, seed: u32) -> Result<bool, Memory> {
    let mut state = State::new(alloc, Quad, 65536)?;
    let right = goes_right(alloc, &mut state, seed);
    mem::forget(state);
    right
}

/// Each closed scan gave each row once that it must give, and none that it may not give; each closed
/// vacuum swept all rows that were deleted before it opened, and no other; and no row was used again
/// before its time, though seats met each other's latches and the index was restructured under them.
#[test]
fn keeps_the_journal_right_over_many_seats(rt: HostRuntime) -> Result<(), Fail> {
    assert!(rt; starts_right(rt.alloc(), 7)?);
    Ok(())
}

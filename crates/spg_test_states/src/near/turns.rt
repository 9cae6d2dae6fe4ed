// What another seat does between two reads of a search.
ghost use Rattle.spg_test_states.specs.Works.{Works};

use spg_base::{Point, Row, SeatNo};
use spg_core::{InsertOut, OpenKind, State, VacuumOut};
use spg_opclass::OpClass;

/// What a seat does at a turn.
#[derive(Clone, Copy, Debug)]
pub enum Turn {
    /// Nothing.
    Wait,
    /// It inserts so many points of a line, (x, y), (x + by, y), (x + 2 by, y) and so on, as rows 1.N,
    /// 1.N+1 and so on.
    Insert {
        row: u16,
        x: i32,
        y: i32,
        by: i32,
        count: u16,
    },
    /// It inserts a null as row 1.N.
    Null {
        row: u16,
    },
    /// It opens an insert of row 1.N, and comes to the root, which it latches.
    Begin {
        row: u16,
        x: i32,
        y: i32,
    },
    /// It deletes row 1.N.
    Kill {
        row: u16,
    },
    /// It vacuums, to the end.
    Vacuum,
    /// It inserts the points of a line, and vacuums.
    InsertAndVacuum {
        row: u16,
        x: i32,
        y: i32,
        by: i32,
        count: u16,
    },
}

/// Row 1.N. There is no row 1.0.
pub(crate) fn row_of(number: u16) -> Row {
    Row::at(1, number.max(1))
}

/// Opens an insert. False where that is refused.
fn open<O: OpClass>(state: &mut State<O>, by: SeatNo, row: Row, key: Option<O::Key>) -> bool
    ensures { Works O.meaning by state.old state.new }
{
    match state.open_of(by) {
        OpenKind::Nothing => match state.open_insert(by, row, key) {
            Ok(()) => true,
            Err(_) => false,
        },
        _ => false,
    }
}

/// The next section of an insert. None where it is refused.
fn step<O: OpClass>(state: &mut State<O>, by: SeatNo) -> Option<InsertOut>
    ensures { Works O.meaning by state.old state.new }
{
    match state.open_of(by) {
        OpenKind::Insert => match state.insert_step(by) {
            Ok(out) => Some(out),
            Err(_) => None,
        },
        _ => None,
    }
}

/// Sections of an insert until its row is put. False where it is refused or sent back.
fn put<O: OpClass>(state: &mut State<O>, by: SeatNo) -> bool
    ensures { Works O.meaning by state.old state.new }
{
    for _ in 0..100 {
        let out = step(state, by);
        if out == Some(InsertOut::Put) {
            return true;
        }
    }
    false
}

/// Deletes a row. False where it is not live.
fn kill<O: OpClass>(state: &mut State<O>, by: SeatNo, row: Row) -> bool
    ensures { Works O.meaning by state.old state.new }
{
    match state.open_of(by) {
        OpenKind::Nothing => match state.kill(by, row) {
            Ok(killed) => killed,
            Err(_) => false,
        },
        _ => false,
    }
}

/// Opens a vacuum. False where that is refused.
fn open_vacuum<O: OpClass>(state: &mut State<O>, by: SeatNo) -> bool
    ensures { Works O.meaning by state.old state.new }
{
    match state.open_of(by) {
        OpenKind::Nothing => match state.open_vacuum(by) {
            Ok(()) => true,
            Err(_) => false,
        },
        _ => false,
    }
}

/// The next section of a vacuum. None where it is refused.
fn sweep<O: OpClass>(state: &mut State<O>, by: SeatNo) -> Option<VacuumOut>
    ensures { Works O.meaning by state.old state.new }
{
    match state.open_of(by) {
        OpenKind::Vacuum => match state.vacuum_step(by) {
            Ok(out) => Some(out),
            Err(_) => None,
        },
        _ => None,
    }
}

/// Whether a vacuum has ended.
fn has_ended(out: Option<VacuumOut>) -> bool {
    match out {
        Some(VacuumOut::Finished { .. }) => true,
        _ => false,
    }
}

/// Sections of a vacuum to its end. False where it is refused or comes to a latched block.
fn sweep_all<O: OpClass>(state: &mut State<O>, by: SeatNo) -> bool
    ensures { Works O.meaning by state.old state.new }
{
    for _ in 0..1_000 {
        let out = sweep(state, by);
        if has_ended(out) {
            return true;
        }
    }
    false
}

/// Inserts a key. False where it is refused or sent back.
fn insert<O: OpClass>(state: &mut State<O>, by: SeatNo, row: Row, key: Option<O::Key>) -> bool
    ensures { Works O.meaning by state.old state.new }
{
    open(state, by, row, key) && put(state, by)
}

/// Inserts the points of a line. False where one is refused or sent back.
fn insert_line<O: OpClass<Key = Point>>(
    state: &mut State<O>,
    seat: SeatNo,
    row: u16,
    from: Point,
    by: i32,
    count: u16,
) -> bool
    ensures { Works O.meaning seat state.old state.new }
{
    let mut point = from;
    for index in 0..count {
        if !insert(state, seat, row_of(row.wrapping_add(index)), Some(point)) {
            return false;
        }
        point.x = point.x.wrapping_add(by);
    }
    true
}

/// Vacuums. False where that is refused or comes to a latched block.
fn vacuum<O: OpClass>(state: &mut State<O>, by: SeatNo) -> bool
    ensures { Works O.meaning by state.old state.new }
{
    open_vacuum(state, by) && sweep_all(state, by)
}

/// Takes a turn. False where it could not be done.
pub(crate) fn take_turn<O: OpClass<Key = Point>>(
    state: &mut State<O>,
    seat: SeatNo,
    turn: Turn,
) -> bool
    ensures { Works O.meaning seat state.old state.new }
{
    match turn {
        Turn::Wait => true,
        Turn::Insert {
            row,
            x,
            y,
            by,
            count,
        } => insert_line(state, seat, row, Point { x, y }, by, count),
        Turn::Null { row } => insert(state, seat, row_of(row), None),
        Turn::Begin { row, x, y } => {
            open(state, seat, row_of(row), Some(Point { x, y })) && step(state, seat).is_some()
        }
        Turn::Kill { row } => kill(state, seat, row_of(row)),
        Turn::Vacuum => vacuum(state, seat),
        Turn::InsertAndVacuum {
            row,
            x,
            y,
            by,
            count,
        } => insert_line(state, seat, row, Point { x, y }, by, count) && vacuum(state, seat),
    }
}

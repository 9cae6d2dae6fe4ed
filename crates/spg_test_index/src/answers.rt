//! Calls of a seat, and what each answers.

use crate::calls::{
    close_scan, give_up, insert_step, kill, open_insert, open_scan, open_vacuum, scan_read,
    vacuum_step,
};
use spg_base::{Memory, Point, Row, SeatNo};
use spg_core::{InsertOut, OpenRefused, ReadOut, State, StepRefused, VacuumOut, VacuumRefused};
use spg_opclass::Query;
use spg_quad::Quad;

/// What a seat does.
#[derive(Clone, Copy)]
pub(crate) enum Call {
    /// Opens an insert of the point 0,0 with a row of block 9.
    Insert(u16),
    /// The next section of its insert.
    Step,
    /// Opens a scan of all.
    Scan,
    /// Reads an item of its scan.
    Read(usize),
    Close,
    GiveUp,
    /// Deletes a row of block 9.
    Kill(u16),
    /// Opens a vacuum.
    Vacuum,
    /// The next section of its vacuum.
    Sweep,
}

/// What a call answered, with the block and the seat that it names.
#[derive(Clone, Copy, PartialEq, Eq)]
pub(crate) enum Answer {
    Done,
    Descended,
    Restructured,
    Restarted(u32, u8),
    Put,
    Latched(u32, u8),
    /// So many rows, of so many tuples that were met.
    Closed(usize, u64),
    RowUsed,
    /// The row waits for this seat.
    RowHeld(u8),
    Full,
    NotLive,
    /// This seat has a vacuum open.
    Open(u8),
    Block,
    Pending,
    Finished(u64),
    /// The seat has something else open.
    No,
}

fn row(offset: u16) -> Row {
    Row::at(9, offset.max(1))
}

/// Why an insert was not opened.
fn refused(why: &OpenRefused) -> Result<Answer, Memory> {
    match why {
        OpenRefused::RowUsed => Ok(Answer::RowUsed),
        OpenRefused::RowHeld { by } => Ok(Answer::RowHeld(by.number())),
        OpenRefused::Memory => Err(Memory),
    }
}

fn opened(came: &Option<Result<(), OpenRefused>>) -> Result<Answer, Memory> {
    match came {
        Some(Ok(())) => Ok(Answer::Done),
        Some(Err(why)) => refused(why),
        None => Ok(Answer::No),
    }
}

fn section(out: &InsertOut) -> Answer {
    match out {
        InsertOut::Descended => Answer::Descended,
        InsertOut::Restructured => Answer::Restructured,
        InsertOut::Restarted { block, by } => Answer::Restarted(block.0, by.number()),
        InsertOut::Put => Answer::Put,
    }
}

fn stepped(came: &Option<Result<InsertOut, StepRefused>>) -> Result<Answer, Memory> {
    match came {
        Some(Ok(out)) => Ok(section(out)),
        Some(Err(StepRefused::Memory)) => Err(Memory),
        Some(Err(_)) => Ok(Answer::Full),
        None => Ok(Answer::No),
    }
}

fn item(out: &ReadOut) -> Answer {
    match out {
        ReadOut::Read => Answer::Done,
        ReadOut::Latched { block, by } => Answer::Latched(block.0, by.number()),
    }
}

fn read(came: &Option<Result<ReadOut, Memory>>) -> Result<Answer, Memory> {
    match came {
        Some(Ok(out)) => Ok(item(out)),
        Some(Err(_)) => Err(Memory),
        None => Ok(Answer::No),
    }
}

fn block(out: &VacuumOut) -> Answer {
    match out {
        VacuumOut::Block => Answer::Block,
        VacuumOut::Pending => Answer::Pending,
        VacuumOut::Latched { block, by } => Answer::Latched(block.0, by.number()),
        VacuumOut::Finished { swept } => Answer::Finished(*swept),
    }
}

fn swept(came: &Option<Result<VacuumOut, Memory>>) -> Result<Answer, Memory> {
    match came {
        Some(Ok(out)) => Ok(block(out)),
        Some(Err(_)) => Err(Memory),
        None => Ok(Answer::No),
    }
}

/// The seat ends its scan.
fn closed(state: &mut State<Quad>, seat: SeatNo) -> Result<Answer, Memory> {
    match close_scan(state, seat) {
        Some(Ok(closed)) => Ok(Answer::Closed(closed.rows.len(), closed.met)),
        Some(Err(memory)) => Err(memory),
        None => Ok(Answer::No),
    }
}

/// The seat opens a scan of all.
fn scanned(state: &mut State<Quad>, seat: SeatNo) -> Result<Answer, Memory> {
    match open_scan(state, seat, Query::All) {
        Some(Ok(())) => Ok(Answer::Done),
        Some(Err(memory)) => Err(memory),
        None => Ok(Answer::No),
    }
}

/// The seat deletes a row.
fn killed(came: Option<Result<bool, Memory>>) -> Result<Answer, Memory> {
    match came {
        Some(Ok(true)) => Ok(Answer::Done),
        Some(Ok(false)) => Ok(Answer::NotLive),
        Some(Err(memory)) => Err(memory),
        None => Ok(Answer::No),
    }
}

fn given_up(came: bool) -> Answer {
    if came { Answer::Done } else { Answer::No }
}

fn vacuumed(came: &Option<Result<(), VacuumRefused>>) -> Result<Answer, Memory> {
    match came {
        Some(Ok(())) => Ok(Answer::Done),
        Some(Err(VacuumRefused::Open { by })) => Ok(Answer::Open(by.number())),
        Some(Err(VacuumRefused::Memory)) => Err(Memory),
        None => Ok(Answer::No),
    }
}

/// What a call answers.
pub(crate) fn answer_of(
    state: &mut State<Quad>,
    seat: SeatNo,
    call: Call,
) -> Result<Answer, Memory> {
    match call {
        Call::Insert(offset) => {
            let key = Some(Point { x: 0, y: 0 });
            opened(&open_insert(state, seat, row(offset), key))
        }
        Call::Step => stepped(&insert_step(state, seat)),
        Call::Scan => scanned(state, seat),
        Call::Read(item) => read(&scan_read(state, seat, item)),
        Call::Close => closed(state, seat),
        Call::GiveUp => Ok(given_up(give_up(state, seat))),
        Call::Kill(offset) => killed(kill(state, seat, row(offset))),
        Call::Vacuum => vacuumed(&open_vacuum(state, seat)),
        Call::Sweep => swept(&vacuum_step(state, seat)),
    }
}

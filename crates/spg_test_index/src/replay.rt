//! A journal replayed over a plain list of lives.

use crate::lives::{Life, ROWS, index_of, is_right};
use spg_base::{Memory, Point, Row, Rows, SeatNo};
use spg_quad::Quad;
use spg_rows::{Event, Journal};
use std::alloc::Global;

/// A vacuum: its seat, the positions of its open and of its end, and how many rows it swept.
#[derive(Clone, Copy)]
struct Vacuuming {
    seat: SeatNo,
    opened: u64,
    ended: Option<u64>,
    swept: u64,
}

/// What is known while a journal is replayed: the lives in the order in which they began, each row's
/// last one, the position at which each seat's open scan opened, and all vacuums.
#[derive(Drop)]
pub(crate) struct Known {
    lives: Vec<Life>,
    last: Vec<Option<usize>>,
    scans: Vec<Option<u64>>,
    vacuums: Vec<Vacuuming>,
    /// How often a row was inserted again that was swept.
    again: u32,
}

/// No row has a life.
fn no_lives(alloc: Global) -> Result<Vec<Option<usize>>, Memory> {
    let mut last = Vec::new(alloc);
    last.resize(usize::from(ROWS), None)?;
    Ok(last)
}

/// No seat has a scan open.
fn no_scans(alloc: Global) -> Result<Vec<Option<u64>>, Memory> {
    let mut scans = Vec::new(alloc);
    scans.resize(64, None)?;
    Ok(scans)
}

impl Known {
    fn new(alloc: Global) -> Result<Known, Memory> {
        let last = no_lives(alloc)?;
        let scans = no_scans(alloc)?;
        Ok(Known {
            lives: Vec::new(alloc),
            last,
            scans,
            vacuums: Vec::new(alloc),
            again: 0,
        })
    }

    /// The last life of the row.
    fn last_of(&mut self, row: Row) -> Option<&mut Life> {
        let index = self.last.get(index_of(row)).copied().flatten()?;
        self.lives.get_mut(index)
    }

    /// The vacuum of the seat, where it is open.
    fn vacuum_of(&mut self, seat: SeatNo) -> Option<&mut Vacuuming> {
        let vacuum = self.vacuums.last_mut()?;
        if vacuum.seat == seat && vacuum.ended.is_none() {
            Some(vacuum)
        } else {
            None
        }
    }

    /// Whether a vacuum has ended, and each scan that was open then.
    fn is_past(&self, vacuum: usize) -> bool {
        let Some(ended) = self.vacuums.get(vacuum).and_then(|one| one.ended) else {
            return false;
        };
        !self
            .scans
            .iter()
            .any(|scan| scan.is_some_and(|at| at < ended))
    }

    /// Whether an insert of the row may open.
    fn may_open(&self, row: Row) -> bool {
        match self.last.get(index_of(row)).copied().flatten() {
            None => true,
            Some(index) => match self.lives.get(index) {
                None => false,
                Some(life) => life.dropped || life.swept.is_some_and(|vacuum| self.is_past(vacuum)),
            },
        }
    }

    /// An insert of the row opens.
    fn opens(&mut self, row: Row, key: Option<Point>) -> Result<bool, Memory> {
        if !self.may_open(row) {
            return Ok(false);
        }
        if self.last_of(row).is_some_and(|life| life.swept.is_some()) {
            self.again = self.again.saturating_add(1);
        }
        let index = self.lives.len();
        self.lives.push(Life {
            row: index_of(row),
            key,
            dropped: false,
            put: None,
            killed: None,
            swept: None,
        })?;
        match self.last.get_mut(index_of(row)) {
            Some(last) => {
                *last = Some(index);
                Ok(true)
            }
            None => Ok(false),
        }
    }

    fn puts(&mut self, row: Row, at: u64) -> bool {
        match self.last_of(row) {
            Some(life) if life.put.is_none() && !life.dropped => {
                life.put = Some(at);
                true
            }
            _ => false,
        }
    }

    fn drops(&mut self, row: Row) -> bool {
        match self.last_of(row) {
            Some(life) if life.put.is_none() && !life.dropped => {
                life.dropped = true;
                true
            }
            _ => false,
        }
    }

    fn kills(&mut self, row: Row, at: u64) -> bool {
        match self.last_of(row) {
            Some(life) if life.put.is_some() && life.killed.is_none() => {
                life.killed = Some(at);
                true
            }
            _ => false,
        }
    }

    fn opens_scan(&mut self, seat: SeatNo, at: u64) -> bool {
        match self.scans.get_mut(usize::from(seat.number())) {
            Some(scan) if scan.is_none() => {
                *scan = Some(at);
                true
            }
            _ => false,
        }
    }

    /// The seat's scan ends. It opened at this position.
    fn ends_scan(&mut self, seat: SeatNo) -> Option<u64> {
        self.scans.get_mut(usize::from(seat.number()))?.take()
    }

    /// A vacuum opens, unless one is open.
    fn opens_vacuum(&mut self, seat: SeatNo, at: u64) -> Result<bool, Memory> {
        if self.vacuums.last().is_some_and(|last| last.ended.is_none()) {
            return Ok(false);
        }
        self.vacuums.push(Vacuuming {
            seat,
            opened: at,
            ended: None,
            swept: 0,
        })?;
        Ok(true)
    }

    /// The seat's vacuum sweeps a row that was deleted before it opened.
    fn sweeps(&mut self, seat: SeatNo, row: Row) -> bool {
        let index = self.vacuums.len().saturating_sub(1);
        let Some(vacuum) = self.vacuum_of(seat) else {
            return false;
        };
        vacuum.swept = vacuum.swept.saturating_add(1);
        let opened = vacuum.opened;
        match self.last_of(row) {
            Some(life) if life.swept.is_none() && life.killed.is_some_and(|at| at < opened) => {
                life.swept = Some(index);
                true
            }
            _ => false,
        }
    }

    /// The seat's vacuum ends with this number. It swept so many, and each row deleted before it opened.
    fn closes_vacuum(&mut self, seat: SeatNo, at: u64, swept: u64) -> bool {
        let Some(vacuum) = self.vacuum_of(seat) else {
            return false;
        };
        vacuum.ended = Some(at);
        let (opened, count) = (vacuum.opened, vacuum.swept);
        count == swept
            && self.lives.iter().all(|life| life.swept.is_some()
                || life.killed.is_none_or(|at| opened <= at))
    }

    /// The seat's scan or vacuum is given up.
    fn leaves(&mut self, seat: SeatNo, at: u64) -> bool {
        if let Some(vacuum) = self.vacuum_of(seat) {
            vacuum.ended = Some(at);
            return true;
        }
        self.ends_scan(seat).is_some()
    }

    /// The seat's scan ends with these rows, which are right.
    fn closes(
        &mut self,
        alloc: Global,
        journal: &Journal<Quad>,
        seat: SeatNo,
        rows: &Rows,
    ) -> Result<bool, Memory> {
        let Some(opened) = self.ends_scan(seat) else {
            return Ok(false);
        };
        match journal.get(opened) {
            Some(Event::OpenScan { query, .. }) => {
                is_right(alloc, self.lives.as_slice(), query, opened, rows)
            }
            _ => Ok(false),
        }
    }

    /// Takes an event. False where it does not fit what is known.
    fn take(
        &mut self,
        alloc: Global,
        journal: &Journal<Quad>,
        at: u64,
        event: &Event<Quad>,
    ) -> Result<bool, Memory> {
        match event {
            Event::OpenInsert { row, key, .. } => self.opens(*row, *key),
            Event::Put { row, .. } => Ok(self.puts(*row, at)),
            Event::Drop { row, .. } => Ok(self.drops(*row)),
            Event::Kill { row, .. } => Ok(self.kills(*row, at)),
            Event::OpenScan { seat, .. } => Ok(self.opens_scan(*seat, at)),
            Event::CloseScan { seat, rows } => self.closes(alloc, journal, *seat, rows),
            Event::OpenVacuum { seat } => self.opens_vacuum(*seat, at),
            Event::Sweep { seat, row } => Ok(self.sweeps(*seat, *row)),
            Event::CloseVacuum { seat, swept } => Ok(self.closes_vacuum(*seat, at, *swept)),
            Event::Leave { seat } => Ok(self.leaves(*seat, at)),
        }
    }
}

/// What came of the events of a journal.
#[derive(Clone, Copy)]
pub struct Replayed {
    /// How many vacuums there were.
    pub vacuums: usize,
    /// How many rows these swept.
    pub swept: u64,
    /// How many rows that were swept were inserted again.
    pub again: u32,
}

/// Takes the events of a journal. False where one does not fit those before it.
fn take_all(alloc: Global, known: &mut Known, journal: &Journal<Quad>) -> Result<bool, Memory> {
    let mut at: u64 = 0;
    for event in journal.as_slice() {
        if !known.take(alloc, journal, at, event)? {
            return Ok(false);
        }
        at = at.saturating_add(1);
    }
    Ok(true)
}

/// What came of the events of which all this is known.
fn told(known: &Known) -> Replayed {
    let mut swept: u64 = 0;
    for vacuum in known.vacuums.as_slice() {
        swept = swept.saturating_add(vacuum.swept);
    }
    Replayed {
        vacuums: known.vacuums.len(),
        swept,
        again: known.again,
    }
}

/// What came of the events of a journal of rows 1.1 to 1.800. None where one does not fit those before it: a
/// scan that gave a row that it might not give, or not one that it had to, a vacuum that left a row that was
/// deleted before it opened, a row that was inserted before its time.
pub fn judge(alloc: Global, journal: &Journal<Quad>) -> Result<Option<Replayed>, Memory> {
    let mut known = Known::new(alloc)?;
    let fits = take_all(alloc, &mut known, journal)?;
    Ok(if fits { Some(told(&known)) } else { None })
}

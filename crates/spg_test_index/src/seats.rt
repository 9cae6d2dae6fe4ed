//! Calls of several seats on one index: latches that are met, rows that wait, a vacuum beside inserts that
//! divide what it has still to see.

use crate::answers::{Answer, Call, answer_of};
use crate::calls::insert;
use spg_base::{Memory, Point, Row, SeatNo, Stat};
use spg_core::State;
use spg_quad::Quad;
use std::alloc::Global;
use std::mem;
use std::test::Fail;

/// A seat with what it does, and what comes of it.
type Turn = (u8, Call, Answer);

/// Blocks that another seat has latched.
const LATCHES: [Turn; 24] = [
    (0, Call::Insert(1), Answer::Done),
    (0, Call::Step, Answer::Descended),
    (1, Call::Insert(2), Answer::Done),
    (1, Call::Step, Answer::Restarted(1, 0)),
    (2, Call::Scan, Answer::Done),
    (2, Call::Read(0), Answer::Latched(1, 0)),
    (0, Call::Step, Answer::Put),
    (1, Call::Step, Answer::Descended),
    (1, Call::Step, Answer::Put),
    // The row of an insert that was given up is free again.
    (3, Call::Insert(9), Answer::Done),
    (63, Call::Insert(9), Answer::RowUsed),
    (3, Call::GiveUp, Answer::Done),
    (3, Call::Insert(9), Answer::Done),
    // A row is deleted once, and a scan that opened before and reads it later does not give it.
    (0, Call::Kill(1), Answer::Done),
    (0, Call::Kill(1), Answer::NotLive),
    (0, Call::Kill(9), Answer::NotLive),
    (0, Call::Insert(1), Answer::RowUsed),
    (2, Call::Read(1), Answer::Done),
    (2, Call::Read(0), Answer::Done),
    (2, Call::Close, Answer::Closed(1, 2)),
    // A seat that has latched a block may give it up.
    (3, Call::Step, Answer::Descended),
    (3, Call::GiveUp, Answer::Done),
    // One vacuum is open at a time.
    (4, Call::Vacuum, Answer::Done),
    (5, Call::Vacuum, Answer::Open(4)),
];

/// What a seat has open: nothing else opens there, and what is given up is gone.
const OPEN: [Turn; 12] = [
    (0, Call::GiveUp, Answer::No),
    (0, Call::Insert(1), Answer::Done),
    (0, Call::Scan, Answer::No),
    (0, Call::Kill(1), Answer::No),
    (0, Call::GiveUp, Answer::Done),
    (0, Call::Step, Answer::No),
    // A scan holds the two roots, and closes only once it holds nothing.
    (0, Call::Scan, Answer::Done),
    (0, Call::Read(2), Answer::No),
    (0, Call::Close, Answer::No),
    (0, Call::Vacuum, Answer::No),
    (0, Call::GiveUp, Answer::Done),
    (0, Call::Sweep, Answer::No),
];

/// A row whose entry was swept waits for the seat of the vacuum, and then for the scan that was open when
/// that ended.
const HELD: [Turn; 17] = [
    (0, Call::Insert(1), Answer::Done),
    (0, Call::Step, Answer::Descended),
    (0, Call::Step, Answer::Put),
    (2, Call::Scan, Answer::Done),
    (0, Call::Kill(1), Answer::Done),
    (1, Call::Vacuum, Answer::Done),
    (1, Call::Sweep, Answer::Block),
    (0, Call::Insert(1), Answer::RowHeld(1)),
    (1, Call::Sweep, Answer::Block),
    (1, Call::Sweep, Answer::Finished(1)),
    (0, Call::Insert(1), Answer::RowHeld(2)),
    (2, Call::Read(0), Answer::Done),
    (2, Call::Read(0), Answer::Done),
    (2, Call::Close, Answer::Closed(0, 0)),
    (0, Call::Insert(1), Answer::Done),
    (0, Call::Step, Answer::Descended),
    (0, Call::Step, Answer::Put),
];

/// A row is used until a vacuum has swept its entry and ended, and is then found again. A row that is
/// deleted while a vacuum is open is left to the next one; so is what a vacuum leaves that is given up.
const AGAIN: [Turn; 29] = [
    (0, Call::Insert(1), Answer::Done),
    (0, Call::Step, Answer::Descended),
    (0, Call::Step, Answer::Put),
    (0, Call::Kill(1), Answer::Done),
    (0, Call::Insert(1), Answer::RowUsed),
    (0, Call::Insert(2), Answer::Done),
    (0, Call::Step, Answer::Descended),
    (0, Call::Step, Answer::Put),
    (1, Call::Vacuum, Answer::Done),
    (0, Call::Kill(2), Answer::Done),
    (1, Call::GiveUp, Answer::Done),
    (0, Call::Insert(1), Answer::RowUsed),
    (3, Call::Vacuum, Answer::Done),
    (3, Call::Sweep, Answer::Block),
    (3, Call::Sweep, Answer::Block),
    (3, Call::Sweep, Answer::Finished(2)),
    (0, Call::Insert(1), Answer::Done),
    (0, Call::Step, Answer::Descended),
    (1, Call::Vacuum, Answer::Done),
    (1, Call::Sweep, Answer::Latched(1, 0)),
    (0, Call::Step, Answer::Put),
    (0, Call::Kill(1), Answer::Done),
    (1, Call::Sweep, Answer::Block),
    (1, Call::Sweep, Answer::Block),
    (1, Call::Sweep, Answer::Finished(0)),
    (2, Call::Scan, Answer::Done),
    (2, Call::Read(0), Answer::Done),
    (2, Call::Read(0), Answer::Done),
    (2, Call::Close, Answer::Closed(0, 1)),
];

/// The root is divided, and its first chain moves, while a vacuum is open that has seen no block.
const MOVED: [Turn; 13] = [
    (0, Call::Kill(1), Answer::Done),
    (1, Call::Vacuum, Answer::Done),
    (0, Call::Insert(292), Answer::Done),
    (0, Call::Step, Answer::Descended),
    (0, Call::Step, Answer::Restructured),
    (0, Call::Step, Answer::Descended),
    (0, Call::Step, Answer::Put),
    (1, Call::Sweep, Answer::Block),
    (1, Call::Sweep, Answer::Block),
    (1, Call::Sweep, Answer::Block),
    (1, Call::Sweep, Answer::Pending),
    (1, Call::Sweep, Answer::Block),
    (1, Call::Sweep, Answer::Finished(1)),
];

/// A chain is divided while a vacuum is open. Its redirect leads to the new inner tuple, whose links are
/// listed then: the row stands in the last of its lists.
const DIVIDED: [Turn; 22] = [
    (0, Call::Kill(40), Answer::Done),
    (1, Call::Vacuum, Answer::Done),
    (0, Call::Insert(579), Answer::Done),
    (0, Call::Step, Answer::Descended),
    (0, Call::Step, Answer::Descended),
    (0, Call::Step, Answer::Put),
    (1, Call::Sweep, Answer::Block),
    (1, Call::Sweep, Answer::Block),
    (1, Call::Sweep, Answer::Block),
    (1, Call::Sweep, Answer::Pending),
    (1, Call::Sweep, Answer::Pending),
    (1, Call::Sweep, Answer::Pending),
    (1, Call::Sweep, Answer::Pending),
    (1, Call::Sweep, Answer::Pending),
    (1, Call::Sweep, Answer::Pending),
    (1, Call::Sweep, Answer::Pending),
    (1, Call::Sweep, Answer::Pending),
    (1, Call::Sweep, Answer::Pending),
    (1, Call::Sweep, Answer::Block),
    (1, Call::Sweep, Answer::Block),
    (1, Call::Sweep, Answer::Block),
    (1, Call::Sweep, Answer::Finished(1)),
];

/// Turns on an index of so many rows of block 9, all at 0,0, and the counts and the length of the journal then.
#[derive(Clone, Copy)]
struct Case {
    filled: u16,
    turns: &'static [Turn],
    stat: Stat,
    events: u64,
}

/// The counts of an index of two points.
const FEW: Stat = Stat {
    pages: 3,
    inner: 0,
    leaf: 2,
    redirect: 0,
    dead: 0,
    placeholder: 0,
    clock: 0,
};

const CASES: [Case; 6] = [
    Case {
        filled: 0,
        turns: &LATCHES,
        stat: FEW,
        events: 12,
    },
    Case {
        filled: 0,
        turns: &OPEN,
        stat: Stat { leaf: 0, ..FEW },
        events: 4,
    },
    Case {
        filled: 0,
        turns: &HELD,
        stat: Stat { leaf: 1, ..FEW },
        events: 10,
    },
    Case {
        filled: 0,
        turns: &AGAIN,
        stat: Stat { leaf: 1, ..FEW },
        events: 19,
    },
    Case {
        filled: 291,
        turns: &MOVED,
        stat: Stat {
            pages: 5,
            inner: 1,
            leaf: 291,
            redirect: 1,
            dead: 0,
            placeholder: 37,
            clock: 1,
        },
        events: 588,
    },
    Case {
        filled: 578,
        turns: &DIVIDED,
        stat: Stat {
            pages: 7,
            inner: 2,
            leaf: 578,
            redirect: 1,
            dead: 0,
            placeholder: 12,
            clock: 5,
        },
        events: 1162,
    },
];

/// Seat 0 inserts so many rows of block 9.
fn fill(state: &mut State<Quad>, count: u16) -> Result<(), Memory> {
    for offset in 1..=count {
        let key = Some(Point { x: 0, y: 0 });
        if !insert(state, SeatNo::first(), Row::at(9, offset), key)? {
            return Err(Memory);
        }
    }
    Ok(())
}

/// Whether a turn is answered as it says.
fn is_answered(state: &mut State<Quad>, turn: &Turn) -> Result<bool, Memory> {
    let (number, call, wanted) = *turn;
    match SeatNo::new(number) {
        Some(seat) => Ok(answer_of(state, seat, call)? == wanted),
        None => Ok(false),
    }
}

/// How many turns, from the first on, are answered as they say.
fn answered(state: &mut State<Quad>, turns: &[Turn]) -> Result<usize, Memory> {
    let mut count = 0usize;
    for turn in turns {
        if !is_answered(state, turn)? {
            break;
        }
        count = count.saturating_add(1);
    }
    Ok(count)
}

/// Whether the turns of a case are answered so, and leave these counts and so long a journal.
fn take(state: &mut State<Quad>, case: &Case) -> Result<bool, Memory> {
    fill(state, case.filled)?;
    let all = answered(state, case.turns)? == case.turns.len();
    Ok(all && state.stat() == case.stat && state.journal().len() == case.events)
}

/// The same on a new index.
fn is_so(alloc: Global, case: &Case) -> Result<bool, Memory> {
    let mut state = State::new(alloc, Quad, 65536)?;
    let so = take(&mut state, case);
    mem::forget(state);
    so
}

#[test]
fn seats_answer_as_told(rt: HostRuntime) -> Result<(), Fail> {
    for case in &CASES {
        assert!(rt; is_so(rt.alloc(), case)?);
    }
    Ok(())
}

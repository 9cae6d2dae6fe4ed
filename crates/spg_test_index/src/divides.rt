//! Inserts that divide a root and chains: what each section does, what finds give and meet then, and the counts.

use crate::calls::{kill, open_vacuum, vacuum_step};
use crate::driver::{Found, find, insert};
use spg_base::{List, Memory, Point, PointCond, Row, SeatNo, Stat};
use spg_core::{State, VacuumOut};
use spg_kd::Kd;
use spg_opclass::{OpClass, Query};
use spg_quad::Quad;
use spg_radix::Radix;
use std::alloc::Global;
use std::mem;
use std::test::Fail;

/// The keys of inserts, which are counted from 1.
#[derive(Clone, Copy)]
enum Keys {
    /// The number of the insert and this y.
    Line(i32),
    /// The first point at odd numbers, the second at even ones.
    ByTurns(Point, Point),
}

impl Keys {
    fn at(self, number: u16) -> Point {
        let x = i32::from(number);
        match self {
            Keys::Line(y) => Point { x, y },
            Keys::ByTurns(odd, _) if number % 2 == 1 => odd,
            Keys::ByTurns(_, even) => even,
        }
    }
}

/// What a find asks for.
#[derive(Clone, Copy)]
enum Ask {
    All,
    Null,
    Where(PointCond),
}

/// So many inserts, the letters of the last one's sections, finds with what they give and meet, and the counts.
#[derive(Clone, Copy)]
struct Case {
    keys: Keys,
    count: u16,
    letters: &'static [u8],
    finds: [(Ask, Found); 3],
    stat: Stat,
}

const ORIGIN: Point = Point { x: 0, y: 0 };

const ONE: Point = Point { x: 1, y: 0 };

const LEAST: Point = Point {
    x: -2147483648,
    y: -2147483648,
};

const GREATEST: Point = Point {
    x: 2147483647,
    y: 2147483647,
};

/// The counts of an index in which a redirect was given the first moment of the clock.
const COUNTS: Stat = Stat {
    pages: 6,
    inner: 2,
    leaf: 292,
    redirect: 1,
    dead: 0,
    placeholder: 16,
    clock: 1,
};

const QUAD: [Case; 4] = [
    // The 292nd point of a line divides the root, and then the chain that it meets.
    Case {
        keys: Keys::Line(0),
        count: 292,
        letters: b"DSDP",
        finds: [
            (Ask::All, (292, 294)),
            (Ask::Where(PointCond::Eq(Point { x: 292, y: 0 })), (1, 75)),
            (Ask::Where(PointCond::Left(100)), (99, 147)),
        ],
        stat: Stat {
            placeholder: 71,
            ..COUNTS
        },
    },
    // Equal points go to the nodes in turn, and a short chain moves.
    Case {
        keys: Keys::ByTurns(ORIGIN, ORIGIN),
        count: 300,
        letters: b"DDP",
        finds: [
            (Ask::All, (300, 301)),
            (Ask::Where(PointCond::Eq(ORIGIN)), (300, 301)),
            (Ask::Where(PointCond::Eq(ONE)), (0, 301)),
        ],
        stat: Stat {
            pages: 5,
            inner: 1,
            leaf: 300,
            placeholder: 29,
            ..COUNTS
        },
    },
    // The average of 0 and 1 is taken up to 1.
    Case {
        keys: Keys::ByTurns(ORIGIN, ONE),
        count: 292,
        letters: b"DSDP",
        finds: [
            (Ask::Where(PointCond::Eq(ONE)), (146, 148)),
            (Ask::Where(PointCond::Eq(ORIGIN)), (146, 147)),
            (Ask::Null, (0, 0)),
        ],
        stat: COUNTS,
    },
    // The ends of the coordinates.
    Case {
        keys: Keys::ByTurns(LEAST, GREATEST),
        count: 292,
        letters: b"DSDP",
        finds: [
            (
                Ask::Where(PointCond::Inside {
                    x1: -2147483648,
                    y1: -2147483648,
                    x2: 2147483647,
                    y2: 2147483647,
                }),
                (292, 294),
            ),
            (Ask::Where(PointCond::Left(-2147483648)), (0, 1)),
            (Ask::All, (292, 294)),
        ],
        stat: COUNTS,
    },
];

/// A root is divided at y and its child at x.
const KD: Case = Case {
    keys: Keys::Line(5),
    count: 292,
    letters: b"DSDP",
    finds: [
        (Ask::Where(PointCond::Eq(Point { x: 100, y: 5 })), (1, 221)),
        (Ask::All, (292, 294)),
        (Ask::Null, (0, 0)),
    ],
    stat: Stat {
        placeholder: 71,
        ..COUNTS
    },
};

/// Whether these are the letters.
fn reads(log: &Vec<u8>, letters: &[u8]) -> bool {
    log.as_slice() == letters
}

/// The query of a class of points.
fn query<O: OpClass<Cond = PointCond>>(alloc: Global, ask: Ask) -> Result<Query<O>, Memory> {
    match ask {
        Ask::All => Ok(Query::All),
        Ask::Null => Ok(Query::Null),
        Ask::Where(cond) => {
            let mut conds = List::new(alloc);
            conds.push(cond)?;
            Ok(Query::Where(conds))
        }
    }
}

/// Inserts so many points with rows 1.1, 1.2 and so on. The letters are those of the last insert.
fn fill<O: OpClass<Key = Point>>(
    state: &mut State<O>,
    keys: Keys,
    count: u16,
    log: &mut Vec<u8>,
) -> Result<(), Memory> {
    for number in 1..=count {
        insert(state, Row::at(1, number), Some(keys.at(number)), log)?;
    }
    Ok(())
}

/// Inserts so many points: whether the letters of the last insert are these.
fn are_letters<O: OpClass<Key = Point>>(
    alloc: Global,
    state: &mut State<O>,
    keys: Keys,
    count: u16,
    letters: &[u8],
) -> Result<bool, Memory> {
    let mut log = Vec::new(alloc);
    fill(state, keys, count, &mut log)?;
    Ok(reads(&log, letters))
}

/// Whether finds give and meet these.
fn are_found<O: OpClass<Key = Point, Cond = PointCond>>(
    alloc: Global,
    state: &mut State<O>,
    finds: &[(Ask, Found)],
) -> Result<bool, Memory> {
    for (ask, wanted) in finds {
        if find(state, query(alloc, *ask)?)? != *wanted {
            return Ok(false);
        }
    }
    Ok(true)
}

/// Whether the inserts of a case do what they are to, and leave these counts.
fn take<O: OpClass<Key = Point, Cond = PointCond>>(
    alloc: Global,
    state: &mut State<O>,
    case: &Case,
) -> Result<bool, Memory> {
    let read = are_letters(alloc, state, case.keys, case.count, case.letters)?;
    let found = are_found(alloc, state, &case.finds)?;
    Ok(read && found && state.stat() == case.stat)
}

/// The same on a new index.
fn is_so<O: OpClass<Key = Point, Cond = PointCond>>(
    alloc: Global,
    class: O,
    case: &Case,
) -> Result<bool, Memory> {
    let mut state = State::new(alloc, class, 65536)?;
    let so = take(alloc, &mut state, case);
    mem::forget(state);
    so
}

#[test]
fn divides_and_finds_again(rt: HostRuntime) -> Result<(), Fail> {
    for case in &QUAD {
        assert!(rt; is_so(rt.alloc(), Quad, case)?);
    }
    assert!(rt; is_so(rt.alloc(), Kd, &KD)?);
    Ok(())
}

/// The counts of an index of nulls, one more than a root leaf page holds.
const NULLS: Stat = Stat {
    pages: 5,
    inner: 1,
    leaf: 409,
    placeholder: 50,
    ..COUNTS
};

/// Inserts so many nulls with rows 1.1, 1.2 and so on: whether the letters of the last insert are right.
fn fill_nulls<O: OpClass>(alloc: Global, state: &mut State<O>) -> Result<bool, Memory> {
    let mut log = Vec::new(alloc);
    for number in 1..=409 {
        insert(state, Row::at(1, number), None, &mut log)?;
    }
    Ok(reads(&log, b"DSDP"))
}

/// Whether the nulls are divided and found.
fn take_nulls<O: OpClass>(alloc: Global, state: &mut State<O>) -> Result<bool, Memory> {
    let read = fill_nulls(alloc, state)?;
    let nulls = find(state, Query::Null)?;
    let all = find(state, Query::All)?;
    Ok(read && [nulls, all] == [(409, 410); 2] && state.stat() == NULLS)
}

fn are_nulls<O: OpClass>(alloc: Global, class: O) -> Result<bool, Memory> {
    let mut state = State::new(alloc, class, 65536)?;
    let came = take_nulls(alloc, &mut state);
    mem::forget(state);
    came
}

/// Nulls stand alike in each class.
#[test]
fn nulls_are_divided_in_each_class(rt: HostRuntime) -> Result<(), Fail> {
    assert!(rt; are_nulls(rt.alloc(), Quad)?);
    assert!(rt; are_nulls(rt.alloc(), Kd)?);
    assert!(rt; are_nulls(rt.alloc(), Radix)?);
    Ok(())
}

/// Inserts into an index whose last page is near, with their letters: at a node that leads nowhere a page is
/// found, the row of an insert that was given up is free again, and nulls have a root of their own.
const LATER: [(u32, u16, Option<Point>, &[u8]); 5] = [
    (2, 1, Some(Point { x: 200, y: -5 }), b"DDP"),
    (2, 2, Some(Point { x: 300, y: 0 }), b"DDF"),
    (1, 292, Some(Point { x: -3, y: 7 }), b"DDP"),
    (1, 292, Some(Point { x: -3, y: 7 }), b"U"),
    (2, 3, None, b"DP"),
];

/// The counts of an index that is full, without its last point.
const FULL: Stat = Stat {
    pages: 4,
    inner: 1,
    leaf: 291,
    redirect: 0,
    placeholder: 0,
    clock: 0,
    ..COUNTS
};

/// Whether the sections of an insert have these letters.
fn goes_in(
    alloc: Global,
    state: &mut State<Quad>,
    row: Row,
    key: Option<Point>,
    letters: &[u8],
) -> Result<bool, Memory> {
    let mut log = Vec::new(alloc);
    insert(state, row, key, &mut log)?;
    Ok(reads(&log, letters))
}

/// Whether the later inserts do what they are to.
fn go_later(alloc: Global, state: &mut State<Quad>) -> Result<bool, Memory> {
    for (block, offset, key, letters) in &LATER {
        let row = Row::at(*block, (*offset).max(1));
        if !goes_in(alloc, state, row, *key, letters)? {
            return Ok(false);
        }
    }
    Ok(true)
}

/// Seat 0 vacuums: how many rows it sweeps.
fn vacuum(state: &mut State<Quad>) -> Result<u64, Memory> {
    if open_vacuum(state, SeatNo::first()) != Some(Ok(())) {
        return Err(Memory);
    }
    for _ in 0..100u8 {
        match vacuum_step(state, SeatNo::first()) {
            Some(Ok(VacuumOut::Finished { swept })) => return Ok(swept),
            Some(Ok(_)) => {}
            _ => return Err(Memory),
        }
    }
    Err(Memory)
}

/// How many tuples are dead, and how many leaves.
fn dead_and_leaves(state: &State<Quad>) -> (u64, u64) {
    let stat = state.stat();
    (stat.dead, stat.leaf)
}

/// Whether the only tuple of a chain is dead once its row is swept, and the next point is put there.
fn takes_a_dead_head(alloc: Global, state: &mut State<Quad>) -> Result<bool, Memory> {
    let killed = kill(state, SeatNo::first(), Row::at(2, 1)) == Some(Ok(true));
    let swept = vacuum(state)? == 1 && dead_and_leaves(state) == (1, 293);
    let comer = Some(Point { x: 201, y: -6 });
    let put = goes_in(alloc, state, Row::at(2, 4), comer, b"DDP")?;
    Ok(killed && swept && put && dead_and_leaves(state) == (0, 294))
}

/// Fills an index of five pages, of which a division of a chain needs more, and goes on.
fn take_full(alloc: Global, state: &mut State<Quad>) -> Result<[bool; 5], Memory> {
    let full = are_letters(alloc, state, Keys::Line(0), 292, b"DSDF")? && state.stat() == FULL;
    let kept = are_found(alloc, state, &[(Ask::All, (291, 292))])?;
    let later = go_later(alloc, state)?;
    let found = are_found(alloc, state, &[(Ask::All, (294, 295))])?;
    Ok([full, kept, later, found, takes_a_dead_head(alloc, state)?])
}

fn full(alloc: Global) -> Result<[bool; 5], Memory> {
    let mut state = State::new(alloc, Quad, 5)?;
    let came = take_full(alloc, &mut state);
    mem::forget(state);
    came
}

/// An insert that needs a page past the limit is given up. What stood stays, and inserts that need no such
/// page go in.
#[test]
fn goes_on_when_full(rt: HostRuntime) -> Result<(), Fail> {
    assert!(rt; full(rt.alloc())? == [true; 5]);
    Ok(())
}

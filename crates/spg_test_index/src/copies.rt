//! An index without its class: inserts and a scan go on by what the class answered for a copy, and only while
//! the copy is as the index is.

use crate::lent::{
    close_scan, give_up, insert_choose, insert_look, insert_part, open_insert, scan_copy,
    scan_sifted,
};
use spg_base::{List, Memory, Point, PointCond, Row, Same, SeatNo, Stat};
use spg_core::{ApplyRefused, Bare, InsertOut, Look, OpenKind, ScanCopy, SiftRefused};
use spg_opclass::{
    Bunch, Chosen, Copied, OpClass, Query, Sifted, Spotted, choose_at, part_at, sift, start_at,
};
use spg_quad::Quad;
use std::alloc::Global;
use std::mem;
use std::test::Fail;

/// How many points i,0 stand in the index, with rows 1.i: more than fit on the root page.
const POINTS: u16 = 292;

/// Seat 0 opens an insert of the point x,0.
fn open(alloc: Global, bare: &mut Bare<Quad>, row: Row, x: i32) -> Result<(), Memory> {
    let started = start_at(alloc, &Quad, Some(Point { x, y: 0 }))?;
    match open_insert(bare, SeatNo::first(), row, started) {
        Some(Ok(())) => Ok(()),
        _ => Err(Memory),
    }
}

/// What came of what the class answered.
fn applied(came: Option<Result<InsertOut, ApplyRefused>>) -> Result<InsertOut, Memory> {
    match came {
        Some(Ok(out)) => Ok(out),
        _ => Err(Memory),
    }
}

/// Goes on by what the class chooses for a copy.
fn by_choice(
    alloc: Global,
    bare: &mut Bare<Quad>,
    spotted: Spotted<Quad>,
) -> Result<InsertOut, Memory> {
    let chosen = choose_at(alloc, &Quad, spotted)?;
    applied(insert_choose(bare, SeatNo::first(), &chosen))
}

/// Goes on by how the class divides a copy.
fn by_part(alloc: Global, bare: &mut Bare<Quad>, bunch: Bunch<Quad>) -> Result<InsertOut, Memory> {
    if bunch.rests().is_empty() {
        return Err(Memory);
    }
    let parted = part_at(alloc, &Quad, bunch)?;
    applied(insert_part(bare, SeatNo::first(), &parted))
}

/// The next section of seat 0's insert, for which the class is asked on a copy.
fn section(alloc: Global, bare: &mut Bare<Quad>) -> Result<InsertOut, Memory> {
    match insert_look(bare, SeatNo::first()) {
        Some(Ok(Look::Stepped(out))) => Ok(out),
        Some(Ok(Look::Choose(spotted))) => by_choice(alloc, bare, spotted),
        Some(Ok(Look::Part(bunch))) => by_part(alloc, bare, bunch),
        _ => Err(Memory),
    }
}

/// Does sections until the row is put.
fn go_through(alloc: Global, bare: &mut Bare<Quad>) -> Result<(), Memory> {
    for _ in 0..8u8 {
        if section(alloc, bare)? == InsertOut::Put {
            return Ok(());
        }
    }
    Err(Memory)
}

/// Inserts the points.
fn fill(alloc: Global, bare: &mut Bare<Quad>) -> Result<(), Memory> {
    for number in 1..=POINTS {
        open(alloc, bare, Row::at(1, number), i32::from(number))?;
        go_through(alloc, bare)?;
    }
    Ok(())
}

/// The counts of the index whose sections ask the class at once.
const FILLED: Stat = Stat {
    pages: 6,
    inner: 2,
    leaf: 292,
    redirect: 1,
    dead: 0,
    placeholder: 71,
    clock: 1,
};

/// What a look of seat 0 gave.
#[derive(Clone, Copy, PartialEq, Eq)]
enum Seen {
    Stepped(InsertOut),
    /// A copy of an inner tuple; whether it has the centroid that is looked for.
    Choose(bool),
    Part,
    Nothing,
}

/// Whether a copied tuple has the centroid x,0.
fn has_centroid(alloc: Global, spotted: &Spotted<Quad>, x: i32) -> Result<bool, Memory> {
    let centroid = Quad.rest_of(alloc, &Point { x, y: 0 })?;
    Ok(spotted.tuple().prefix.same(&centroid))
}

/// What the class chooses for a copied tuple, and whether that has the centroid x,0.
fn look_at(alloc: Global, spotted: Spotted<Quad>, x: i32) -> Result<Looked, Memory> {
    let same = has_centroid(alloc, &spotted, x)?;
    let chosen = choose_at(alloc, &Quad, spotted)?;
    Ok((Seen::Choose(same), Some(chosen)))
}

/// What a look of seat 0 gave, with what the class chooses there.
type Looked = (Seen, Option<Chosen<Quad>>);

/// What seat 0 looks at, where the centroid x,0 is looked for.
fn look(alloc: Global, bare: &mut Bare<Quad>, x: i32) -> Result<Looked, Memory> {
    match insert_look(bare, SeatNo::first()) {
        Some(Ok(Look::Stepped(out))) => Ok((Seen::Stepped(out), None)),
        Some(Ok(Look::Choose(spotted))) => look_at(alloc, spotted, x),
        Some(Ok(Look::Part(_))) => Ok((Seen::Part, None)),
        _ => Ok((Seen::Nothing, None)),
    }
}

/// What seat 0 looks at, where nothing is looked for.
fn glance(alloc: Global, bare: &mut Bare<Quad>) -> Result<Seen, Memory> {
    let (seen, _) = look(alloc, bare, 0)?;
    Ok(seen)
}

/// What comes of what was chosen, where something was.
fn choose(
    bare: &mut Bare<Quad>,
    chosen: &Option<Chosen<Quad>>,
) -> Option<Result<InsertOut, ApplyRefused>> {
    match chosen {
        Some(chosen) => insert_choose(bare, SeatNo::first(), chosen),
        None => None,
    }
}

/// What is chosen for an insert of the point x,0 at the root, whose centroid is 147,0.
fn chosen_at_root(
    alloc: Global,
    bare: &mut Bare<Quad>,
    row: Row,
    x: i32,
) -> Result<Option<Chosen<Quad>>, Memory> {
    open(alloc, bare, row, x)?;
    if glance(alloc, bare)? != Seen::Stepped(InsertOut::Descended) {
        return Ok(None);
    }
    match look(alloc, bare, 147)? {
        (Seen::Choose(true), chosen) => Ok(chosen),
        _ => Ok(None),
    }
}

fn went_down(out: &InsertOut) -> Option<bool> {
    if *out == InsertOut::Descended {
        Some(true)
    } else {
        None
    }
}

fn was_changed(why: &ApplyRefused) -> Option<bool> {
    if *why == ApplyRefused::Changed {
        Some(false)
    } else {
        None
    }
}

/// Whether an answer was taken, or else refused as one for another copy.
fn told(came: &Option<Result<InsertOut, ApplyRefused>>) -> Option<bool> {
    match came {
        Some(Ok(out)) => went_down(out),
        Some(Err(why)) => was_changed(why),
        None => None,
    }
}

/// What comes of an answer.
fn is_taken(bare: &mut Bare<Quad>, chosen: &Option<Chosen<Quad>>) -> Option<bool> {
    told(&choose(bare, chosen))
}

/// What was chosen for an insert that is given up.
fn chosen_before(alloc: Global, bare: &mut Bare<Quad>) -> Result<Option<Chosen<Quad>>, Memory> {
    let other = chosen_at_root(alloc, bare, Row::at(9, 2), 299);
    give_up(bare, SeatNo::first());
    other
}

/// Which of these answers are taken: one for another insert, one for this one, and that again.
fn taken(
    bare: &mut Bare<Quad>,
    other: &Option<Chosen<Quad>>,
    chosen: &Option<Chosen<Quad>>,
) -> [Option<bool>; 3] {
    [
        is_taken(bare, other),
        is_taken(bare, chosen),
        is_taken(bare, chosen),
    ]
}

/// An answer that was given for another insert is not taken; one that was given for this one is, once.
fn takes_its_own(alloc: Global, bare: &mut Bare<Quad>) -> Result<bool, Memory> {
    let other = chosen_before(alloc, bare)?;
    let chosen = chosen_at_root(alloc, bare, Row::at(9, 1), 300)?;
    Ok(taken(bare, &other, &chosen) == [Some(false), Some(true), Some(false)])
}

/// The tuple at which seat 0 looks has the centroid x,0, and what the class chooses there is taken.
fn goes_down(alloc: Global, bare: &mut Bare<Quad>, x: i32) -> Result<bool, Memory> {
    let (seen, chosen) = look(alloc, bare, x)?;
    Ok(seen == Seen::Choose(true) && is_taken(bare, &chosen) == Some(true))
}

/// The tuple below has the centroid 220,0, and a leaf is put below that.
fn puts_below(alloc: Global, bare: &mut Bare<Quad>) -> Result<bool, Memory> {
    let down = goes_down(alloc, bare, 220)?;
    Ok(glance(alloc, bare)? == Seen::Stepped(InsertOut::Put) && down)
}

/// Seat 0 opens a scan of the rows at the last point.
fn open_scan(alloc: Global, bare: &mut Bare<Quad>) -> Result<(), Memory> {
    let mut conds = List::new(alloc);
    conds.push(PointCond::Eq(Point {
        x: i32::from(POINTS),
        y: 0,
    }))?;
    let start = Quad.start(alloc)?;
    match bare.open_of(SeatNo::first()) {
        OpenKind::Nothing => bare.open_scan(SeatNo::first(), Query::Where(conds), start),
        _ => Err(Memory),
    }
}

/// The copy of the first item of seat 0's scan.
fn copied(bare: &mut Bare<Quad>) -> Option<Copied<Quad>> {
    match scan_copy(bare, SeatNo::first()) {
        Some(Ok(ScanCopy::Sift(copied))) => Some(copied),
        _ => None,
    }
}

/// What the class answers for the copy of the first item.
fn sifted(alloc: Global, bare: &mut Bare<Quad>) -> Result<Sifted<Quad>, Memory> {
    match copied(bare) {
        Some(copied) => sift(alloc, &Quad, copied),
        None => Err(Memory),
    }
}

/// Whether the scan goes on by an answer, or else refuses it as one for another copy.
fn is_sifted(bare: &mut Bare<Quad>, sifted: &Sifted<Quad>) -> Option<bool> {
    match scan_sifted(bare, SeatNo::first(), sifted) {
        Some(Ok(())) => Some(true),
        Some(Err(SiftRefused::Changed)) => Some(false),
        _ => None,
    }
}

/// The scan goes on by a copy of its first item: what comes of the answer, and of the same once more.
fn go_on(alloc: Global, bare: &mut Bare<Quad>) -> Result<[Option<bool>; 2], Memory> {
    let sifted = sifted(alloc, bare)?;
    Ok([is_sifted(bare, &sifted), is_sifted(bare, &sifted)])
}

/// An answer is taken once. The copies are of the root, of the inner tuple below it and of the chain of 73
/// where the point stands.
fn goes_on(alloc: Global, bare: &mut Bare<Quad>) -> Result<bool, Memory> {
    for _ in 0..3u8 {
        if go_on(alloc, bare)? != [Some(true), Some(false)] {
            return Ok(false);
        }
    }
    Ok(true)
}

/// The scan ends with the row of the point. It has met the two inner tuples and the chain.
fn ends(bare: &mut Bare<Quad>) -> bool {
    match close_scan(bare, SeatNo::first()) {
        Some(Ok(closed)) => {
            closed.met == 75 && closed.rows.as_slice() == [Row::at(1, POINTS)].as_slice()
        }
        _ => false,
    }
}

fn scans_by_copies(alloc: Global, bare: &mut Bare<Quad>) -> Result<bool, Memory> {
    open_scan(alloc, bare)?;
    Ok(goes_on(alloc, bare)? && ends(bare))
}

/// Whether an index whose class is asked on copies has the counts and the journal of one whose sections ask at
/// once, and its scan and inserts go as they are to.
fn take(alloc: Global, bare: &mut Bare<Quad>) -> Result<[bool; 4], Memory> {
    fill(alloc, bare)?;
    let filled = bare.stat() == FILLED && bare.journal().len() == 584;
    let scanned = scans_by_copies(alloc, bare)?;
    let taken = takes_its_own(alloc, bare)?;
    let put = puts_below(alloc, bare)?;
    Ok([filled, scanned, taken, put])
}

fn come(alloc: Global) -> Result<[bool; 4], Memory> {
    let mut bare = Bare::new(alloc, 65536)?;
    let came = take(alloc, &mut bare);
    mem::forget(bare);
    came
}

#[test]
fn goes_on_by_copies(rt: HostRuntime) -> Result<(), Fail> {
    assert!(rt; come(rt.alloc())? == [true; 4]);
    Ok(())
}

ghost use Rattle.std.specs.Prelude.{◌≡◌};

use spg_base::{Bytes, List, Memory, Point, PointCond, Row, SeatNo, Span, Stat};
use spg_near::NearRow;
use spg_opclass::Query;
use spg_quad::Quad;
use spg_report::{Line, Outcome, Record, event_line, push_plain_result, result_line, stat_line};
use spg_rows::{Event, Why};
use std::alloc::Global;
use std::test::Fail;

const STAT: Stat = Stat {
    pages: 5,
    inner: 1,
    leaf: 290,
    redirect: 2,
    dead: 3,
    placeholder: 4,
    clock: 7,
};

/// Whether these bytes were made.
fn is(made: Result<Bytes, Memory>, wanted: &[u8]) -> bool {
    match made {
        Ok(bytes) => bytes.as_slice() == wanted,
        Err(Memory) => false,
    }
}

fn done(outcome: Outcome) -> Record
    ensures { result.outcome ≡ outcome }
{
    Record {
        span: Span { from: 18, to: 20 },
        outcome,
    }
}

fn found(alloc: Global, walk: Option<u64>) -> Result<Outcome, Memory> {
    let mut rows = List::new(alloc);
    rows.push(Row::at(1, 1))?;
    rows.push(Row::at(4_294_967_295, 65_535))?;
    Ok(Outcome::Found { rows, walk })
}

fn near(alloc: Global) -> Result<Outcome, Memory> {
    let mut rows = List::new(alloc);
    rows.push(NearRow {
        distance: 0,
        row: Row::at(1, 1),
    })?;
    rows.push(NearRow {
        distance: 36_893_488_130_239_234_050,
        row: Row::at(4_294_967_295, 65_535),
    })?;
    Ok(Outcome::Near { rows, walk: 12 })
}

/// Whether the line of an outcome is as wanted.
fn tells(line: &mut Line, outcome: Outcome, wanted: &[u8]) -> Result<bool, Memory> {
    line.clear();
    push_plain_result(line, 10, &done(outcome))?;
    Ok(line.as_slice() == wanted)
}

fn tells_of_inserts(line: &mut Line) -> Result<bool, Memory> {
    let by = SeatNo::first();
    Ok(
        tells(line, Outcome::Added, b"10 18 20 added")?
            && tells(line, Outcome::RowUsed, b"10 18 20 row used")?
            && tells(line, Outcome::RowHeld { by }, b"10 18 20 row held by 0")?
            && tells(line, Outcome::Full, b"10 18 20 full")?
            && tells(line, Outcome::ClockFull, b"10 18 20 clock full")?,
    )
}

fn tells_of_searches(line: &mut Line, alloc: Global) -> Result<bool, Memory> {
    let walked = b"10 18 20 found 2 walk 12 1.1 4294967295.65535";
    let plain = b"10 18 20 found 2 1.1 4294967295.65535";
    let nearest = b"10 18 20 near 2 walk 12 1.1:0 4294967295.65535:36893488130239234050";
    Ok(
        tells(line, found(alloc, Some(12))?, walked)?
            && tells(line, found(alloc, None)?, plain)?
            && tells(line, near(alloc)?, nearest)?,
    )
}

fn tells_of_vacuums(line: &mut Line) -> Result<bool, Memory> {
    let by = SeatNo::first();
    Ok(
        tells(line, Outcome::Killed, b"10 18 20 killed")?
            && tells(line, Outcome::NotLive, b"10 18 20 not live")?
            && tells(line, Outcome::Vacuumed(3), b"10 18 20 vacuumed 3")?
            && tells(line, Outcome::OpenBy(by), b"10 18 20 open by 0")?,
    )
}

fn tells_of_the_rest(line: &mut Line) -> Result<bool, Memory> {
    let stat = b"10 18 20 stat pages 5 inner 1 leaf 290 redirect 2 dead 3 placeholder 4 clock 7";
    Ok(
        tells(line, Outcome::Saved(5), b"10 18 20 saved 5")?
            && tells(line, Outcome::ImageFault, b"10 18 20 image fault")?
            && tells(line, Outcome::Stat(STAT), stat)?
            && tells(line, Outcome::Memory, b"10 18 20 memory")?,
    )
}

#[test]
fn tells_what_became_of_a_command(rt: HostRuntime) -> Result<(), Fail> {
    let mut line = Line::new(rt.alloc());
    assert!(rt; tells_of_inserts(&mut line)?);
    assert!(rt; tells_of_searches(&mut line, rt.alloc())?);
    assert!(rt; tells_of_vacuums(&mut line)?);
    assert!(rt; tells_of_the_rest(&mut line)?);
    Ok(())
}

#[test]
fn makes_a_line_of_its_own(rt: HostRuntime) -> Result<(), Fail> {
    let none: [Option<u64>; 0] = [];
    let line = result_line(rt.alloc(), 10, &done(Outcome::Added), none.as_slice());
    assert!(rt; is(line, b"10 18 20 added"));
    let stat = b"stat pages 5 inner 1 leaf 290 redirect 2 dead 3 placeholder 4 clock 7";
    assert!(rt; is(stat_line(rt.alloc(), &STAT), stat));
    Ok(())
}

/// Whether the line of an event is as wanted.
fn shows(alloc: Global, event: Event<Quad>, wanted: &[u8]) -> bool {
    is(event_line(alloc, &Quad, 7, &event), wanted)
}

fn shows_inserts(alloc: Global) -> bool {
    let seat = SeatNo::first();
    let row = Row::at(1, 2);
    let key = Some(Point { x: 3, y: -4 });
    let point = Event::OpenInsert { seat, row, key };
    let null = Event::OpenInsert {
        seat,
        row,
        key: None,
    };
    shows(alloc, point, b"7 0 open insert 1.2 3,-4")
        && shows(alloc, null, b"7 0 open insert 1.2 null")
}

fn shows_rows(alloc: Global) -> bool {
    let seat = SeatNo::first();
    let row = Row::at(1, 2);
    let why = Why::Full;
    shows(alloc, Event::Put { seat, row }, b"7 0 put 1.2")
        && shows(alloc, Event::Drop { seat, row, why }, b"7 0 drop 1.2")
        && shows(alloc, Event::Kill { seat, row }, b"7 0 kill 1.2")
        && shows(alloc, Event::Sweep { seat, row }, b"7 0 sweep 1.2")
}

fn conds(alloc: Global) -> Result<List<PointCond>, Memory> {
    let mut conds = List::new(alloc);
    conds.push(PointCond::Left(3))?;
    conds.push(PointCond::Above(-4))?;
    Ok(conds)
}

fn shows_scans(alloc: Global) -> Result<bool, Memory> {
    let seat = SeatNo::first();
    let all = Event::OpenScan {
        seat,
        query: Query::All,
    };
    let some = Event::OpenScan {
        seat,
        query: Query::Where(conds(alloc)?),
    };
    let rows = List::new(alloc);
    Ok(
        shows(alloc, all, b"7 0 open scan all")
            && shows(alloc, some, b"7 0 open scan where left 3 and above -4")
            && shows(alloc, Event::CloseScan { seat, rows }, b"7 0 close scan 0"),
    )
}

fn shows_vacuums(alloc: Global) -> bool {
    let seat = SeatNo::first();
    shows(alloc, Event::OpenVacuum { seat }, b"7 0 open vacuum")
        && shows(
            alloc,
            Event::CloseVacuum { seat, swept: 1 },
            b"7 0 close vacuum 1",
        )
        && shows(alloc, Event::Leave { seat }, b"7 0 leave")
}

#[test]
fn tells_what_an_event_did(rt: HostRuntime) -> Result<(), Fail> {
    assert!(rt; shows_inserts(rt.alloc()) && shows_rows(rt.alloc()));
    assert!(rt; shows_scans(rt.alloc())?);
    assert!(rt; shows_vacuums(rt.alloc()));
    Ok(())
}

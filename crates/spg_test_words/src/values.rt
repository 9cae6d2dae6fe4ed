ghost use Rattle.std.specs.Prelude.{◌<◌};

use spg_base::{List, Memory, Point, Row, SeatNo, Span};
use spg_inserts::Inserts;
use spg_opclass::{With, WithKey};
use spg_quad::Quad;
use spg_report::{Line, Outcome, Record, push_plain_result, push_valued_result};
use spg_rows::Event;
use spg_script::Spoken;
use std::alloc::Global;
use std::test::Fail;

fn opens(offset: u16, value: u64) -> Event<With<Quad>>
    requires { 0 < offset }
{
    let key = WithKey {
        key: Point { x: 3, y: -4 },
        value,
    };
    Event::OpenInsert {
        seat: SeatNo::first(),
        row: Row::at(1, offset),
        key: Some(key),
    }
}

fn opens_null(offset: u16) -> Event<With<Quad>>
    requires { 0 < offset }
{
    Event::OpenInsert {
        seat: SeatNo::first(),
        row: Row::at(1, offset),
        key: None,
    }
}

/// Row 1.1 is inserted with 7 and later with 0, 1.2 with 5 and later as a null, 1.3 as a null and
/// later with the greatest number.
fn journal(alloc: Global) -> Result<Vec<Event<With<Quad>>>, Memory> {
    let seat = SeatNo::first();
    let mut events = Vec::new(alloc);
    events.push(opens(2, 5))?;
    events.push(opens(1, 7))?;
    events.push(opens_null(3))?;
    events.push(Event::Put {
        seat,
        row: Row::at(1, 2),
    })?;
    events.push(opens(1, 0))?;
    events.push(opens_null(2))?;
    events.push(opens(3, 18_446_744_073_709_551_615))?;
    Ok(events)
}

/// Rows 1.1 to 1.4 are found by the end of this many events.
fn found(alloc: Global, to: u64, walk: Option<u64>) -> Result<Record, Memory> {
    let mut rows = List::new(alloc);
    rows.push(Row::at(1, 1))?;
    rows.push(Row::at(1, 2))?;
    rows.push(Row::at(1, 3))?;
    rows.push(Row::at(1, 4))?;
    Ok(Record {
        span: Span { from: 0, to },
        outcome: Outcome::Found { rows, walk },
    })
}

/// Where a scan ends, what it met, and how it is printed.
const PRINTED: [(u64, Option<u64>, &[u8]); 8] = [
    (0, None, b"9 0 0 found 4 1.1 1.2 1.3 1.4"),
    (1, None, b"9 0 1 found 4 1.1 1.2=5 1.3 1.4"),
    (4, None, b"9 0 4 found 4 1.1=7 1.2=5 1.3 1.4"),
    (4, Some(2), b"9 0 4 found 4 walk 2 1.1=7 1.2=5 1.3 1.4"),
    (5, None, b"9 0 5 found 4 1.1=0 1.2=5 1.3 1.4"),
    (6, None, b"9 0 6 found 4 1.1=0 1.2 1.3 1.4"),
    (
        7,
        None,
        b"9 0 7 found 4 1.1=0 1.2 1.3=18446744073709551615 1.4",
    ),
    (
        18_446_744_073_709_551_615,
        None,
        b"9 0 18446744073709551615 found 4 1.1=0 1.2 1.3=18446744073709551615 1.4",
    ),
];

/// Whether the line is as wanted, with the numbers beside the rows.
fn is_printed<O: Spoken>(
    class: &O,
    inserts: &Inserts<'_, O>,
    values: &mut Vec<Option<u64>>,
    line: &mut Line,
    done: &Record,
    wanted: &[u8],
) -> Result<bool, Memory> {
    line.clear();
    push_valued_result(class, inserts, values, line, 9, done)?;
    Ok(line.as_slice() == wanted)
}

/// Whether each line is as wanted.
fn are_printed<O: Spoken>(
    alloc: Global,
    class: &O,
    inserts: &Inserts<'_, O>,
    line: &mut Line,
) -> Result<bool, Memory> {
    let mut values = Vec::new(alloc);
    let mut all = true;
    for (to, walk, wanted) in &PRINTED {
        let done = found(alloc, *to, *walk)?;
        all = all && is_printed(class, inserts, &mut values, line, &done, wanted)?;
    }
    Ok(all)
}

/// Whether a line that had numbers is printed without them.
fn is_plain(alloc: Global, line: &mut Line) -> Result<bool, Memory> {
    let done = found(alloc, 7, Some(2))?;
    line.clear();
    push_plain_result(line, 9, &done)?;
    let wanted: &[u8] = b"9 0 7 found 4 walk 2 1.1 1.2 1.3 1.4";
    Ok(line.as_slice() == wanted)
}

fn prints<O: Spoken>(alloc: Global, class: &O, journal: &[Event<O>]) -> Result<bool, Memory> {
    let inserts = Inserts::of(alloc, journal)?;
    let mut line = Line::new(alloc);
    Ok(are_printed(alloc, class, &inserts, &mut line)? && is_plain(alloc, &mut line)?)
}

#[test]
fn prints_the_number_that_a_row_had_then(rt: HostRuntime) -> Result<(), Fail> {
    let journal = journal(rt.alloc())?;
    assert!(rt; prints(rt.alloc(), &With { inner: Quad }, journal.as_slice())?);
    Ok(())
}

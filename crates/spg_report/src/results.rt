ghost use Rattle.std.specs.Prelude.{◌≡◌, ◌++◌, ◌∷◌, OnOk, IfOk, codes};
ghost use Rattle.std.specs.List.{AllByRecursion};
ghost use Rattle.spg_script.specs.Spelling.{IsRow};
ghost use Rattle.spg_report.specs.Text.{valued_text, plain_text, outcome_text, valued_row_text, value_on, plain_rows_text, rows_text, found_text, stat_text, near_row_text, near_rows_text, near_text, journal_text};
ghost use Rattle.spg_report.specs.Told.{FitsStat, FitsFound, FitsNearRow, FitsNear, FitsOutcome, FitsRecord, AreValuesFor};

use crate::line::Line;
use crate::outcome::Outcome;
use crate::record::Record;
use spg_base::{Bytes, Memory, Row, Span, Stat};
use spg_near::NearRow;
use spg_script::Tail;
use std::alloc::Global;

/// Adds rows, each behind a space.
fn push_plain_rows(line: &mut Line, rows: &[Row]) -> Result<(), Memory>
    ensures text { OnOk result (line.new ≡ line.old ++ plain_rows_text rows.now) }
    ensures fits { OnOk result (AllByRecursion IsRow rows.now) }
{
    for row in rows {
        line.push(b' ')?;
        line.row(*row)?;
    }
    Ok(())
}

/// Adds a row, and `=` and its number where it has one.
fn push_valued_row(line: &mut Line, row: Row, value: Option<u64>) -> Result<(), Memory>
    ensures text { OnOk result (line.new ≡ line.old ++ valued_row_text row value) }
    ensures fits { OnOk result (IsRow row) }
{
    line.row(row)?;
    match value {
        Some(value) => {
            line.push(b'=')?;
            line.number(value)
        }
        None => Ok(()),
    }
}

/// The number at a place. None past the end.
fn value_on(values: &[Option<u64>], index: usize) -> Option<u64>
    ensures { result ≡ value_on values.now index }
{
    match values.get(index) {
        Some(value) => *value,
        None => None,
    }
}

/// Adds rows, each behind a space and with its number.
fn push_valued_rows(line: &mut Line, rows: &[Row], values: &[Option<u64>]) -> Result<(), Memory>
    ensures text { OnOk result (line.new ≡ line.old ++ rows_text rows.now values.now) }
    ensures fits { OnOk result (AllByRecursion IsRow rows.now) }
{
    for (index, row) in rows.iter().enumerate() {
        line.push(b' ')?;
        push_valued_row(line, *row, value_on(values, index))?;
    }
    Ok(())
}

/// Adds rows, each behind a space. Where there are numbers, each has its own.
fn push_rows(line: &mut Line, rows: &[Row], values: &[Option<u64>]) -> Result<(), Memory>
    ensures text { OnOk result (line.new ≡ line.old ++ rows_text rows.now values.now) }
    ensures fits { OnOk result (AllByRecursion IsRow rows.now) }
{
    if values.is_empty() {
        push_plain_rows(line, rows)
    } else {
        push_valued_rows(line, rows, values)
    }
}

/// Adds counts, each behind its word.
pub fn push_stat(line: &mut Line, stat: &Stat) -> Result<(), Memory>
    ensures text { OnOk result (line.new ≡ line.old ++ stat_text stat.now) }
    ensures fits { OnOk result (FitsStat stat.now) }
{
    line.named(b"stat pages ", u64::from(stat.pages))?;
    line.named(b" inner ", stat.inner)?;
    line.named(b" leaf ", stat.leaf)?;
    line.named(b" redirect ", stat.redirect)?;
    line.named(b" dead ", stat.dead)?;
    line.named(b" placeholder ", stat.placeholder)?;
    line.named(b" clock ", stat.clock)
}

fn push_found(
    line: &mut Line,
    rows: &[Row],
    walk: Option<u64>,
    values: &[Option<u64>],
) -> Result<(), Memory>
    ensures text { OnOk result (line.new ≡ line.old ++ found_text rows.now walk values.now) }
    ensures fits { OnOk result (FitsFound rows.now walk) }
{
    line.named(b"found ", rows.len() as u64)?;
    match walk {
        Some(walk) => {
            line.named(b" walk ", walk)?;
            push_rows(line, rows, values)
        }
        None => push_rows(line, rows, values),
    }
}

/// Adds a row, a colon and its distance.
fn push_near_row(line: &mut Line, near: &NearRow) -> Result<(), Memory>
    ensures text { OnOk result (line.new ≡ line.old ++ near_row_text near.now) }
    ensures fits { OnOk result (FitsNearRow near.now) }
{
    line.row(near.row)?;
    line.push(b':')?;
    line.distance(near.distance)
}

fn push_near_rows(line: &mut Line, rows: &[NearRow]) -> Result<(), Memory>
    ensures text { OnOk result (line.new ≡ line.old ++ near_rows_text rows.now) }
    ensures fits { OnOk result (AllByRecursion FitsNearRow rows.now) }
{
    for near in rows {
        line.push(b' ')?;
        push_near_row(line, near)?;
    }
    Ok(())
}

/// Adds the number of the nearest rows, how many tuples were met, and the rows.
fn push_near(line: &mut Line, rows: &[NearRow], met: u64) -> Result<(), Memory>
    ensures text { OnOk result (line.new ≡ line.old ++ near_text rows.now met) }
    ensures fits { OnOk result (FitsNear rows.now met) }
{
    line.named(b"near ", rows.len() as u64)?;
    line.named(b" walk ", met)?;
    push_near_rows(line, rows)
}

fn push_outcome(line: &mut Line, outcome: &Outcome, values: &[Option<u64>]) -> Result<(), Memory>
    ensures text { OnOk result (line.new ≡ line.old ++ outcome_text outcome.now values.now) }
    ensures fits { OnOk result (FitsOutcome outcome.now) }
{
    match outcome {
        Outcome::Added => line.extend(b"added"),
        Outcome::RowUsed => line.extend(b"row used"),
        Outcome::RowHeld { by } => line.named(b"row held by ", u64::from(by.number())),
        Outcome::Full => line.extend(b"full"),
        Outcome::ClockFull => line.extend(b"clock full"),
        Outcome::Killed => line.extend(b"killed"),
        Outcome::NotLive => line.extend(b"not live"),
        Outcome::Found { rows, walk } => push_found(line, rows.as_slice(), *walk, values),
        Outcome::Vacuumed(swept) => line.named(b"vacuumed ", *swept),
        Outcome::OpenBy(seat) => line.named(b"open by ", u64::from(seat.number())),
        Outcome::Saved(pages) => line.named(b"saved ", u64::from(*pages)),
        Outcome::ImageFault => line.extend(b"image fault"),
        Outcome::Stat(stat) => push_stat(line, stat),
        Outcome::Near { rows, walk } => push_near(line, rows.as_slice(), *walk),
        Outcome::Memory => line.extend(b"memory"),
    }
}

fn push_line(
    line: &mut Line,
    number: u64,
    done: &Record,
    values: &[Option<u64>],
) -> Result<(), Memory>
    ensures text { OnOk result (line.new ≡ line.old ++ valued_text number done.now values.now) }
    ensures fits { OnOk result (FitsRecord done.now) }
{
    let Span { from, to } = done.span;
    let mut front = Tail::new();
    front.byte(b' ');
    front.number(to);
    front.byte(b' ');
    front.number(from);
    front.byte(b' ');
    front.number(number);
    line.extend(front.as_slice())?;
    push_outcome(line, &done.outcome, values)
}

/// Adds the line of a command, without its end: its number, from 1, where it begins and ends in the
/// journal, and what became of it. A row that was found has its number behind it, where it has one.
pub fn push_result(
    line: &mut Line,
    number: u64,
    done: &Record,
    values: &[Option<u64>],
) -> Result<(), Memory>
    requires { AreValuesFor done.now.outcome values.now }
    ensures text { OnOk result (line.new ≡ line.old ++ valued_text number done.now values.now) }
    ensures fits { OnOk result (FitsRecord done.now) }
{
    push_line(line, number, done, values)
}

/// Adds the same line in a class whose keys have no numbers.
pub fn push_plain_result(line: &mut Line, number: u64, done: &Record) -> Result<(), Memory>
    ensures text { OnOk result (line.new ≡ line.old ++ plain_text number done.now) }
    ensures fits { OnOk result (FitsRecord done.now) }
{
    push_line(line, number, done, &[])
}

/// Adds the line before the events, without its end: how many there are.
pub fn push_journal(line: &mut Line, count: u64) -> Result<(), Memory>
    ensures { OnOk result (line.new ≡ line.old ++ journal_text count) }
{
    line.named(b"journal ", count)
}

/// The line of a command, without its end: its number, from 1, where it begins and ends in the
/// journal, and what became of it. A row that was found has its number behind it, where it has one.
pub fn result_line(
    alloc: Global,
    number: u64,
    done: &Record,
    values: &[Option<u64>],
) -> Result<Bytes, Memory>
    requires { AreValuesFor done.now.outcome values.now }
    ensures { IfOk result (λ bytes. bytes ≡ valued_text number done.now values.now) }
{
    let mut line = Line::new(alloc);
    push_result(&mut line, number, done, values)?;
    Bytes::copy(alloc, line.as_slice())
}

/// What `stat` answers: counts, each behind its word.
pub fn stat_line(alloc: Global, stat: &Stat) -> Result<Bytes, Memory>
    ensures { IfOk result (λ bytes. bytes ≡ stat_text stat.now) }
{
    let mut line = Line::new(alloc);
    push_stat(&mut line, stat)?;
    Bytes::copy(alloc, line.as_slice())
}

ghost use Rattle.std.specs.Prelude.{◌≡◌, ◌<◌, ◌^◌, ◌++◌, ◌∷◌, OnOk, IfOk, codes};
ghost use Rattle.spg_base.specs.Text.{row_text};
ghost use Rattle.spg_rows.specs.History.{seat_of};
ghost use Rattle.spg_script.specs.Spelling.{IsRow, conds_text};
ghost use Rattle.spg_script.specs.Speech.{key_or_null_text, query_text};
ghost use Rattle.spg_report.specs.Text.{event_text, deed_text};
ghost use Rattle.spg_report.specs.Told.{Fits};

use crate::line::Line;
use spg_base::{Bytes, Memory, Row, SeatNo};
use spg_opclass::Query;
use spg_rows::Event;
use spg_script::{Spoken, Tail};
use std::alloc::Global;

/// Adds the text of conditions: the first behind `where`, each further one behind `and`.
fn push_conds<O: Spoken>(
    alloc: Global,
    class: &O,
    line: &mut Line,
    conds: &[O::Cond],
) -> Result<(), Memory>
    ensures { OnOk result (line.new ≡ line.old ++ conds_text O.speech.cond_text (codes "where ") conds.now) }
{
    let mut word: &[u8] = b"where ";
    for cond in conds {
        let one = class.cond_text(alloc, cond)?;
        line.extend(word)?;
        line.extend(one.as_slice())?;
        word = b" and ";
    }
    Ok(())
}

fn push_query<O: Spoken>(
    alloc: Global,
    class: &O,
    line: &mut Line,
    query: &Query<O>,
) -> Result<(), Memory>
    ensures { OnOk result (line.new ≡ line.old ++ query_text O.speech query.now) }
{
    match query {
        Query::All => line.extend(b"all"),
        Query::Null => line.extend(b"null"),
        Query::Where(conds) => push_conds(alloc, class, line, conds.as_slice()),
    }
}

fn push_key<O: Spoken>(
    alloc: Global,
    class: &O,
    line: &mut Line,
    key: &Option<O::Key>,
) -> Result<(), Memory>
    ensures { OnOk result (line.new ≡ line.old ++ key_or_null_text O.speech key.now) }
{
    match key {
        Some(key) => line.key(alloc, class, key),
        None => line.extend(b"null"),
    }
}

/// Adds a word and a row.
#[inline(always)]
fn push_on_row(line: &mut Line, word: &[u8], row: Row) -> Result<(), Memory>
    ensures fits { IsRow row }
    ensures text { OnOk result (line.new ≡ line.old ++ (word.now ++ row_text row)) }
{
    let mut text = Tail::new();
    text.row(row);
    line.extend(word)?;
    line.extend(text.as_slice())
}

fn seat_of<O: Spoken>(event: &Event<O>) -> SeatNo
    ensures { result ≡ seat_of event.now }
{
    match *event {
        Event::OpenInsert { seat, .. } => seat,
        Event::Put { seat, .. } => seat,
        Event::Drop { seat, .. } => seat,
        Event::Kill { seat, .. } => seat,
        Event::OpenScan { seat, .. } => seat,
        Event::CloseScan { seat, .. } => seat,
        Event::OpenVacuum { seat } => seat,
        Event::Sweep { seat, .. } => seat,
        Event::CloseVacuum { seat, .. } => seat,
        Event::Leave { seat } => seat,
    }
}

fn push_insert<O: Spoken>(
    alloc: Global,
    class: &O,
    line: &mut Line,
    row: Row,
    key: &Option<O::Key>,
) -> Result<(), Memory>
    ensures fits { IsRow row }
    ensures text { OnOk result (line.new ≡ line.old ++ (codes "open insert " ++ (row_text row ++ 32 ∷ key_or_null_text O.speech key.now))) }
{
    push_on_row(line, b"open insert ", row)?;
    line.push(b' ')?;
    push_key(alloc, class, line, key)
}

fn push_deed<O: Spoken>(
    alloc: Global,
    class: &O,
    line: &mut Line,
    event: &Event<O>,
) -> Result<(), Memory>
    ensures text { OnOk result (line.new ≡ line.old ++ deed_text O.speech event.now) }
    ensures fits { OnOk result (Fits event.now) }
{
    match event {
        Event::OpenInsert { row, key, .. } => push_insert(alloc, class, line, *row, key),
        Event::OpenScan { query, .. } => {
            line.extend(b"open scan ")?;
            push_query(alloc, class, line, query)
        }
        Event::Put { row, .. } => push_on_row(line, b"put ", *row),
        Event::Drop { row, .. } => push_on_row(line, b"drop ", *row),
        Event::Kill { row, .. } => push_on_row(line, b"kill ", *row),
        Event::CloseScan { rows, .. } => line.named(b"close scan ", rows.len() as u64),
        Event::OpenVacuum { .. } => line.extend(b"open vacuum"),
        Event::Sweep { row, .. } => push_on_row(line, b"sweep ", *row),
        Event::CloseVacuum { swept, .. } => line.named(b"close vacuum ", *swept),
        Event::Leave { .. } => line.extend(b"leave"),
    }
}

/// Adds the line of an event, without its end: its position, its seat, and what it did.
pub fn push_event<O: Spoken>(
    alloc: Global,
    class: &O,
    line: &mut Line,
    at: u64,
    event: &Event<O>,
) -> Result<(), Memory>
    ensures text { OnOk result (line.new ≡ line.old ++ event_text O.speech at event.now) }
    ensures seat { OnOk result (seat_of event.now < 2 ^ 64) }
    ensures fits { OnOk result (Fits event.now) }
{
    let mut place = Tail::new();
    place.byte(b' ');
    place.number(u64::from(seat_of(event).number()));
    place.byte(b' ');
    place.number(at);
    line.extend(place.as_slice())?;
    push_deed(alloc, class, line, event)
}

/// The line of an event, without its end: its position, its seat, and what it did.
pub fn event_line<O: Spoken>(
    alloc: Global,
    class: &O,
    at: u64,
    event: &Event<O>,
) -> Result<Bytes, Memory>
    ensures { IfOk result (λ bytes. bytes ≡ event_text O.speech at event.now) }
{
    let mut line = Line::new(alloc);
    push_event(alloc, class, &mut line, at, event)?;
    Bytes::copy(alloc, line.as_slice())
}

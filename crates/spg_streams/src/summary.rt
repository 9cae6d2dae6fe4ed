ghost use Rattle.std.specs.Prelude.{◌≡◌, ◌++◌, IfOk, OnOk, OnErr, count_by, length};
ghost use Rattle.std.specs.Fmt.{decimal};
ghost use Rattle.std.specs.Io.KnownBytes.{Appends};
ghost use Rattle.spg_io.specs.Causes.{HasCauseIfFailed};
ghost use Rattle.spg_report.specs.declared.record.Record.{Record};
ghost use Rattle.spg_report.specs.Text.{ended};
ghost use Rattle.spg_streams.specs.Io.{WroteSome};
ghost use Rattle.spg_streams.specs.Summary.{is_added, added_count, is_sweep, find_line, find_lines, summary_lines, summary};

use crate::writing::write_line;
use spg_base::{List, Memory};
use spg_io::{IoRefused, Sink};
use spg_opclass::OpClass;
use spg_report::{Line, Outcome, Record};
use spg_rows::Event;
use std::alloc::Global;

/// How many finds come last in a generated script.
const FINDS: usize = 3;

/// Whether a row was added.
fn is_added(outcome: &Outcome) -> bool
    ensures { result ≡ is_added outcome.now }
{
    matches!(outcome, Outcome::Added)
}

/// Whether a row was swept.
fn is_sweep<O: OpClass>(event: &Event<O>) -> bool
    ensures { result ≡ is_sweep event.now }
{
    matches!(event, Event::Sweep { .. })
}

/// How many records say `added`.
fn added(records: &[Record]) -> usize
    ensures { result ≡ added_count records.now }
{
    records.iter().filter(|one| is_added(&one.outcome)).count()
}

/// How many rows were swept.
fn swept<O: OpClass>(journal: &[Event<O>]) -> usize
    ensures { result ≡ count_by is_sweep journal.now }
{
    journal.iter().filter(|event| is_sweep(event)).count()
}

/// A word and a number.
fn counted(alloc: Global, word: &[u8], n: usize) -> Result<Line, Memory>
    ensures { IfOk result (λ line. line ≡ word.now ++ decimal n) }
{
    let mut line = Line::new(alloc);
    line.named(word, n as u64)?;
    Ok(line)
}

/// A word and the number of rows that a find gave.
fn find_line(alloc: Global, word: &[u8], outcome: &Outcome) -> Result<Line, Memory>
    ensures { IfOk result (λ line. line ≡ find_line word.now outcome.now) }
{
    match outcome {
        Outcome::Found { rows, .. } => counted(alloc, word, rows.len()),
        _ => {
            let mut line = Line::new(alloc);
            line.extend(word)?;
            line.extend(b"memory")?;
            Ok(line)
        }
    }
}

/// Adds the lines of the three finds.
fn push_finds(alloc: Global, lines: &mut List<Line>, finds: &[Record]) -> Result<(), Memory>
    ensures { OnOk result (lines.new ≡ lines.old ++ find_lines finds.now) }
{
    if let [all, first, second] = finds {
        lines.push(find_line(alloc, b"live ", &all.outcome)?)?;
        lines.push(find_line(alloc, b"first ", &first.outcome)?)?;
        lines.push(find_line(alloc, b"second ", &second.outcome)?)?;
    }
    Ok(())
}

/// The lines of the summary of a run.
fn summary_lines<O: OpClass>(
    alloc: Global,
    journal: &[Event<O>],
    records: &[Record],
) -> Result<List<Line>, Memory>
    ensures { IfOk result (λ lines. lines ≡ summary_lines journal.now records.now) }
{
    let mut lines = List::new(alloc);
    lines.push(counted(alloc, b"added ", added(records))?)?;
    push_finds(
        alloc,
        &mut lines,
        &records[records.len().saturating_sub(FINDS)..],
    )?;
    lines.push(counted(alloc, b"swept ", swept(journal))?)?;
    Ok(lines)
}

/// Writes lines, each with its end.
fn write_lines<K: Sink>(alloc: Global, lines: &[Line], sink: &mut K) -> Result<(), IoRefused>
    ensures ok { OnOk result (Appends (K.contents sink.old) (K.contents sink.new) (ended lines.now)) }
    ensures err { OnErr result (WroteSome (K.contents sink.old) (K.contents sink.new) (ended lines.now)) }
    ensures cause { HasCauseIfFailed (K.faults sink.old) (K.faults sink.new) result }
{
    let mut line = Line::new(alloc);
    for one in lines {
        line.clear();
        line.extend(one.as_slice())?;
        write_line(&mut line, sink)?;
    }
    Ok(())
}

/// Writes the summary of a run: how many rows were added, how many the last three finds gave, and
/// how many were swept.
pub fn write_summary<O: OpClass, K: Sink>(
    alloc: Global,
    journal: &[Event<O>],
    records: &[Record],
    sink: &mut K,
) -> Result<(), IoRefused>
    ensures ok { OnOk result (Appends (K.contents sink.old) (K.contents sink.new) (summary journal.now records.now)) }
    ensures err { OnErr result (WroteSome (K.contents sink.old) (K.contents sink.new) (summary journal.now records.now)) }
    ensures cause { HasCauseIfFailed (K.faults sink.old) (K.faults sink.new) result }
{
    let lines = summary_lines(alloc, journal, records)?;
    write_lines(alloc, lines.as_slice(), sink)
}

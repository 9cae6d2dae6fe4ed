ghost use Rattle.std.specs.Prelude.{◌≡◌, ◌<◌, ◌+◌, ◌^◌, ◌++◌, ◌∷◌, [], OnOk, OnErr, length};
ghost use Rattle.std.specs.Io.KnownBytes.{Appends};
ghost use Rattle.spg_io.specs.Causes.{HasCauseIfFailed};
ghost use Rattle.std.specs.List.{AllByRecursion};
ghost use Rattle.spg_report.specs.Text.{text, ended, result_lines, plain_lines, event_lines};
ghost use Rattle.spg_report.specs.Told.{FitsRecord};
ghost use Rattle.spg_histories.specs.Exact.{FitsTypes, RunFits};
ghost use Rattle.spg_streams.specs.Io.{WroteSome};

use crate::stream::write_all;
use spg_inserts::Inserts;
use spg_io::{IoRefused, Sink};
use spg_report::{Line, Record, push_event, push_journal, push_plain_result, push_valued_result};
use spg_rows::Event;
use spg_script::Spoken;
use std::alloc::Global;

/// Writes a line with its end.
#[inline(always)]
pub fn write_line<K: Sink>(line: &mut Line, sink: &mut K) -> Result<(), IoRefused>
    ensures ok { OnOk result (Appends (K.contents sink.old) (K.contents sink.new) (line.old ++ 10 ∷ [])) }
    ensures err { OnErr result (WroteSome (K.contents sink.old) (K.contents sink.new) (line.old ++ 10 ∷ [])) }
    ensures cause { HasCauseIfFailed (K.faults sink.old) (K.faults sink.new) result }
    ensures answered { OnOk result (K.faults sink.new ≡ K.faults sink.old) }
{
    line.push(b'\n')?;
    write_all(sink, line.as_slice())
}

/// Writes the lines of results in a class whose keys have no numbers.
fn write_plain_results<K: Sink>(
    line: &mut Line,
    records: &[Record],
    sink: &mut K,
) -> Result<(), IoRefused>
    ensures ok { OnOk result (Appends (K.contents sink.old) (K.contents sink.new) (ended (plain_lines 1 records.now))) }
    ensures err { OnErr result (WroteSome (K.contents sink.old) (K.contents sink.new) (ended (plain_lines 1 records.now))) }
    ensures fits { OnOk result (AllByRecursion FitsRecord records.now) }
    ensures few { OnOk result (1 + length records.now < 2 ^ 64) }
    ensures cause { HasCauseIfFailed (K.faults sink.old) (K.faults sink.new) result }
    ensures answered { OnOk result (K.faults sink.new ≡ K.faults sink.old) }
{
    for (index, one) in records.iter().enumerate() {
        line.clear();
        push_plain_result(line, index as u64 + 1, one)?;
        write_line(line, sink)?;
    }
    Ok(())
}

/// Writes the lines of results, with the numbers that the rows had.
fn write_valued_results<O: Spoken, K: Sink>(
    alloc: Global,
    class: &O,
    line: &mut Line,
    inserts: &Inserts<O>,
    records: &[Record],
    sink: &mut K,
) -> Result<(), IoRefused>
    ensures ok { OnOk result (Appends (K.contents sink.old) (K.contents sink.new) (ended (result_lines O.speech inserts.now 1 records.now))) }
    ensures err { OnErr result (WroteSome (K.contents sink.old) (K.contents sink.new) (ended (result_lines O.speech inserts.now 1 records.now))) }
    ensures fits { OnOk result (AllByRecursion FitsRecord records.now) }
    ensures few { OnOk result (1 + length records.now < 2 ^ 64) }
    ensures cause { HasCauseIfFailed (K.faults sink.old) (K.faults sink.new) result }
    ensures answered { OnOk result (K.faults sink.new ≡ K.faults sink.old) }
{
    let mut values = Vec::new(alloc);
    for (index, one) in records.iter().enumerate() {
        line.clear();
        push_valued_result(class, inserts, &mut values, line, index as u64 + 1, one)?;
        write_line(line, sink)?;
    }
    Ok(())
}

fn write_results<O: Spoken, K: Sink>(
    alloc: Global,
    class: &O,
    line: &mut Line,
    journal: &[Event<O>],
    records: &[Record],
    sink: &mut K,
) -> Result<(), IoRefused>
    ensures ok { OnOk result (Appends (K.contents sink.old) (K.contents sink.new) (ended (result_lines O.speech journal.now 1 records.now))) }
    ensures err { OnErr result (WroteSome (K.contents sink.old) (K.contents sink.new) (ended (result_lines O.speech journal.now 1 records.now))) }
    ensures fits { OnOk result (AllByRecursion FitsRecord records.now) }
    ensures few { OnOk result (1 + length records.now < 2 ^ 64) }
    ensures cause { HasCauseIfFailed (K.faults sink.old) (K.faults sink.new) result }
    ensures answered { OnOk result (K.faults sink.new ≡ K.faults sink.old) }
{
    if !class.valued() {
        return write_plain_results(line, records, sink);
    }
    let inserts = Inserts::of(alloc, journal)?;
    write_valued_results(alloc, class, line, &inserts, records, sink)
}

fn write_events<O: Spoken, K: Sink>(
    alloc: Global,
    class: &O,
    line: &mut Line,
    journal: &[Event<O>],
    sink: &mut K,
) -> Result<(), IoRefused>
    ensures ok { OnOk result (Appends (K.contents sink.old) (K.contents sink.new) (ended (event_lines O.speech 0 journal.now))) }
    ensures err { OnErr result (WroteSome (K.contents sink.old) (K.contents sink.new) (ended (event_lines O.speech 0 journal.now))) }
    ensures fits { OnOk result (AllByRecursion FitsTypes journal.now) }
    ensures short { OnOk result (length journal.now < 2 ^ 64) }
    ensures cause { HasCauseIfFailed (K.faults sink.old) (K.faults sink.new) result }
    ensures answered { OnOk result (K.faults sink.new ≡ K.faults sink.old) }
{
    for (at, event) in journal.iter().enumerate() {
        line.clear();
        push_event(alloc, class, line, at as u64, event)?;
        write_line(line, sink)?;
    }
    Ok(())
}

/// Writes the text of a run, line by line.
pub fn write_text<O: Spoken, K: Sink>(
    alloc: Global,
    class: &O,
    journal: &[Event<O>],
    records: &[Record],
    sink: &mut K,
) -> Result<(), IoRefused>
    ensures ok { OnOk result (Appends (K.contents sink.old) (K.contents sink.new) (text O.speech journal.now records.now)) }
    ensures err { OnErr result (WroteSome (K.contents sink.old) (K.contents sink.new) (text O.speech journal.now records.now)) }
    ensures fits { OnOk result (RunFits journal.now records.now) }
    ensures cause { HasCauseIfFailed (K.faults sink.old) (K.faults sink.new) result }
    ensures answered { OnOk result (K.faults sink.new ≡ K.faults sink.old) }
{
    let mut line = Line::new(alloc);
    write_results(alloc, class, &mut line, journal, records, sink)?;
    line.clear();
    push_journal(&mut line, journal.len() as u64)?;
    write_line(&mut line, sink)?;
    write_events(alloc, class, &mut line, journal, sink)
}

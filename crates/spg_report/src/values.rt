ghost use Rattle.std.specs.Prelude.{◌≡◌, ◌++◌, map, OnOk};
ghost use Rattle.spg_report.specs.Text.{value_in, values_found, values_of, result_text};
ghost use Rattle.spg_report.specs.Told.{FitsRecord};

use crate::line::Line;
use crate::outcome::Outcome;
use crate::record::Record;
use crate::results::push_result;
use spg_base::{Memory, Row};
use spg_inserts::Inserts;
use spg_script::Spoken;

/// The number beside the key that a row had before a position. None where it had no key, a null, or
/// one without a number.
fn value_at<O: Spoken>(class: &O, inserts: &Inserts<O>, row: Row, to: u64) -> Option<u64>
    ensures { result ≡ value_in O.speech inserts.now to row }
{
    match inserts.key_at(row, to) {
        Some(Some(key)) => class.value_of(key),
        _ => None,
    }
}

fn push_values<O: Spoken>(
    class: &O,
    inserts: &Inserts<O>,
    to: u64,
    rows: &[Row],
    values: &mut Vec<Option<u64>>,
) -> Result<(), Memory>
    ensures { OnOk result (values.new.items ≡ values.old.items ++ map (λ r. value_in O.speech inserts.now to r) rows.now) }
{
    for row in rows {
        values.push(value_at(class, inserts, *row, to))?;
    }
    Ok(())
}

/// Puts the numbers that a record's line prints in place of what is there: one for each row that was
/// found, and none for any other outcome.
fn set_values<O: Spoken>(
    class: &O,
    inserts: &Inserts<O>,
    done: &Record,
    values: &mut Vec<Option<u64>>,
) -> Result<(), Memory>
    ensures { OnOk result (values.new.items ≡ values_of O.speech inserts.now done.now) }
{
    values.clear();
    match &done.outcome {
        Outcome::Found { rows, .. } => {
            push_values(class, inserts, done.span.to, rows.as_slice(), values)
        }
        _ => Ok(()),
    }
}

/// Adds the line of a command, without its end, with the numbers beside the keys that its rows had
/// where it ended. `values` is room for them, and keeps it for the next line.
pub fn push_valued_result<O: Spoken>(
    class: &O,
    inserts: &Inserts<O>,
    values: &mut Vec<Option<u64>>,
    line: &mut Line,
    number: u64,
    done: &Record,
) -> Result<(), Memory>
    ensures text { OnOk result (line.new ≡ line.old ++ result_text O.speech inserts.now number done.now) }
    ensures fits { OnOk result (FitsRecord done.now) }
{
    set_values(class, inserts, done, values)?;
    push_result(line, number, done, values.as_slice())
}

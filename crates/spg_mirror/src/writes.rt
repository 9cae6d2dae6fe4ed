// The writes of a script, done on a pair.
ghost use Rattle.spg_script.specs.Speech.{IsKnown};
ghost use Rattle.spg_script.specs.declared.command.Command.TheVariants.{Insert, Delete, Vacuum};
ghost use Rattle.spg_mirror.specs.Mirrored.{Writes};

use crate::outcomes::wrote_outcome;
use crate::rest::position;
use spg_base::{Memory, Row, Span};
use spg_commands::key_in;
use spg_report::{Outcome, Record};
use spg_script::{AnyKey, Spoken};
use spg_standby::Pair;

/// Inserts a row with its key, where the row is not claimed.
pub(crate) fn insert<O: Spoken>(pair: &mut Pair<O>, row: Row, key: &Option<AnyKey>) -> Record
    requires known { IsKnown O.speech (Insert row key.now) }
    ensures { Writes O.meaning O.speech pair.old pair.new (Insert row key.now) result }
{
    let from = position(pair);
    let found = match key_in(pair.primary().class(), key) {
        Ok(Some(found)) => found,
        Ok(None) => unreachable!(),
        Err(Memory) => {
            return Record {
                span: Span { from, to: from },
                outcome: Outcome::Memory,
            };
        }
    };
    let (wrote, span) = pair.insert(row, found);
    let _ = position(pair);
    Record {
        span,
        outcome: wrote_outcome(wrote),
    }
}

/// Deletes a row, where it is live.
pub(crate) fn delete<O: Spoken>(pair: &mut Pair<O>, row: Row) -> Record
    ensures { Writes O.meaning O.speech pair.old pair.new (Delete row) result }
{
    let _ = position(pair);
    let (wrote, span) = pair.kill(row);
    let _ = position(pair);
    Record {
        span,
        outcome: wrote_outcome(wrote),
    }
}

/// Removes the entries of the rows that were deleted.
pub(crate) fn vacuum<O: Spoken>(pair: &mut Pair<O>) -> Record
    ensures { Writes O.meaning O.speech pair.old pair.new Vacuum result }
{
    let _ = position(pair);
    let (wrote, span) = pair.vacuum();
    let _ = position(pair);
    Record {
        span,
        outcome: wrote_outcome(wrote),
    }
}

ghost use Rattle.std.specs.Prelude.{◌≡◌, ◌≤◌, Some, length};
ghost use Rattle.spg_script.specs.Speech.{IsKnown, query_in};
ghost use Rattle.spg_script.specs.declared.any_query.AnyQuery.{AnyQuery as Asked};
ghost use Rattle.spg_script.specs.declared.command.Command.TheVariants.{Find};
ghost use Rattle.spg_mirror.specs.Mirrored.{Searches};
ghost use Rattle.spg_standby.specs.Finding.{IsBehind};

use crate::outcomes::found_outcome;
use spg_base::{Memory, Span};
use spg_commands::query_in;
use spg_opclass::Query;
use spg_report::{Outcome, Record};
use spg_script::{AnyQuery, Spoken};
use spg_standby::Pair;
use std::alloc::Global;

/// How many events the standby has applied.
fn applied<O: Spoken>(pair: &Pair<O>) -> u64
    ensures value { result ≡ pair.now.follower.applied }
    ensures within { result ≤ length pair.now.primary.journal }
    ensures behind { IsBehind pair.now.primary.journal result (length pair.now.queue) }
{
    pair.follower().applied()
}

/// Finds rows by the standby. Where there is no memory, it is given up.
fn search<O: Spoken>(pair: &mut Pair<O>, query: Query<O>) -> Record
    ensures { (asked : Asked) → query_in O.speech asked ≡ Some query → Searches O.meaning O.speech pair.old pair.new asked result }
{
    let from = applied(pair);
    match pair.find(query) {
        Ok((closed, span)) => Record {
            span,
            outcome: found_outcome(closed),
        },
        Err(Memory) => Record {
            span: Span {
                from,
                to: applied(pair),
            },
            outcome: Outcome::Memory,
        },
    }
}

/// Finds rows by the standby. Where there is no memory, it is given up: its record then tells how many
/// events were applied before and behind it.
pub(crate) fn find<O: Spoken>(alloc: Global, pair: &mut Pair<O>, query: &AnyQuery) -> Record
    requires known { IsKnown O.speech (Find query.now) }
    ensures { Searches O.meaning O.speech pair.old pair.new query.now result }
{
    match query_in(alloc, pair.primary().class(), query) {
        Ok(Some(query)) => search(pair, query),
        Ok(None) => unreachable!(),
        Err(Memory) => {
            let at = applied(pair);
            Record {
                span: Span { from: at, to: at },
                outcome: Outcome::Memory,
            }
        }
    }
}

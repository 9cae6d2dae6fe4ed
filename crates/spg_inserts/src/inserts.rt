ghost use Rattle.std.specs.Prelude.{◌≡◌, ◌≤◌, ◌++◌, true, false, length, slice_get, option_copied, option_and_then, OnOk, IfOk, IfSome, IfNone};
ghost use Rattle.std.specs.List.Sorted.{IsSorted, IsPartitionPoint};
ghost use Rattle.spg_calls.specs.Calls.{past_at};
ghost use Rattle.spg_rows.specs.Rows.{key_of};
ghost use Rattle.spg_inserts.specs.Openings.{opening_of, opening_key, opening_cmp, is_before, AreListed, IsLastOpening, IsUnopened};

use crate::opening::Opening;
use spg_base::{Memory, Row};
use spg_opclass::OpClass;
use spg_rows::Event;
use std::alloc::Global;
use std::cmp::Ordering;
use std::marker::Model;

/// The inserts that opened in a journal, in order of their rows. Contracts see the journal.
#[derive(Drop)]
pub struct Inserts<'a, O: OpClass> {
    journal: &'a [Event<O>],
    openings: Vec<Opening>,
}

impl<'a, O: OpClass> Model for Inserts<'a, O> {
    ghost use Rattle.std.specs.Prelude.{List};
    ghost use Rattle.spg_rows.specs.declared.event.Event.{Event};
    ghost use Rattle.spg_inserts.specs.Openings.{AreOpenings};

    ghost Value = { List (Event O O.Key O.Recon O.Cond) };

    ghost view = { λ i. i.journal.now };

    ghost invariant = { λ i. AreOpenings i.openings.items i.journal.now };
}

/// Adds the opening of an event, where it opens an insert.
fn push_opening<O: OpClass>(
    openings: &mut Vec<Opening>,
    at: u64,
    event: &Event<O>,
) -> Result<(), Memory>
    ensures { OnOk result (openings.new.items ≡ openings.old.items ++ opening_of at event.now) }
{
    match event {
        Event::OpenInsert { row, .. } => {
            openings.push(Opening { row: *row, at })?;
            Ok(())
        }
        _ => Ok(()),
    }
}

/// The openings of a journal, in its order.
fn listed<O: OpClass>(alloc: Global, journal: &[Event<O>]) -> Result<Vec<Opening>, Memory>
    ensures { IfOk result (λ openings. AreListed (length journal.now) openings.items journal.now) }
{
    let mut openings = Vec::new(alloc);
    for (at, event) in journal.iter().enumerate() {
        push_opening(&mut openings, at as u64, event)?;
    }
    Ok(openings)
}

/// How many openings come before one.
fn count_before(openings: &[Opening], wanted: &Opening) -> usize
    requires { IsSorted opening_cmp openings.now }
    ensures bound { result ≤ length openings.now }
    ensures point { IsPartitionPoint (λ o. is_before wanted.now o ≡ true) (λ o. is_before wanted.now o ≡ false) openings.now result }
{
    openings.partition_point(|one| *one < *wanted)
}

/// The key, or the null, with which an event opens an insert. None exactly where it opens none.
fn opening_key<O: OpClass>(event: &Event<O>) -> Option<&Option<O::Key>>
    ensures { option_copied result ≡ opening_key event.now }
{
    match event {
        Event::OpenInsert { key, .. } => Some(key),
        _ => None,
    }
}

impl<'a, O: OpClass> Inserts<'a, O> {
    /// The inserts of a journal.
    pub fn of(alloc: Global, journal: &'a [Event<O>]) -> Result<Inserts<'a, O>, Memory>
        ensures { IfOk result (λ inserts. inserts ≡ journal.now) }
    {
        let mut openings = listed(alloc, journal)?;
        openings.sort_unstable();
        Ok(Inserts { journal, openings })
    }

    /// Where the last insert of a row opened that opened before a position.
    fn last_before(&self, row: Row, to: u64) -> Option<u64>
        ensures some { IfSome result (λ at. IsLastOpening self.now row to at) }
        ensures none { IfNone result (IsUnopened self.now row to) }
    {
        let count = count_before(self.openings.as_slice(), &Opening { row, at: to });
        if count == 0 {
            return None;
        }
        let last = self.openings[count - 1];
        match last.row.cmp(&row) {
            Ordering::Less => None,
            Ordering::Equal => Some(last.at),
            Ordering::Greater => None,
        }
    }

    /// The key, or the null, with which an insert opened at a position. None where none did.
    fn opened_with(&self, at: u64) -> Option<&Option<O::Key>>
        ensures { option_copied result ≡ option_and_then opening_key (slice_get self.now at) }
    {
        match self.journal.get(at as usize) {
            Some(event) => opening_key(event),
            None => None,
        }
    }

    /// The key, or the null, of the last insert of a row that opened before a position. None exactly
    /// where no insert of it did.
    pub fn key_at(&self, row: Row, to: u64) -> Option<&Option<O::Key>>
        ensures { option_copied result ≡ key_of row (past_at to self.now) }
    {
        match self.last_before(row, to) {
            Some(at) => self.opened_with(at),
            None => None,
        }
    }
}

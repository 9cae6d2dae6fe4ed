ghost use Rattle.std.specs.Prelude.{◌≡◌, ◌↔◌, [], Some, None, IsTrue, IfSome, IfNone, IfOk, IfErr, OnOk, OnErr, is_some, option_copied};
ghost use Rattle.spg_rows.specs.Table.{entry_in, entry_with, SetsEntry};
ghost use Rattle.spg_rows.specs.Run.{IsAt, IsBehind};

use crate::table::{RowEntry, Stand};
use spg_base::{Memory, Row};
use spg_opclass::OpClass;
use std::alloc::Global;
use std::cmp::Ordering;
use std::marker::Model;

/// Entries in ascending order of their rows: a new one goes behind all others.
#[derive(Drop)]
pub(crate) struct Run<O: OpClass> {
    entries: Vec<(Row, RowEntry<O>)>,
    /// Where the rows of each block begin, from the first row's block on: hints, by which a row is
    /// looked for first.
    starts: Vec<usize>,
}

impl<O: OpClass> Model for Run<O> {
    ghost use Rattle.spg_rows.specs.Table.{Table};
    ghost use Rattle.spg_rows.specs.Run.{Rises};

    ghost Value = { Table O O.Key O.Recon O.Cond };

    ghost view = { λ r. r.entries.items };

    ghost invariant = { λ r. Rises r.entries.items };
}

impl<O: OpClass> Run<O> {
    /// No entries.
    pub fn new(alloc: Global) -> Run<O>
        ensures { result ≡ [] }
    {
        Run {
            entries: Vec::new(alloc),
            starts: Vec::new(alloc),
        }
    }

    /// Takes room for so many more entries, where it is to be had.
    pub fn expect(&mut self, count: usize)
        ensures { self.new ≡ self.old }
    {
        let _ = self.entries.reserve(count);
    }

    /// Where a row stands whose block has a hint and has no row left out before it.
    fn hint(&self, row: Row) -> Option<usize> {
        let first = self.entries.first()?.0.block();
        let block = row.block().checked_sub(first)?;
        let start = *self.starts.get(block as usize)?;
        let offset = self.entries.get(start)?.0.offset();
        start.checked_add(row.offset().checked_sub(offset)? as usize)
    }

    /// Where the row stands, if it stands where the hint says.
    fn hinted(&self, row: Row) -> Option<usize>
        ensures { IfSome result (IsAt self.now row) }
    {
        let at = self.hint(row)?;
        if self.entries.get(at)?.0 == row {
            Some(at)
        } else {
            None
        }
    }

    /// Notes where the rows of a block begin, if each block between the first row's and this one has a
    /// hint. Where there is no memory, nothing is noted.
    fn note(&mut self, block: u32, at: usize)
        ensures { self.new ≡ self.old }
    {
        let Some(first) = self.entries.first() else {
            return;
        };
        let Some(since) = block.checked_sub(first.0.block()) else {
            return;
        };
        if since as usize == self.starts.len() {
            let _ = self.starts.push(at);
        }
    }

    /// Where the row stands, or would stand.
    fn search(&self, row: Row) -> Result<usize, usize>
        ensures found { IfOk result (IsAt self.now row) }
        ensures absent { IfErr result (λ _. entry_in self.now row ≡ None) }
    {
        self.entries.binary_search_by_key(&row, |entry| entry.0)
    }

    /// Where the row stands. The last one is looked at first, since most calls are about it.
    fn place(&self, row: Row) -> Option<usize>
        ensures at { IfSome result (IsAt self.now row) }
        ensures none { IfNone result (entry_in self.now row ≡ None) }
    {
        match self.entries.last() {
            Some(last) => match last.0.cmp(&row) {
                Ordering::Less => None,
                Ordering::Equal => Some(self.entries.len() - 1),
                Ordering::Greater => match self.hinted(row) {
                    Some(at) => Some(at),
                    None => self.search(row).ok(),
                },
            },
            None => None,
        }
    }

    /// The entry of a row.
    pub fn get(&self, row: Row) -> Option<&RowEntry<O>>
        ensures { option_copied result ≡ entry_in self.now row }
    {
        match self.place(row) {
            Some(at) => Some(&self.entries[at].1),
            None => None,
        }
    }

    /// Whether the row is above all others.
    pub fn is_behind(&self, row: Row) -> bool
        ensures { IsTrue result ↔ IsBehind self.now row }
    {
        match self.entries.last() {
            Some(last) => match last.0.cmp(&row) {
                Ordering::Less => true,
                Ordering::Equal | Ordering::Greater => false,
            },
            None => true,
        }
    }

    /// Adds an entry at the end.
    pub fn push(&mut self, row: Row, entry: RowEntry<O>) -> Result<(), Memory>
        requires { IsBehind self.old row }
        ensures ok { OnOk result (SetsEntry self.old self.new row (Some entry)) }
        ensures err { OnErr result (self.new ≡ self.old) }
    {
        let at = self.entries.len();
        self.entries.push((row, entry))?;
        self.note(row.block(), at);
        Ok(())
    }

    /// Puts an entry in place of the row's, or gives it back where the row has none.
    pub fn replace(&mut self, row: Row, entry: RowEntry<O>) -> Option<RowEntry<O>>
        ensures taken { IfNone result (SetsEntry self.old self.new row (Some entry)) }
        ensures back { IfSome result (λ back. (back ≡ entry) × (self.new ≡ self.old) × (entry_in self.old row ≡ None)) }
    {
        match self.place(row) {
            Some(at) => {
                self.entries[at] = (row, entry);
                None
            }
            None => Some(entry),
        }
    }

    /// Sets the state in the entry of a row. False exactly where the row has none.
    pub fn set_stand(&mut self, row: Row, stand: Stand) -> bool
        ensures found { result ≡ is_some (entry_in self.old row) }
        ensures set { SetsEntry self.old self.new row (entry_with stand (entry_in self.old row)) }
    {
        match self.place(row) {
            Some(at) => {
                self.entries[at].1.stand = stand;
                true
            }
            None => false,
        }
    }

    /// Takes the entry of a row away, where it has one.
    pub fn remove(&mut self, row: Row)
        ensures { SetsEntry self.old self.new row None }
    {
        if let Some(at) = self.place(row) {
            self.entries.remove(at);
        }
    }
}

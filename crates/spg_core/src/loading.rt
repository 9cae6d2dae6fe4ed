//! The journal and the rows of a state that is made of an image.
ghost use Rattle.std.specs.Prelude.{◌≡◌, map, reverse, IfOk, OnOk};
ghost use Rattle.spg_rows.specs.Table.{state_in};
ghost use Rattle.spg_rows.specs.declared.table.RowState.TheVariants as row_state;
ghost use Rattle.spg_rows.specs.Loads.{load_events, AreApart};
ghost use Rattle.spg_seats.specs.Opening.{RowsTell};
ghost use Rattle.spg_verdict.specs.Entries.{entries_of};
ghost use Rattle.std.specs.List.Sorted.{IsPermutation};
ghost use Rattle.spg_core.specs.Loading.{LoadsRow};

use crate::kept_inserts::copy_key;
use spg_base::{Memory, SeatNo};
use spg_keys::Listed;
use spg_opclass::OpClass;
use spg_rows::{Entry, Event, Journal, RowTable};
use std::alloc::Global;

/// The events of one entry.
const EVENTS: u64 = 2;

/// The leaves in order of their rows.
fn by_row<'a, K>(alloc: Global, listed: &'a [Listed<K>]) -> Result<Vec<&'a Listed<K>>, Memory>
    ensures { IfOk result (λ leaves. IsPermutation listed.now (map (λ b. b.now) leaves.items)) }
{
    let mut leaves = Vec::new(alloc);
    for one in listed {
        leaves.push(one)?;
    }
    leaves.sort_unstable_by_key(|one| one.entry.row);
    Ok(leaves)
}

/// A free row is claimed with its key, and put.
fn load_row<O: OpClass>(rows: &mut RowTable<O>, entry: &Entry<O::Key>) -> Result<(), Memory>
    requires { state_in rows.old entry.now.row ≡ row_state.Free }
    ensures { OnOk result (LoadsRow rows.old rows.new entry.now) }
{
    let key = copy_key::<O>(&entry.key)?;
    rows.claim(entry.row, key)?;
    rows.put(entry.row);
    Ok(())
}

/// The table of rows of a load. They are put in ascending order, so that each goes behind the others.
fn load_rows<O: OpClass>(alloc: Global, listed: &[Listed<O::Key>]) -> Result<RowTable<O>, Memory>
    requires { AreApart (entries_of listed.now) }
    ensures { IfOk result (λ rows. RowsTell rows (reverse (load_events (entries_of listed.now)))) }
{
    let mut rows = RowTable::new(alloc);
    let leaves = by_row(alloc, listed)?;
    for one in leaves.as_slice() {
        load_row(&mut rows, &one.entry)?;
    }
    Ok(rows)
}

/// The journal of a load: each entry is opened and put, in their order, by seat 0.
fn load_journal<O: OpClass>(alloc: Global, listed: &[Listed<O::Key>]) -> Result<Journal<O>, Memory>
    ensures { IfOk result (λ journal. journal.events ≡ load_events (entries_of listed.now)) }
{
    let mut journal = Journal::new(alloc);
    let seat = SeatNo::first();
    for one in listed {
        let row = one.entry.row;
        let key = copy_key::<O>(&one.entry.key)?;
        journal.reserve(EVENTS)?;
        journal.append(Event::OpenInsert { seat, row, key });
        journal.append(Event::Put { seat, row });
    }
    Ok(journal)
}

/// The table of rows and the journal of a load: each entry is opened and put, in their order, by seat 0.
pub fn load_entries<O: OpClass>(
    alloc: Global,
    listed: &[Listed<O::Key>],
) -> Result<(RowTable<O>, Journal<O>), Memory>
    requires { AreApart (entries_of listed.now) }
    ensures events { IfOk result (λ made. made.1.events ≡ load_events (entries_of listed.now)) }
    ensures rows { IfOk result (λ made. RowsTell made.0 (reverse made.1.events)) }
{
    let rows = load_rows::<O>(alloc, listed)?;
    let journal = load_journal::<O>(alloc, listed)?;
    Ok((rows, journal))
}

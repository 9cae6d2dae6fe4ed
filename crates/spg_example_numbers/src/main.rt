//! A program over a class of its own: an index of readings, each under the second at which it was taken.
#![tactic(auto)]

ghost use Rattle.std.specs.Prelude.{◌∷◌, [], IfOk};
ghost use Rattle.spg_opclass.specs.declared.query.Query.TheVariants.{Where};
ghost use Rattle.spg_whole.specs.Calls.{FindsRows};
ghost use Rattle.spg_example_trie.specs.Trie.{numbers_meaning};

use spg_base::{List, Memory, Row, Rows};
use spg_example_trie::{Number, NumberCond, Numbers};
use spg_opclass::Query;
use spg_whole::{Index, InsertRefused};
use std::alloc::Global;
use std::mem::forget;

/// The second of the first reading.
const FIRST: u64 = 1 << 40;

/// Inserts a thousand readings, one each 97 seconds.
fn insert_all(index: &mut Index<Numbers>) -> Result<(), InsertRefused> {
    for n in 0..1000u16 {
        let value = FIRST + u64::from(n) * 97;
        index.insert(Row::at(1, n + 1), Some(Number { value }))?;
    }
    Ok(())
}

/// The readings of which a condition holds.
fn find(alloc: Global, index: &mut Index<Numbers>, cond: NumberCond) -> Result<Rows, Memory>
    ensures ok { IfOk result (λ rows. FindsRows numbers_meaning index.old index.new 0 (Where (cond ∷ [])) rows) }
{
    let mut conds = List::new(alloc);
    conds.push(cond)?;
    index.find(Query::Where(conds))
}

/// Finds readings, deletes them, and finds them no more.
fn readings(rt: &HostRuntime, index: &mut Index<Numbers>) -> anyhow::Result<()> {
    let alloc = rt.alloc();
    insert_all(index)?;
    let second = find(alloc, index, NumberCond::Eq(FIRST + 97))?;
    let low = FIRST + 3_600;
    let minutes = NumberCond::Between {
        low,
        high: low + 399,
    };
    let found = find(alloc, index, minutes)?;
    println!(rt;
        "{} at the second time, {} in the minutes",
        second.len(),
        found.len()
    )?;
    for row in found.as_slice() {
        println!(rt; "{row}")?;
        index.delete(*row)?;
    }
    let swept = index.vacuum()?;
    let left = find(alloc, index, minutes)?;
    println!(rt; "{swept} swept, {} left", left.len())?;
    Ok(())
}

fn main(rt: HostRuntime) -> anyhow::Result<()> {
    let mut index = Index::new(rt.alloc(), Numbers, 65_536)?;
    let done = readings(&rt, &mut index);
    // The process ends here: its memory is given back as a whole.
    forget(index);
    done
}

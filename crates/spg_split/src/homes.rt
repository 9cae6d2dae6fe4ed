ghost use Rattle.std.specs.Prelude.{◌≡◌, ◌<◌, ◌≤◌, ◌+◌, ◌-◌, ◌++◌, ℕ, Bool, length, IfOk, OnErr, IsErrOf};
ghost use Rattle.spg_forest.specs.Sheets.{size_of};
ghost use Rattle.spg_tree.specs.Table.{tuples_at};
ghost use Rattle.spg_tree.specs.declared.stand.StepRefused.TheVariants.{IndexFull, ClockFull};
ghost use Rattle.spg_split.specs.Fulls.{AreHomesFull};
ghost use Rattle.spg_split.specs.Homes as homes;
ghost use Rattle.spg_split.specs.Homes.{PicksHomes, blocks_touched};

use crate::plan::ListSize;
use spg_base::{Block, SeatNo, parity};
use spg_page::TupleBytes;
use spg_tree::{PageTable, StepRefused, Touched, Want};
use std::alloc::Global;

/// The pages to which the tuples of a division go.
#[derive(Clone, Copy, Debug)]
pub(crate) struct Homes {
    /// That of the inner tuple.
    pub(crate) inner: Block,
    /// That of the lists which leave the old page, and the old page itself where none does.
    pub(crate) rest: Block,
}

/// Whether the inner tuple goes on the page of the tuple above it.
fn fits_above(table: &PageTable, parent: Block, need: u16) -> bool
    requires { parent < length table.now.pages }
    ensures { result ≡ homes.fits_above table.now parent need }
{
    3 <= parent.0 && need <= table.page(parent).room(1)
}

/// What is asked of a page for an inner tuple.
fn inner_want(nulls: bool, parent: Block, need: u16, seat: SeatNo) -> Want
    ensures { result ≡ homes.inner_want nulls parent need seat }
{
    Want::inner(nulls, (parity(parent) + 1) % 3, need, seat)
}

/// What is asked of a page for lists.
fn rest_want(nulls: bool, old: Block, rest: ListSize, seat: SeatNo) -> Want
    requires bytes { rest.bytes ≤ 8160 }
    requires tuples { rest.tuples ≤ 409 }
    ensures { result ≡ homes.rest_want nulls old rest seat }
{
    Want::leaf(nulls, rest.bytes as u16, rest.tuples as u16, seat).avoiding(old)
}

/// Picks the pages that a division needs: both or none.
pub(crate) fn pick_homes(
    alloc: Global,
    table: &mut PageTable,
    old: Block,
    parent: Block,
    inner: &TupleBytes,
    rest: ListSize,
    seat: SeatNo,
) -> Result<Homes, StepRefused>
    requires old { old < length table.old.pages }
    requires parent { parent < length table.old.pages }
    requires bytes { rest.bytes ≤ 8160 }
    requires tuples { rest.tuples ≤ 409 }
    ensures ok { IfOk result (λ homes. PicksHomes table.old table.new old parent (size_of inner.now + 4) rest seat homes) }
    ensures full { IsErrOf result IndexFull → AreHomesFull table.old old parent (size_of inner.now + 4) rest seat }
    ensures clock { IsErrOf result ClockFull → ⊥ }
    ensures err { OnErr result (table.new ≡ table.old) }
{
    let nulls = table.page(old).is_nulls();
    let need = inner.size() + 4;
    let first = inner_want(nulls, parent, need, seat);
    let second = rest_want(nulls, old, rest, seat);
    let here = fits_above(table, parent, need);
    let away = 1 <= rest.tuples;
    match (here, away) {
        (true, false) => Ok(Homes {
            inner: parent,
            rest: old,
        }),
        (true, true) => {
            let block = table.pick(alloc, &second)?;
            Ok(Homes {
                inner: parent,
                rest: block,
            })
        }
        (false, false) => {
            let block = table.pick(alloc, &first)?;
            Ok(Homes {
                inner: block,
                rest: old,
            })
        }
        (false, true) => {
            let (inner, rest) = table.pick_two(alloc, &first, &second)?;
            Ok(Homes { inner, rest })
        }
    }
}

/// The blocks that a division below a root changes or has added.
pub(crate) fn touched_by(old: Block, parent: Block, homes: &Homes, before: u32, now: u32) -> Touched
    requires ordered { before ≤ now }
    requires few { now - before ≤ 4 }
    ensures { result ≡ blocks_touched old parent homes.now before now }
{
    let mut touched = Touched::new();
    touched.push(old);
    touched.push(parent);
    touched.push_another(homes.inner, parent, before);
    touched.push_another(homes.rest, old, before);
    touched.push_range(before, now);
    touched
}

ghost use Rattle.std.specs.Prelude.{◌≡◌, ◌<◌, ◌++◌, ◌∷◌, [], length, Option, IfOk, IfSome};
ghost use Rattle.spg_forest.specs.Links.{leaves_on};
ghost use Rattle.spg_forest.specs.Divisions.{rests_of};
ghost use Rattle.spg_forest.specs.Shape.{Shape};
ghost use Rattle.spg_chain.specs.Chains.{chain_members, leaves_of};
ghost use Rattle.spg_tree.specs.Table.{sheets_of};
ghost use Rattle.spg_descend.specs.Carried.{carried, IsCarried};
ghost use Rattle.spg_split.specs.Cases.{IsSplitSpot};
ghost use Rattle.spg_split.specs.Dividing.{AreAllLive};
ghost use Rattle.spg_split.specs.Parting.{IsPartedAt};
ghost use Rattle.spg_split.specs.Parting as parting;

use spg_base::{Bytes, List, Memory, Offset, Place, Same};
use spg_chain::walk_chain;
use spg_opclass::{Bunch, OpClass};
use spg_page::Page;
use spg_tree::{Descent, PageTable, Stand};
use std::alloc::Global;

/// The rests of the leaves of a page that has nothing else.
fn rests_on(alloc: Global, page: &Page) -> Result<List<Bytes>, Memory>
    requires { AreAllLive page.now.tuples }
    ensures { IfOk result (λ rests. rests ≡ rests_of (leaves_on page.now.tuples)) }
{
    let mut rests = List::new(alloc);
    for index in 0..page.count() {
        rests.push(Bytes::copy(alloc, page.rest_at(Offset(index + 1)))?)?;
    }
    Ok(rests)
}

/// The rests of the leaves of the chain at a head.
fn rests_of_chain(alloc: Global, page: &Page, head: Offset) -> Result<List<Bytes>, Memory>
    ensures { IfOk result (λ rests. rests ≡ rests_of (leaves_of (chain_members page.now.tuples head))) }
{
    let mut rests = List::new(alloc);
    for leaf in walk_chain(page, head) {
        rests.push(Bytes::copy(alloc, leaf.rest)?)?;
    }
    Ok(rests)
}

/// The rests of the leaves of a root leaf page in their order, and that of an insert behind them.
fn rests_at_root<O: OpClass>(
    alloc: Global,
    page: &Page,
    descent: &Descent<O>,
) -> Result<List<Bytes>, Memory>
    requires { AreAllLive page.now.tuples }
    ensures { IfOk result (λ rests. rests ≡ rests_of (leaves_on page.now.tuples ++ carried descent.now ∷ [])) }
{
    let mut rests = rests_on(alloc, page)?;
    rests.push(Bytes::copy(alloc, descent.rest().as_slice())?)?;
    Ok(rests)
}

/// The rests of the leaves of the chain at a head in chain order, and that of an insert behind them.
fn rests_at_chain<O: OpClass>(
    alloc: Global,
    page: &Page,
    head: Offset,
    descent: &Descent<O>,
) -> Result<List<Bytes>, Memory>
    ensures { IfOk result (λ rests. rests ≡ rests_of (leaves_of (chain_members page.now.tuples head) ++ carried descent.now ∷ [])) }
{
    let mut rests = rests_of_chain(alloc, page, head)?;
    rests.push(Bytes::copy(alloc, descent.rest().as_slice())?)?;
    Ok(rests)
}

/// The rests of the leaves that are to be divided where an insert stands, with its own.
fn rests_at<O: OpClass>(
    alloc: Global,
    table: &PageTable,
    descent: &Descent<O>,
) -> Result<List<Bytes>, Memory>
    requires shape { Shape O.meaning (sheets_of table.now) }
    requires spot { IsSplitSpot table.now descent.now }
    requires of_key { (key : Option O.Key) × IsCarried O.meaning (sheets_of table.now) descent.now key }
    ensures { IfOk result (λ rests. rests ≡ parting.rests_at table.now descent.now) }
{
    match descent.stand() {
        Stand::Root(root) => rests_at_root(alloc, table.page(root), descent),
        Stand::At(head) => {
            let Place { block, offset } = head;
            rests_at_chain(alloc, table.page(block), offset, descent)
        }
        Stand::Start | Stand::Empty => unreachable!(),
    }
}

/// A copy of the values that are to be divided where an insert stands: the rebuilt value there, the
/// rests of the leaves of a root leaf page in offset order or of a chain in chain order, and that of
/// the insert behind them. None exactly where they are nulls.
pub fn bunch_at<O: OpClass>(
    alloc: Global,
    table: &PageTable,
    descent: &Descent<O>,
) -> Result<Option<Bunch<O>>, Memory>
    requires shape { Shape O.meaning (sheets_of table.now) }
    requires spot { IsSplitSpot table.now descent.now }
    requires of_key { (key : Option O.Key) × IsCarried O.meaning (sheets_of table.now) descent.now key }
    ensures parted { IfOk result (λ bunch. IsPartedAt table.now descent.now bunch) }
    ensures some { IfOk result (λ bunch. IfSome bunch (λ b. 0 < length b.rests)) }
{
    match descent.recon() {
        None => Ok(None),
        Some(recon) => {
            let rests = rests_at(alloc, table, descent)?;
            Ok(Some(Bunch::new(recon.copy()?, rests)))
        }
    }
}

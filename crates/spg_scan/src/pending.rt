// What a scan still has to do, item by item.
ghost use Rattle.std.specs.Prelude.{◌≡◌, ◌↔◌, Option, IsTrue, Some as Just, IfOk};
ghost use Rattle.spg_scan.specs.Held.{kept_as, item_of};
ghost use Rattle.spg_scan.specs.Items.{held};
ghost use Rattle.spg_scan.specs.Copying.{conds_of, kept_copy};

use spg_base::{List, Memory, Place, Same};
use spg_opclass::{Copied, InnerCopy, LeavesCopy, OpClass, Query};
use std::alloc::Global;

/// A place that a scan still has to read, with its rebuilt value, which the nulls tree has not. A
/// root stands at offset 0 of its block.
#[derive(Drop)]
pub(crate) struct Held<O: OpClass> {
    pub(crate) place: Place,
    pub(crate) recon: Option<O::Recon>,
}

/// What a scan copied, which is being sifted.
#[derive(Drop)]
pub(crate) enum Kept<O: OpClass> {
    Inner(InnerCopy<O>),
    Leaves(LeavesCopy<O>),
}

/// An item of a scan: a place to be read, or a copy.
#[derive(Drop)]
pub(crate) enum Pending<O: OpClass> {
    Held(Held<O>),
    Kept(Kept<O>),
}

/// The conditions under which a query's copies are sifted. A query for all rows has none.
fn conds_of<O: OpClass>(alloc: Global, query: &Query<O>) -> Result<List<O::Cond>, Memory>
    ensures { IfOk result (λ conds. conds ≡ conds_of query.now) }
{
    match query {
        Query::Where(conds) => Ok(conds.copy()?),
        _ => Ok(List::new(alloc)),
    }
}

/// Whether these are the conditions under which a query's copies are sifted.
fn are_conds<O: OpClass>(query: &Query<O>, conds: &List<O::Cond>) -> bool
    ensures { IsTrue result ↔ (conds_of query.now ≡ conds.now) }
{
    match query {
        Query::Where(own) => own.same(conds),
        _ => conds.is_empty(),
    }
}

/// An equal copy with the conditions, for the class to sift.
pub(crate) fn hand_out<O: OpClass>(
    alloc: Global,
    query: &Query<O>,
    kept: &Kept<O>,
) -> Result<Copied<O>, Memory>
    ensures { IfOk result (λ copied. kept_copy query.now (kept_as kept.now) ≡ Just copied) }
{
    let conds = conds_of(alloc, query)?;
    match kept {
        Kept::Inner(tuple) => Ok(Copied::Inner {
            tuple: tuple.copy()?,
            conds,
        }),
        Kept::Leaves(leaves) => {
            let _ = leaves.recon();
            Ok(Copied::Leaves {
                leaves: leaves.copy()?,
                conds,
            })
        }
    }
}

/// Whether a copy that was handed out is this one.
pub(crate) fn is_copy_of<O: OpClass>(query: &Query<O>, kept: &Kept<O>, copied: &Copied<O>) -> bool
    ensures { IsTrue result ↔ (kept_copy query.now (kept_as kept.now) ≡ Just copied.now) }
{
    match (kept, copied) {
        (Kept::Inner(own), Copied::Inner { tuple, conds }) => {
            own.same(tuple) && are_conds(query, conds)
        }
        (Kept::Leaves(own), Copied::Leaves { leaves, conds }) => {
            let _ = own.recon();
            own.same(leaves) && are_conds(query, conds)
        }
        _ => false,
    }
}

/// The rebuilt value of an item that is a place.
pub(crate) fn recon_of<O: OpClass>(item: &Pending<O>) -> &Option<O::Recon>
    requires { (x : Place) × (r : Option O.Recon) × (item_of item.now ≡ held x r) }
    ensures { (x : Place) → (r : Option O.Recon) → item_of item.now ≡ held x r → result.now ≡ r }
{
    match item {
        Pending::Held(held) => &held.recon,
        Pending::Kept(_) => unreachable!(),
    }
}

ghost use Rattle.std.specs.Prelude.{◌≡◌, IfOk, All, true};
ghost use Rattle.spg_opclass.specs.Copies.{kept_at, matching_at};
ghost use Rattle.spg_opclass.specs.Sifting.{nodes_of, rows_of, AreAsked};

use crate::class::OpClass;
use crate::copied::{Copied, InnerCopy, LeavesCopy};
use spg_base::{List, Memory, Rows};
use std::alloc::Global;
use std::marker::Model;

/// A copy that the class sifted: the nodes of an inner tuple to go on to, each with its rebuilt
/// value, or the rows of leaves whose key meets every condition. Contracts see the copy alone, since
/// the class tells the others of it.
#[derive(Drop)]
pub struct Sifted<O: OpClass> {
    copied: Copied<O>,
    nodes: List<(u16, O::Recon)>,
    rows: Rows,
}

impl<O: OpClass> Model for Sifted<O> {
    ghost use Rattle.spg_opclass.specs.declared.copied.Copied.{Copied};

    ghost Value = { Copied O O.Key O.Recon O.Cond };

    ghost use Rattle.spg_opclass.specs.Sifting.{IsSifting};

    ghost view = { λ s. s.copied };

    ghost invariant = { λ s. IsSifting O.meaning s.copied s.nodes s.rows };
}

impl<O: OpClass> Sifted<O> {
    /// The copy.
    pub fn copied(&self) -> &Copied<O>
        ensures value { result.now ≡ self.now }
        ensures asked { AreAsked O.meaning self.now }
    {
        &self.copied
    }

    /// The nodes to go on to, in order, each with its rebuilt value. Of leaves there are none.
    pub fn nodes(&self) -> &List<(u16, O::Recon)>
        ensures value { result.now ≡ nodes_of O.meaning self.now }
        ensures asked { AreAsked O.meaning self.now }
    {
        &self.nodes
    }

    /// The rows that match, in the order of the copy. Of an inner tuple there are none.
    pub fn rows(&self) -> &Rows
        ensures { result.now ≡ rows_of O.meaning self.now }
    {
        &self.rows
    }
}

/// The nodes that the class keeps of an inner tuple, each with its rebuilt value.
fn keep_nodes<O: OpClass>(
    alloc: Global,
    class: &O,
    inner: &InnerCopy<O>,
    conds: &[O::Cond],
) -> Result<List<(u16, O::Recon)>, Memory>
    ensures nodes { IfOk result (λ nodes. nodes ≡ kept_at O.meaning inner.now conds.now) }
    ensures asked { IfOk result (λ nodes. All (λ c. O.meaning.is_cond c ≡ true) conds.now) }
{
    let recon = inner.recon();
    let tuple = inner.tuple();
    let kept = class.inner_consistent(alloc, recon, tuple, conds)?;
    let mut nodes = List::new(alloc);
    for node in kept.as_slice() {
        let below = class.down(alloc, recon, tuple, *node)?;
        nodes.push((*node, below))?;
    }
    Ok(nodes)
}

/// The rows of leaves whose key meets every condition.
fn match_rows<O: OpClass>(
    alloc: Global,
    class: &O,
    leaves: &LeavesCopy<O>,
    conds: &[O::Cond],
) -> Result<Rows, Memory>
    ensures { IfOk result (λ rows. rows ≡ matching_at O.meaning leaves.now conds.now) }
{
    let recon = leaves.recon();
    let rests = leaves.rests().as_slice();
    let copied = leaves.rows().as_slice();
    let mut rows = Rows::new(alloc);
    for i in 0..copied.len() {
        if class.leaf_consistent(recon, rests[i].as_slice(), conds) {
            rows.push(copied[i])?;
        }
    }
    Ok(rows)
}

/// Asks the class what of a copy matches.
pub fn sift<O: OpClass>(alloc: Global, class: &O, copied: Copied<O>) -> Result<Sifted<O>, Memory>
    ensures { IfOk result (λ sifted. sifted ≡ copied) }
{
    let mut nodes = List::new(alloc);
    let mut rows = Rows::new(alloc);
    match &copied {
        Copied::Inner { tuple, conds } => {
            nodes = keep_nodes(alloc, class, tuple, conds.as_slice())?
        }
        Copied::Leaves { leaves, conds } => {
            rows = match_rows(alloc, class, leaves, conds.as_slice())?
        }
    }
    Ok(Sifted {
        copied,
        nodes,
        rows,
    })
}

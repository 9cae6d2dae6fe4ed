ghost use Rattle.std.specs.Prelude.{◌≡◌, ◌<◌, ◌↔◌, ℤ, IsTrue, IfOk, true, length, replicate};
ghost use Rattle.spg_opclass.specs.Meaning.{is_tuple};
ghost use Rattle.spg_opclass.specs.Copies.{IsInnerAt, IsLeavesAt, AreKeys};

use crate::class::OpClass;
use crate::view::InnerView;
use spg_base::{Bytes, List, Memory, Place, Rows, Same};
use std::marker::Model;

/// A copy of an inner tuple that a scan came to, with the rebuilt value there and its downlinks. The
/// class has such a tuple, there is one downlink for each label, at least one, and an all-the-same
/// tuple has eight nodes of one label.
#[derive(Drop)]
pub struct InnerCopy<O: OpClass> {
    recon: O::Recon,
    tuple: InnerView,
    links: Vec<Option<Place>>,
}

impl<O: OpClass> Model for InnerCopy<O> {
    ghost use Rattle.spg_opclass.specs.Copies.{InnerAt, IsInnerAt};

    ghost Value = { InnerAt O.Recon };

    ghost view = { λ c. record { recon = c.recon; tuple = c.tuple; links = c.links.items } };

    ghost invariant = { λ c. IsInnerAt O.meaning (record { recon = c.recon; tuple = c.tuple; links = c.links.items }) };
}

impl<O: OpClass> InnerCopy<O> {
    /// The copy of these.
    pub fn new(recon: O::Recon, tuple: InnerView, links: List<Option<Place>>) -> InnerCopy<O>
        requires recon { O.meaning.is_recon recon ≡ true }
        requires tuple { is_tuple O.meaning tuple ≡ true }
        requires each { length links ≡ length tuple.labels }
        requires some { 0 < length links }
        requires same { tuple.all_same ≡ true → (label : ℤ) × (tuple.labels ≡ replicate 8 label) }
        ensures { result ≡ record { recon = recon; tuple = tuple; links = links } }
    {
        InnerCopy {
            recon,
            tuple,
            links: links.into_vec(),
        }
    }

    /// The rebuilt value.
    pub fn recon(&self) -> &O::Recon
        ensures value { result.now ≡ self.now.recon }
        ensures known { IsInnerAt O.meaning self.now }
    {
        &self.recon
    }

    /// What the class sees of the tuple.
    pub fn tuple(&self) -> &InnerView
        ensures value { result.now ≡ self.now.tuple }
        ensures known { IsInnerAt O.meaning self.now }
    {
        &self.tuple
    }

    /// Its downlinks, one for each node in order. None is an empty one.
    pub fn links(&self) -> &[Option<Place>]
        ensures value { result.now ≡ self.now.links }
        ensures known { IsInnerAt O.meaning self.now }
    {
        self.links.as_slice()
    }
}

/// A copy of leaves that a scan came to, with the rebuilt value there. There is one rest for each
/// row, and each gives a key.
#[derive(Drop)]
pub struct LeavesCopy<O: OpClass> {
    recon: O::Recon,
    rows: Rows,
    rests: List<Bytes>,
}

impl<O: OpClass> Model for LeavesCopy<O> {
    ghost use Rattle.spg_opclass.specs.Copies.{LeavesAt, IsLeavesAt};

    ghost Value = { LeavesAt O.Recon };

    ghost view = { λ c. record { recon = c.recon; rows = c.rows; rests = c.rests } };

    ghost invariant = { λ c. IsLeavesAt O.meaning (record { recon = c.recon; rows = c.rows; rests = c.rests }) };
}

impl<O: OpClass> LeavesCopy<O> {
    /// The copy of these.
    pub fn new(recon: O::Recon, rows: Rows, rests: List<Bytes>) -> LeavesCopy<O>
        requires keys { AreKeys O.meaning recon rests }
        requires each { length rests ≡ length rows }
        ensures { result ≡ record { recon = recon; rows = rows; rests = rests } }
    {
        LeavesCopy { recon, rows, rests }
    }

    /// The rebuilt value.
    pub fn recon(&self) -> &O::Recon
        ensures value { result.now ≡ self.now.recon }
        ensures known { IsLeavesAt O.meaning self.now }
    {
        &self.recon
    }

    /// The rows.
    pub fn rows(&self) -> &Rows
        ensures value { result.now ≡ self.now.rows }
        ensures known { IsLeavesAt O.meaning self.now }
    {
        &self.rows
    }

    /// The rests, one for each row in order.
    pub fn rests(&self) -> &List<Bytes>
        ensures value { result.now ≡ self.now.rests }
        ensures known { IsLeavesAt O.meaning self.now }
    {
        &self.rests
    }
}

/// What a scan copied, with its conditions, so that the class can sift it apart from the index. A
/// scan of all rows has no conditions.
#[derive(Drop)]
pub enum Copied<O: OpClass> {
    /// An inner tuple.
    Inner {
        tuple: InnerCopy<O>,
        conds: List<O::Cond>,
    },
    /// The leaves of a chain or of a root leaf page.
    Leaves {
        leaves: LeavesCopy<O>,
        conds: List<O::Cond>,
    },
}

/// An equal list of downlinks.
fn copy_links(links: &Vec<Option<Place>>) -> Result<Vec<Option<Place>>, Memory>
    ensures { IfOk result (λ copied. copied.items ≡ links.now.items) }
{
    let mut copied = Vec::new(*links.allocator());
    copied.extend_from_slice(links.as_slice())?;
    Ok(copied)
}

/// Whether two downlinks are equal.
fn same_link(a: Option<Place>, b: Option<Place>) -> bool
    ensures { IsTrue result ↔ (a ≡ b) }
{
    match (a, b) {
        (Some(a), Some(b)) => a.same(&b),
        (None, None) => true,
        _ => false,
    }
}

/// Whether two lists of downlinks are equal.
fn same_links(a: &[Option<Place>], b: &[Option<Place>]) -> bool
    ensures { IsTrue result ↔ (a.now ≡ b.now) }
{
    if a.len() != b.len() {
        return false;
    }
    for i in 0..a.len() {
        if !same_link(a[i], b[i]) {
            return false;
        }
    }
    true
}

impl<O: OpClass> Same for InnerCopy<O> {
    fn same(&self, other: &InnerCopy<O>) -> bool {
        self.recon.same(&other.recon)
            && self.tuple.same(&other.tuple)
            && same_links(self.links.as_slice(), other.links.as_slice())
    }

    fn copy(&self) -> Result<InnerCopy<O>, Memory> {
        Ok(InnerCopy {
            recon: self.recon.copy()?,
            tuple: self.tuple.copy()?,
            links: copy_links(&self.links)?,
        })
    }
}

impl<O: OpClass> Same for LeavesCopy<O> {
    fn same(&self, other: &LeavesCopy<O>) -> bool {
        self.recon.same(&other.recon)
            && self.rows.same(&other.rows)
            && self.rests.same(&other.rests)
    }

    fn copy(&self) -> Result<LeavesCopy<O>, Memory> {
        Ok(LeavesCopy {
            recon: self.recon.copy()?,
            rows: self.rows.copy()?,
            rests: self.rests.copy()?,
        })
    }
}

impl<O: OpClass> Same for Copied<O> {
    fn same(&self, other: &Copied<O>) -> bool {
        match (self, other) {
            (
                Copied::Inner { tuple, conds },
                Copied::Inner {
                    tuple: other_tuple,
                    conds: other_conds,
                },
            ) => tuple.same(other_tuple) && conds.same(other_conds),
            (
                Copied::Leaves { leaves, conds },
                Copied::Leaves {
                    leaves: other_leaves,
                    conds: other_conds,
                },
            ) => leaves.same(other_leaves) && conds.same(other_conds),
            _ => false,
        }
    }

    fn copy(&self) -> Result<Copied<O>, Memory> {
        match self {
            Copied::Inner { tuple, conds } => Ok(Copied::Inner {
                tuple: tuple.copy()?,
                conds: conds.copy()?,
            }),
            Copied::Leaves { leaves, conds } => Ok(Copied::Leaves {
                leaves: leaves.copy()?,
                conds: conds.copy()?,
            }),
        }
    }
}

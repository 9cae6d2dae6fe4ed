ghost use Rattle.std.specs.Prelude.{◌≡◌, ◌<◌, IsSome, IfOk, true, length, All};
ghost use Rattle.spg_opclass.specs.Meaning.{is_tuple};
ghost use Rattle.spg_opclass.specs.Copies.{IsAtTuple, answer_at, recons_at, recons_of, downs, first_nodes, IsThere};

use crate::class::OpClass;
use crate::view::{Choice, InnerView};
use spg_base::{Bytes, List, Memory, Same};
use std::alloc::Global;
use std::marker::Model;

/// A copy of the inner tuple at which an insert stands, with the rebuilt value there and the rest of
/// the key. The class has such a tuple, and the rest gives a key there.
#[derive(Drop)]
pub struct Spotted<O: OpClass> {
    recon: O::Recon,
    tuple: InnerView,
    rest: Bytes,
}

impl<O: OpClass> Model for Spotted<O> {
    ghost use Rattle.spg_opclass.specs.Copies.{AtTuple, IsAtTuple};

    ghost Value = { AtTuple O.Recon };

    ghost view = { λ s. record { recon = s.recon; tuple = s.tuple; rest = s.rest } };

    ghost invariant = { λ s. IsAtTuple O.meaning (record { recon = s.recon; tuple = s.tuple; rest = s.rest }) };
}

impl<O: OpClass> Spotted<O> {
    /// The copy of these.
    pub fn new(recon: O::Recon, tuple: InnerView, rest: Bytes) -> Spotted<O>
        requires tuple { is_tuple O.meaning tuple ≡ true }
        requires key { IsSome (O.meaning.rebuild recon rest) }
        ensures { result ≡ record { recon = recon; tuple = tuple; rest = rest } }
    {
        Spotted { recon, tuple, rest }
    }

    /// The rebuilt value.
    pub fn recon(&self) -> &O::Recon
        ensures value { result.now ≡ self.now.recon }
        ensures known { IsAtTuple O.meaning self.now }
    {
        &self.recon
    }

    /// The inner tuple.
    pub fn tuple(&self) -> &InnerView
        ensures value { result.now ≡ self.now.tuple }
        ensures known { IsAtTuple O.meaning self.now }
    {
        &self.tuple
    }

    /// The rest of the key.
    pub fn rest(&self) -> &Bytes
        ensures value { result.now ≡ self.now.rest }
        ensures known { IsAtTuple O.meaning self.now }
    {
        &self.rest
    }
}

impl<O: OpClass> Same for Spotted<O> {
    fn same(&self, other: &Spotted<O>) -> bool {
        self.recon.same(&other.recon)
            && self.tuple.same(&other.tuple)
            && self.rest.same(&other.rest)
    }

    fn copy(&self) -> Result<Spotted<O>, Memory> {
        Ok(Spotted {
            recon: self.recon.copy()?,
            tuple: self.tuple.copy()?,
            rest: self.rest.copy()?,
        })
    }
}

/// What the class answers at a copied inner tuple, with the rebuilt values below the nodes of a
/// match. Contracts see the copy alone, since the class tells the others of it.
#[derive(Drop)]
pub struct Chosen<O: OpClass> {
    spotted: Spotted<O>,
    choice: Choice,
    recons: List<O::Recon>,
}

impl<O: OpClass> Model for Chosen<O> {
    ghost use Rattle.std.specs.Prelude.{◌≡◌};
    ghost use Rattle.spg_opclass.specs.Copies.{AtTuple, IsAtTuple, answer_at, recons_at};

    ghost Value = { AtTuple O.Recon };

    ghost view = { λ c. c.spotted };

    ghost invariant = { λ c. (c.choice ≡ answer_at O.meaning c.spotted) × (c.recons ≡ recons_at O.meaning c.spotted) × IsAtTuple O.meaning c.spotted };
}

impl<O: OpClass> Chosen<O> {
    /// The copy.
    pub fn spotted(&self) -> &Spotted<O>
        ensures value { result.now ≡ self.now }
        ensures known { IsAtTuple O.meaning self.now }
    {
        &self.spotted
    }

    /// What the class answers there.
    pub fn choice(&self) -> &Choice
        ensures value { result.now ≡ answer_at O.meaning self.now }
        ensures known { IsAtTuple O.meaning self.now }
    {
        &self.choice
    }

    /// The rebuilt values below what is answered: for a match that of its node, or, where the tuple
    /// is all-the-same, those of all its nodes in order. For anything else there are none.
    pub fn recons(&self) -> &List<O::Recon>
        ensures value { result.now ≡ recons_at O.meaning self.now }
        ensures known { IsAtTuple O.meaning self.now }
    {
        &self.recons
    }
}

/// The rebuilt values below all nodes of a tuple.
fn recons_below<O: OpClass>(
    alloc: Global,
    class: &O,
    recon: &O::Recon,
    tuple: &InnerView,
) -> Result<List<O::Recon>, Memory>
    ensures { IfOk result (λ recons. recons ≡ downs O.meaning recon.now tuple.now (first_nodes (length tuple.now.labels))) }
{
    let mut recons = List::new(alloc);
    for node in 0..tuple.labels.len() as u16 {
        recons.push(class.down(alloc, recon, tuple, node)?)?;
    }
    Ok(recons)
}

/// The rebuilt values below what was answered.
fn recons_for<O: OpClass>(
    alloc: Global,
    class: &O,
    recon: &O::Recon,
    tuple: &InnerView,
    choice: &Choice,
) -> Result<List<O::Recon>, Memory>
    requires there { IsThere tuple.now choice.now }
    ensures { IfOk result (λ recons. recons ≡ recons_of O.meaning recon.now tuple.now choice.now) }
{
    match choice {
        Choice::Match { .. } if tuple.all_same => recons_below(alloc, class, recon, tuple),
        Choice::Match { node, .. } => {
            let mut recons = List::new(alloc);
            recons.push(class.down(alloc, recon, tuple, *node)?)?;
            Ok(recons)
        }
        _ => Ok(List::new(alloc)),
    }
}

/// Asks the class what to do at a copied inner tuple.
pub fn choose_at<O: OpClass>(
    alloc: Global,
    class: &O,
    spotted: Spotted<O>,
) -> Result<Chosen<O>, Memory>
    ensures { IfOk result (λ chosen. chosen ≡ spotted) }
{
    let recon = spotted.recon();
    let tuple = spotted.tuple();
    let choice = class.choose(alloc, recon, tuple, spotted.rest().as_slice())?;
    let recons = recons_for(alloc, class, recon, tuple, &choice)?;
    Ok(Chosen {
        spotted,
        choice,
        recons,
    })
}

ghost use Rattle.std.specs.Prelude.{◌≡◌, ◌<◌, IfOk, length};
ghost use Rattle.spg_opclass.specs.Copies.{AreKeys, parts_at};

use crate::class::OpClass;
use crate::view::Picked;
use spg_base::{Bytes, List, Memory, Same};
use std::alloc::Global;
use std::marker::Model;

/// A copy of values that are to be divided: the rebuilt value there, and their rests, each of which
/// gives a key there.
#[derive(Drop)]
pub struct Bunch<O: OpClass> {
    recon: O::Recon,
    rests: List<Bytes>,
}

impl<O: OpClass> Model for Bunch<O> {
    ghost use Rattle.spg_opclass.specs.Copies.{RestsAt, AreKeys};

    ghost Value = { RestsAt O.Recon };

    ghost view = { λ b. record { recon = b.recon; rests = b.rests } };

    ghost invariant = { λ b. AreKeys O.meaning b.recon b.rests };
}

impl<O: OpClass> Bunch<O> {
    /// The copy of these.
    pub fn new(recon: O::Recon, rests: List<Bytes>) -> Bunch<O>
        requires { AreKeys O.meaning recon rests }
        ensures { result ≡ record { recon = recon; rests = rests } }
    {
        Bunch { recon, rests }
    }

    /// The rebuilt value.
    pub fn recon(&self) -> &O::Recon
        ensures value { result.now ≡ self.now.recon }
        ensures known { AreKeys O.meaning self.now.recon self.now.rests }
    {
        &self.recon
    }

    /// The rests.
    pub fn rests(&self) -> &List<Bytes>
        ensures value { result.now ≡ self.now.rests }
        ensures known { AreKeys O.meaning self.now.recon self.now.rests }
    {
        &self.rests
    }
}

impl<O: OpClass> Same for Bunch<O> {
    fn same(&self, other: &Bunch<O>) -> bool {
        self.recon.same(&other.recon) && self.rests.same(&other.rests)
    }

    fn copy(&self) -> Result<Bunch<O>, Memory> {
        Ok(Bunch {
            recon: self.recon.copy()?,
            rests: self.rests.copy()?,
        })
    }
}

/// How the class divides copied values, at least one. Contracts see the copy alone, since the class
/// tells the division of it.
#[derive(Drop)]
pub struct Parted<O: OpClass> {
    bunch: Bunch<O>,
    picked: Picked,
}

impl<O: OpClass> Model for Parted<O> {
    ghost use Rattle.std.specs.Prelude.{◌≡◌, ◌<◌, length};
    ghost use Rattle.spg_opclass.specs.Copies.{RestsAt, AreKeys, parts_at};

    ghost Value = { RestsAt O.Recon };

    ghost view = { λ p. p.bunch };

    ghost invariant = { λ p. (p.picked ≡ parts_at O.meaning p.bunch) × (0 < length p.bunch.rests) × AreKeys O.meaning p.bunch.recon p.bunch.rests };
}

impl<O: OpClass> Parted<O> {
    /// The copy.
    pub fn bunch(&self) -> &Bunch<O>
        ensures value { result.now ≡ self.now }
        ensures some { 0 < length self.now.rests }
        ensures known { AreKeys O.meaning self.now.recon self.now.rests }
    {
        &self.bunch
    }

    /// How the class divides its values.
    pub fn picked(&self) -> &Picked
        ensures value { result.now ≡ parts_at O.meaning self.now }
        ensures some { 0 < length self.now.rests }
        ensures known { AreKeys O.meaning self.now.recon self.now.rests }
    {
        &self.picked
    }
}

/// Asks the class to divide copied values.
pub fn part_at<O: OpClass>(alloc: Global, class: &O, bunch: Bunch<O>) -> Result<Parted<O>, Memory>
    requires { 0 < length bunch.rests }
    ensures { IfOk result (λ parted. parted ≡ bunch) }
{
    let picked = class.picksplit(alloc, bunch.recon(), bunch.rests().as_slice())?;
    Ok(Parted { bunch, picked })
}

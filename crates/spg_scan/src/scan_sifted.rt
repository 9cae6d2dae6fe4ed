// A scan goes on by a copy that the class sifted.
ghost use Rattle.std.specs.Prelude.{◌≡◌, ◌<◌, ◌↔◌, ◌++◌, ◌∷◌, [], IsTrue, map, get_or, length, IfOk, OnOk, OnErr, IsErrOf, None as Nil};
ghost use Rattle.spg_scan.specs.Held.{item_of};
ghost use Rattle.spg_scan.specs.Items.{hold_all};
ghost use Rattle.spg_scan.specs.Scanning.{replaced};
ghost use Rattle.spg_scan.specs.Copying.{HasKept, TakesIn};
ghost use Rattle.spg_scan.specs.Parts.{linked, rows_asked};
ghost use Rattle.spg_scan.specs.declared.scan_sifted.SiftRefused.TheVariants as refused;

use crate::in_place::put_in_place;
use crate::pending::{Held, Pending, is_copy_of};
use crate::scan::Scan;
use spg_base::{List, Memory, Place, Row, Same};
use spg_opclass::{Copied, OpClass, Query, Sifted, sift};
use std::alloc::Global;

/// Why a copy that was sifted was not taken in.
#[derive(Clone, Copy, Debug, PartialEq, Eq, thiserror::Error)]
pub enum SiftRefused {
    /// The item is not there, is not being sifted, or has another copy.
    #[error("the item is not the one that was copied")]
    Changed,
    /// Want of memory.
    #[error("out of memory")]
    Memory,
}

impl From<Memory> for SiftRefused {
    ghost from_gives = { λ _ e. e ≡ refused.Memory };

    fn from(_: Memory) -> SiftRefused {
        SiftRefused::Memory
    }
}

/// Where a node leads. None where there is no such node.
fn link_of(links: &[Option<Place>], node: u16) -> Option<Place>
    ensures { result ≡ get_or links.now node Nil }
{
    if usize::from(node) < links.len() {
        links[usize::from(node)]
    } else {
        None
    }
}

/// Adds the place at a node that was kept, where its downlink is not empty.
fn hold_child<O: OpClass>(
    links: &[Option<Place>],
    kept: &(u16, O::Recon),
    children: &mut Vec<Pending<O>>,
) -> Result<(), Memory>
    ensures { OnOk result (map item_of children.new.items ≡ map item_of children.old.items ++ hold_all (linked links.now (kept.now ∷ []))) }
{
    if let Some(place) = link_of(links, kept.0) {
        let recon = Some(kept.1.copy()?);
        children.push(Pending::Held(Held { place, recon }))?;
    }
    Ok(())
}

/// The places at nodes of an inner tuple that are not empty, each with its rebuilt value.
fn children_at<O: OpClass>(
    alloc: Global,
    links: &[Option<Place>],
    kept: &List<(u16, O::Recon)>,
) -> Result<Vec<Pending<O>>, Memory>
    ensures { IfOk result (λ children. map item_of children.items ≡ hold_all (linked links.now kept.now)) }
{
    let nodes = kept.as_slice();
    let mut children = Vec::new(alloc);
    for i in 0..nodes.len() {
        hold_child(links, &nodes[i], &mut children)?;
    }
    Ok(children)
}

impl<O: OpClass> Scan<O> {
    /// Whether an item is being sifted and has this copy.
    fn has_copy(&self, item: usize, copied: &Copied<O>) -> bool
        ensures { IsTrue result ↔ HasKept self.now item copied.now }
    {
        if item >= self.items.len() {
            return false;
        }
        match &self.items[item] {
            Pending::Held(_) => false,
            Pending::Kept(kept) => is_copy_of(&self.query, kept, copied),
        }
    }

    /// Puts the places at nodes that were kept in the place of an item.
    fn take_nodes(
        &mut self,
        item: usize,
        links: &[Option<Place>],
        nodes: &List<(u16, O::Recon)>,
    ) -> Result<(), Memory>
        requires { item < length self.old.items }
        ensures ok { OnOk result (self.new ≡ replaced self.old item (hold_all (linked links.now nodes.now)) [] 0) }
        ensures err { OnErr result (self.new ≡ self.old) }
    {
        let alloc = *self.rows.allocator();
        let children = children_at(alloc, links, nodes)?;
        put_in_place(&mut self.items, item, children)?;
        Ok(())
    }

    /// Goes on by a copy of an item.
    pub(crate) fn take_in(&mut self, item: usize, sifted: &Sifted<O>) -> Result<(), Memory>
        requires { HasKept self.old item sifted.now }
        ensures ok { OnOk result (TakesIn O.meaning self.old self.new item sifted.now) }
        ensures err { OnErr result (self.new ≡ self.old) }
    {
        match sifted.copied() {
            Copied::Inner { tuple, .. } => self.take_nodes(item, tuple.links(), sifted.nodes()),
            Copied::Leaves { .. } => self.take_rows(item, sifted.rows().as_slice()),
        }
    }

    /// Goes on by a copy of an item, which the class sifts first.
    pub(crate) fn read_copy(
        &mut self,
        alloc: Global,
        class: &O,
        item: usize,
        copied: Copied<O>,
    ) -> Result<(), Memory>
        requires { HasKept self.old item copied }
        ensures ok { OnOk result (TakesIn O.meaning self.old self.new item copied) }
        ensures err { OnErr result (self.new ≡ self.old) }
    {
        let sifted = sift(alloc, class, copied)?;
        self.take_in(item, &sifted)
    }

    /// Ends an item of which these rows match.
    fn take_rows(&mut self, item: usize, rows: &[Row]) -> Result<(), Memory>
        requires { item < length self.old.items }
        ensures ok { OnOk result (self.new ≡ replaced self.old item [] (rows_asked self.old.query rows.now) 0) }
        ensures err { OnErr result (self.new ≡ self.old) }
    {
        match &self.query {
            Query::Null => self.take(item, &[], 0),
            _ => self.take(item, rows, 0),
        }
    }

    /// Takes in what the class answered for the copy of an item that is being sifted: the kept places
    /// take the place of an inner tuple, and the rows of leaves that match are taken. `Changed` comes
    /// first, exactly where the item is not there, is not being sifted, or has another copy. After an
    /// error nothing has changed.
    pub fn take_sifted(&mut self, item: usize, sifted: &Sifted<O>) -> Result<(), SiftRefused>
        ensures ok { OnOk result (TakesIn O.meaning self.old self.new item sifted.now) }
        ensures changed { IsErrOf result SiftRefused.Changed ↔ (HasKept self.old item sifted.now → ⊥) }
        ensures err { OnErr result (self.new ≡ self.old) }
    {
        if !self.has_copy(item, sifted.copied()) {
            return Err(SiftRefused::Changed);
        }
        self.take_in(item, sifted)?;
        Ok(())
    }
}

// Whether a copy is still what stands where an insert does. It is compared in place.
ghost use Rattle.std.specs.Prelude.{◌≡◌, ◌↔◌, ◌+◌, ◌++◌, ◌∷◌, [], ℕ, Option, Some as Just, IsTrue, length, slice_get};
ghost use Rattle.spg_opclass.specs.InPlace.{shown};
ghost use Rattle.spg_opclass.specs.StoredLabels.{labels_in};
ghost use Rattle.spg_forest.specs.Divisions.{rests_of};
ghost use Rattle.spg_forest.specs.Links.{leaves_on};
ghost use Rattle.spg_forest.specs.Shape.{Shape};
ghost use Rattle.spg_chain.specs.Chains.{chain_members, leaves_of};
ghost use Rattle.spg_tree.specs.Table.{sheets_of};
ghost use Rattle.spg_descend.specs.Carried.{carried, IsCarried};
ghost use Rattle.spg_descend.specs.Follows.{IsAtInner};
ghost use Rattle.spg_split.specs.Cases.{IsSplitSpot};
ghost use Rattle.spg_split.specs.Dividing.{AreAllLive};
ghost use Rattle.spg_split.specs.Parting.{rests_at, IsPartedAt};
ghost use Rattle.spg_core.specs.Guides.{IsSpottedAt};

use spg_base::{Bytes, Offset, Place, Same};
use spg_chain::walk_chain;
use spg_descend::tuple_place;
use spg_opclass::{Bunch, InnerRef, InnerView, LabelsRef, OpClass, Spotted};
use spg_page::Page;
use spg_tree::{Descent, PageTable, Stand};

/// Whether two labels are the same.
fn is_label(label: i16, other: i16) -> bool
    ensures { IsTrue result ↔ (label ≡ other) }
{
    label == other
}

/// Whether labels are these.
fn are_labels(labels: LabelsRef<'_>, copied: &[i16]) -> bool
    ensures { IsTrue result ↔ (labels_in labels.entry ≡ copied.now) }
{
    if labels.len() != copied.len() {
        return false;
    }
    for node in 0..copied.len() {
        if !is_label(labels.at(node), copied[node]) {
            return false;
        }
    }
    true
}

/// Whether a class sees this of an inner tuple.
fn is_tuple(tuple: &InnerRef<'_>, copied: &InnerView) -> bool
    ensures { IsTrue result ↔ (shown tuple.now ≡ copied.now) }
{
    tuple.all_same == copied.all_same
        && tuple.prefix == copied.prefix.as_slice()
        && are_labels(tuple.labels, copied.labels.as_slice())
}

/// Whether this is a copy of the inner tuple of the main tree at which an insert stands.
pub(crate) fn is_spot<O: OpClass>(
    table: &PageTable,
    descent: &Descent<O>,
    recon: &O::Recon,
    spotted: &Spotted<O>,
) -> bool
    requires inner { IsAtInner table.now descent.now.stand }
    requires recon { descent.now.recon ≡ Just recon.now }
    ensures { IsTrue result ↔ IsSpottedAt table.now descent.now spotted.now }
{
    let at = tuple_place(descent.stand());
    let tuple = table.page(at.block).inner_at(at.offset);
    descent.rest().same(spotted.rest())
        && recon.same(spotted.recon())
        && is_tuple(&tuple, spotted.tuple())
}

/// Whether a rest has these bytes.
fn is_rest(rest: &Bytes, bytes: &[u8]) -> bool
    ensures { IsTrue result ↔ (rest.now ≡ bytes.now) }
{
    rest.as_slice() == bytes
}

/// Whether the rest at an index is this one.
fn has_at(rests: &[Bytes], at: usize, rest: &[u8]) -> bool
    ensures { IsTrue result ↔ (slice_get rests.now at ≡ Just rest.now) }
{
    match rests.get(at) {
        None => false,
        Some(there) => is_rest(there, rest),
    }
}

/// Whether the last of the rests stands at an index, and is this one.
fn ends_at(rests: &[Bytes], at: usize, rest: &[u8]) -> bool
    ensures { IsTrue result ↔ ((length rests.now ≡ at + 1) × (slice_get rests.now at ≡ Just rest.now)) }
{
    at < rests.len() && rests.len() == at + 1 && has_at(rests, at, rest)
}

/// Whether these are the rests of the leaves of a page that has nothing else, and that of an insert
/// behind them.
fn are_rests_on<O: OpClass>(page: &Page, descent: &Descent<O>, rests: &[Bytes]) -> bool
    requires { AreAllLive page.now.tuples }
    ensures { IsTrue result ↔ (rests.now ≡ rests_of (leaves_on page.now.tuples ++ carried descent.now ∷ [])) }
{
    for index in 0..page.count() {
        if !has_at(rests, index as usize, page.rest_at(Offset(index + 1))) {
            return false;
        }
    }
    ends_at(rests, page.count() as usize, descent.rest().as_slice())
}

/// Whether these are the rests of the leaves of the chain at a head, and that of an insert behind them.
fn are_rests_of_chain<O: OpClass>(
    page: &Page,
    head: Offset,
    descent: &Descent<O>,
    rests: &[Bytes],
) -> bool
    ensures { IsTrue result ↔ (rests.now ≡ rests_of (leaves_of (chain_members page.now.tuples head) ++ carried descent.now ∷ [])) }
{
    let mut at = 0;
    for leaf in walk_chain(page, head) {
        if !has_at(rests, at, leaf.rest) {
            return false;
        }
        at += 1;
    }
    ends_at(rests, at, descent.rest().as_slice())
}

/// Whether these are the rests of the leaves that are to be divided where an insert stands, its own the
/// last.
fn are_rests<O: OpClass>(table: &PageTable, descent: &Descent<O>, rests: &[Bytes]) -> bool
    requires shape { Shape O.meaning (sheets_of table.now) }
    requires spot { IsSplitSpot table.now descent.now }
    requires of_key { (key : Option O.Key) × IsCarried O.meaning (sheets_of table.now) descent.now key }
    ensures { IsTrue result ↔ (rests.now ≡ rests_at table.now descent.now) }
{
    match descent.stand() {
        Stand::Root(root) => are_rests_on(table.page(root), descent, rests),
        Stand::At(head) => {
            let Place { block, offset } = head;
            are_rests_of_chain(table.page(block), offset, descent, rests)
        }
        Stand::Start | Stand::Empty => unreachable!(),
    }
}

/// Whether this is a copy of the values that are to be divided where an insert stands.
pub(crate) fn is_cut<O: OpClass>(
    table: &PageTable,
    descent: &Descent<O>,
    recon: &O::Recon,
    bunch: &Bunch<O>,
) -> bool
    requires shape { Shape O.meaning (sheets_of table.now) }
    requires spot { IsSplitSpot table.now descent.now }
    requires of_key { (key : Option O.Key) × IsCarried O.meaning (sheets_of table.now) descent.now key }
    requires recon { descent.now.recon ≡ Just recon.now }
    ensures { IsTrue result ↔ IsPartedAt table.now descent.now (Just bunch.now) }
{
    recon.same(bunch.recon()) && are_rests(table, descent, bunch.rests().as_slice())
}

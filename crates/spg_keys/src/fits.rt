//! Whether leaves at the end of a way fit.
ghost use Rattle.std.specs.Prelude.{◌≡◌, ◌↔◌, ◌<◌, ◌≤◌, ◌+◌, ◌-◌, ℕ, length, map, true, false, IsTrue, IfOk, MatchOption, Some as Just};
ghost use Rattle.spg_forest.specs.Pages.{tuple_on};
ghost use Rattle.spg_forest.specs.Classes.{admits_of, key_of};
ghost use Rattle.spg_page.specs.Kinds.{IsOffset, IsLive};
ghost use Rattle.spg_page.specs.Reads.{leaf_in};
ghost use Rattle.spg_chain.specs.Chains.{chain_members, leaves_of, is_live};
ghost use Rattle.spg_forest.specs.Tuples.{next_of};
ghost use Rattle.spg_keys.specs.Ways.{AllAdmit, IsFit, AllFit, HasMisfit, AllFitOn, HasMisfitOn};
ghost use Rattle.spg_keys.specs.Paths.{passed_of, path_of, HaveNodes};
ghost use Rattle.spg_keys.specs.Listings.{Notes, Lists};

use crate::listing::Listing;
use crate::step::Step;
use spg_base::{Block, Memory, Offset, Place, Row};
use spg_opclass::OpClass;
use spg_page::{Page, TupleKind};
use std::alloc::Global;

/// Whether the node by which the way goes on admits the key.
fn admits<O: OpClass>(class: O, step: &Step<O>, key: &O::Key) -> bool
    requires from { 0 < step.now.next }
    requires to { step.now.next ≤ length step.now.view.labels }
    ensures { result ≡ admits_of O.meaning step.now.recon step.now.view (step.now.next - 1) (Just (Just key.now)) }
{
    match &step.recon {
        Some(recon) => class.admits(recon, &step.view, step.next - 1, key),
        None => false,
    }
}

/// Whether each node of a way admits the key.
fn all_admit<O: OpClass>(class: O, path: &[Step<O>], key: &O::Key) -> bool
    requires { HaveNodes (map passed_of path.now) }
    ensures { IsTrue result ↔ AllAdmit O.meaning (Just (Just key.now)) (path_of path.now) }
{
    for step in path {
        if !admits(class, step, key) {
            return false;
        }
    }
    true
}

/// The key of a leaf with this rest at the end of a way. None where it has none, or where a node of
/// the way does not admit it.
fn fitting_key<O: OpClass>(
    alloc: Global,
    class: O,
    path: &[Step<O>],
    recon: &Option<O::Recon>,
    rest: &[u8],
) -> Result<Option<Option<O::Key>>, Memory>
    requires { HaveNodes (map passed_of path.now) }
    ensures { IfOk result (λ found. MatchOption found (IsFit O.meaning (path_of path.now) recon.now rest.now → ⊥) (λ key. IsFit O.meaning (path_of path.now) recon.now rest.now × (key_of O.meaning recon.now rest.now ≡ Just key))) }
{
    match recon {
        None => Ok(Some(None)),
        Some(recon) => {
            if !class.key_ok(recon, rest) {
                return Ok(None);
            }
            let key = class.rebuild(alloc, recon, rest)?;
            if all_admit(class, path, &key) {
                Ok(Some(Some(key)))
            } else {
                Ok(None)
            }
        }
    }
}

/// Whether a leaf with this rest fits at the end of a way. Lists it.
fn leaf_fits<O: OpClass>(
    alloc: Global,
    class: O,
    path: &[Step<O>],
    recon: &Option<O::Recon>,
    place: Place,
    row: Row,
    rest: &[u8],
    list: &mut Listing<O::Key>,
) -> Result<bool, Memory>
    requires { HaveNodes (map passed_of path.now) }
    ensures fits { IfOk result (λ fits. IsTrue fits ↔ IsFit O.meaning (path_of path.now) recon.now rest.now) }
    ensures wanted { list.new.wanted ≡ list.old.wanted }
    ensures notes { IfOk result (λ fits. fits ≡ true → Notes O.meaning recon.now place row rest.now list.old list.new) }
{
    match fitting_key(alloc, class, path, recon, rest)? {
        None => Ok(false),
        Some(key) => {
            list.note(place, row, key)?;
            Ok(true)
        }
    }
}

/// Whether a live leaf tuple stands at an offset.
fn is_leaf(page: &Page, at: Offset) -> bool
    ensures yes { result ≡ true → IsOffset page.now.tuples at × IsLive (tuple_on page.now.tuples at) }
    ensures no { result ≡ false → is_live (tuple_on page.now.tuples at) ≡ false }
{
    at.0 != 0 && at.0 <= page.count() && page.kind_at(at) == TupleKind::Leaf
}

/// The offset of the next leaf tuple of a chain, 0 at the end.
fn next_of(page: &Page, at: Offset) -> Offset
    requires at { IsOffset page.now.tuples at }
    requires live { IsLive (tuple_on page.now.tuples at) }
    ensures { result ≡ next_of (tuple_on page.now.tuples at) }
{
    match page.next_at(at) {
        Some(next) => next,
        None => Offset(0),
    }
}

/// Whether all leaves of the chain at a head fit at the end of a way. Lists them.
pub(crate) fn chain_fits<O: OpClass>(
    alloc: Global,
    class: O,
    path: &[Step<O>],
    recon: &Option<O::Recon>,
    page: &Page,
    head: Place,
    list: &mut Listing<O::Key>,
) -> Result<bool, Memory>
    requires { HaveNodes (map passed_of path.now) }
    ensures yes { IfOk result (λ fits. fits ≡ true → AllFit O.meaning (path_of path.now) recon.now (leaves_of (chain_members page.now.tuples head.offset))) }
    ensures no { IfOk result (λ fits. fits ≡ false → HasMisfit O.meaning (path_of path.now) recon.now (leaves_of (chain_members page.now.tuples head.offset))) }
    ensures wanted { list.new.wanted ≡ list.old.wanted }
    ensures lists { IfOk result (λ fits. fits ≡ true → Lists O.meaning recon.now head.block page.now.tuples list.old list.new (leaves_of (chain_members page.now.tuples head.offset))) }
{
    let block = head.block;
    let mut offset = head.offset;
    for step in 0..page.count() {
        if !is_leaf(page, offset) {
            return Ok(true);
        }
        let row = page.row_at(offset);
        let rest = page.rest_at(offset);
        if !leaf_fits(
            alloc,
            class,
            path,
            recon,
            Place { block, offset },
            row,
            rest,
            list,
        )? {
            return Ok(false);
        }
        offset = next_of(page, offset);
    }
    Ok(true)
}

/// Whether all leaves of a page, on which only live leaf tuples stand, fit at the end of a way. Lists
/// them.
pub(crate) fn page_fits<O: OpClass>(
    alloc: Global,
    class: O,
    path: &[Step<O>],
    recon: &Option<O::Recon>,
    page: &Page,
    block: Block,
    list: &mut Listing<O::Key>,
) -> Result<bool, Memory>
    requires nodes { HaveNodes (map passed_of path.now) }
    requires live { (i : ℕ) → i < length page.now.tuples → IsLive (tuple_on page.now.tuples (i + 1)) }
    ensures yes { IfOk result (λ fits. fits ≡ true → AllFitOn O.meaning (path_of path.now) recon.now page.now.tuples) }
    ensures no { IfOk result (λ fits. fits ≡ false → HasMisfitOn O.meaning (path_of path.now) recon.now page.now.tuples) }
    ensures wanted { list.new.wanted ≡ list.old.wanted }
    ensures lists { IfOk result (λ fits. fits ≡ true → Lists O.meaning recon.now block page.now.tuples list.old list.new (map leaf_in page.now.tuples)) }
{
    for index in 0..page.count() {
        let offset = Offset(index + 1);
        let rest = page.rest_at(offset);
        let row = page.row_at(offset);
        if !leaf_fits(
            alloc,
            class,
            path,
            recon,
            Place { block, offset },
            row,
            rest,
            list,
        )? {
            return Ok(false);
        }
    }
    Ok(true)
}

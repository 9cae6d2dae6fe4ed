ghost use Rattle.std.specs.Prelude.{◌≡◌, ◌<◌, ◌≤◌, ℕ, [], length, map, replicate, option_copied, IfOk, IfSome, slice_get, Some as Just};
ghost use Rattle.std.specs.Int.RustNames.{FitsSigned};
ghost use Rattle.std.specs.Int.{w16};
ghost use Rattle.spg_opclass.specs.Meaning.{eightfold};
ghost use Rattle.spg_split.specs.Dividing.{IsDivided, GiveKeys, nulls_divided};
ghost use Rattle.spg_split.specs.Nodes.{turns, IsOnlyNode};
ghost use Rattle.spg_split.specs.Parting.{DividesBunch};

use spg_base::{Bytes, Labels, List, Memory, Same};
use spg_opclass::{InnerView, OpClass, Parted, Picked};
use std::alloc::Global;

/// How values are divided: what the class sees of the new inner tuple, and for each value its node and
/// its new rest.
#[derive(Drop)]
pub struct Division {
    pub frame: InnerView,
    pub node_of: List<u16>,
    pub rests: List<Bytes>,
}

/// The node in which all are. None where they are in several, or where there are none.
pub(crate) fn only_node(nodes: &[u16]) -> Option<u16>
    ensures { IsOnlyNode nodes.now result }
{
    let first = *nodes.first()?;
    for node in nodes {
        if *node != first {
            return None;
        }
    }
    Some(first)
}

/// An all-the-same tuple.
fn all_the_same(alloc: Global, prefix: Bytes, label: i16) -> Result<InnerView, Memory>
    ensures { IfOk result (λ frame. frame ≡ eightfold prefix label) }
{
    let mut labels = Labels::new(alloc);
    for node in 0..8u16 {
        labels.push(label)?;
    }
    Ok(InnerView {
        all_same: true,
        prefix,
        labels,
    })
}

/// The 8 nodes of an all-the-same tuple in turn, for so many values.
fn nodes_in_turn(alloc: Global, count: usize) -> Result<List<u16>, Memory>
    ensures { IfOk result (λ nodes. nodes ≡ turns count) }
{
    let mut nodes = List::new(alloc);
    for index in 0..count {
        nodes.push((index % 8) as u16)?;
    }
    Ok(nodes)
}

/// So many empty rests.
fn empty_rests(alloc: Global, count: usize) -> Result<List<Bytes>, Memory>
    ensures { IfOk result (λ rests. rests ≡ replicate count []) }
{
    let mut rests = List::new(alloc);
    for value in 0..count {
        rests.push(Bytes::new(alloc))?;
    }
    Ok(rests)
}

/// Divides nulls: all are in one node, of label 0.
fn divide_nulls(alloc: Global, count: usize) -> Result<Division, Memory>
    ensures { IfOk result (λ division. division ≡ nulls_divided count) }
{
    Ok(Division {
        frame: all_the_same(alloc, Bytes::new(alloc), 0)?,
        node_of: nodes_in_turn(alloc, count)?,
        rests: empty_rests(alloc, count)?,
    })
}

/// A copy of how a class divided values.
fn copy_picked(alloc: Global, picked: &Picked) -> Result<Picked, Memory>
    ensures { IfOk result (λ copied. copied ≡ picked.now) }
{
    let node_of = Vec::from_slice(alloc, picked.node_of.as_slice())?;
    Ok(Picked {
        prefix: picked.prefix.copy()?,
        labels: picked.labels.copy()?,
        node_of: List::from_vec(node_of),
        rests: picked.rests.copy()?,
    })
}

/// The label of a node.
fn label_at(labels: &Labels, node: u16) -> i16
    requires { node < length labels.now }
    ensures value { slice_get labels.now node ≡ Just result }
    ensures in_range { FitsSigned w16 result }
{
    labels.as_slice()[node as usize]
}

/// Divides so many values, at least 2, as the class did. Where it put all in one node, they fill an
/// all-the-same tuple.
fn divide_values<O: OpClass>(
    alloc: Global,
    count: usize,
    parted: &Parted<O>,
) -> Result<Division, Memory>
    requires several { 2 ≤ count }
    requires count { length parted.now.rests ≡ count }
    ensures { IfOk result (λ division. IsDivided O.meaning (Just parted.now.recon) parted.now.rests division) }
{
    let picked = copy_picked(alloc, parted.picked())?;
    match only_node(picked.node_of.as_slice()) {
        None => Ok(Division {
            frame: InnerView {
                all_same: false,
                prefix: picked.prefix,
                labels: picked.labels,
            },
            node_of: picked.node_of,
            rests: picked.rests,
        }),
        Some(node) => {
            let label = label_at(&picked.labels, node);
            Ok(Division {
                frame: all_the_same(alloc, picked.prefix, label)?,
                node_of: nodes_in_turn(alloc, count)?,
                rests: picked.rests,
            })
        }
    }
}

/// Divides values, at least 2, as the class does: what `divide_values` gives, with no copy of the rests.
fn divide_picked<O: OpClass>(
    alloc: Global,
    class: &O,
    recon: &O::Recon,
    rests: &[Bytes],
) -> Result<Division, Memory>
    requires several { 2 ≤ length rests.now }
    requires keys { GiveKeys O.meaning (Just recon.now) rests.now }
    ensures { IfOk result (λ division. IsDivided O.meaning (Just recon.now) rests.now division) }
{
    let divided = class.picksplit(alloc, recon, rests)?;
    match only_node(divided.node_of.as_slice()) {
        None => Ok(Division {
            frame: InnerView {
                all_same: false,
                prefix: divided.prefix,
                labels: divided.labels,
            },
            node_of: divided.node_of,
            rests: divided.rests,
        }),
        Some(node) => {
            let label = label_at(&divided.labels, node);
            Ok(Division {
                frame: all_the_same(alloc, divided.prefix, label)?,
                node_of: nodes_in_turn(alloc, rests.len())?,
                rests: divided.rests,
            })
        }
    }
}

/// Divides values, at least 2, of a rebuilt value, or nulls, which have none.
pub fn divide_rests<O: OpClass>(
    alloc: Global,
    class: &O,
    recon: Option<&O::Recon>,
    rests: &[Bytes],
) -> Result<Division, Memory>
    requires several { 2 ≤ length rests.now }
    requires keys { GiveKeys O.meaning (option_copied recon) rests.now }
    ensures { IfOk result (λ division. IsDivided O.meaning (option_copied recon.entry) rests.now division) }
{
    match recon {
        None => divide_nulls(alloc, rests.len()),
        Some(recon) => divide_picked(alloc, class, recon, rests),
    }
}

/// Divides so many values, at least 2: nulls, or those that the class divided.
pub(crate) fn divide<O: OpClass>(
    alloc: Global,
    count: usize,
    parted: Option<&Parted<O>>,
) -> Result<Division, Memory>
    requires several { 2 ≤ count }
    requires count { IfSome (option_copied parted) (λ bunch. length bunch.rests ≡ count) }
    ensures { IfOk result (λ division. DividesBunch O.meaning (option_copied parted.entry) count division) }
{
    match parted {
        None => divide_nulls(alloc, count),
        Some(parted) => divide_values(alloc, count, parted),
    }
}

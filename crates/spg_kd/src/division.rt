ghost use Rattle.std.specs.Prelude.{◌≡◌, ◌<◌, ◌∷◌, [], ℕ, List as ListOf, length, count_by, nat_lt, IfOk};
ghost use Rattle.spg_points.specs.PointClass.{divided_by};
ghost use Rattle.spg_kd.specs.Kd.{kd, levels, median_of, halves};
ghost use Rattle.spg_kd.specs.Ties.{ties_of, sides};

use crate::class::KdRecon;
use crate::half::level;
use spg_base::{Bytes, List, Memory};
use spg_opclass::Picked;
use spg_points::{copy_all, decode, encode_coordinate, lower, raise, zero_labels};
use std::alloc::Global;

/// Divides points at the one in the middle of their order by the level's coordinate.
#[tactic(auto, unfolding(spg_points::specs::PointClass::divided_by))]
pub fn divide(alloc: Global, recon: KdRecon, rests: &[Bytes]) -> Result<Picked, Memory>
    requires { 0 < length rests.now }
    ensures { IfOk result (λ picked. picked ≡ divided_by kd recon rests.now) }
{
    let ks = raised_levels(alloc, recon.odd, rests)?;
    let p = median(alloc, ks.as_slice())?;
    Ok(Picked {
        prefix: encode_coordinate(alloc, lower(p))?,
        labels: zero_labels(alloc, 2)?,
        node_of: halves_of(alloc, p, ks.as_slice())?,
        rests: copy_all(alloc, rests)?,
    })
}

/// The coordinates of rests, from the lowest.
fn raised_levels(alloc: Global, odd: bool, rests: &[Bytes]) -> Result<Vec<u32>, Memory>
    ensures { IfOk result (λ ks. ks.items ≡ levels odd rests.now) }
{
    let mut ks = Vec::new(alloc);
    for rest in rests {
        ks.push(raise(level(odd, decode(rest.as_slice()))))?;
    }
    Ok(ks)
}

/// The number in the middle.
fn median(alloc: Global, ks: &[u32]) -> Result<u32, Memory>
    requires { 0 < length ks.now }
    ensures { IfOk result (λ p. p ≡ median_of ks.now) }
{
    let mut sorted = Vec::from_slice(alloc, ks)?;
    sorted.sort()?;
    Ok(sorted[ks.len() / 2])
}

fn count_below(p: u32, ks: &[u32]) -> usize
    ensures { result ≡ count_by (λ k. nat_lt k p) ks.now }
{
    ks.iter().filter(|k| **k < p).count()
}

/// How many values that equal the median go to node 0.
#[tactic(auto, unfolding(crate::specs::Ties::ties_of))]
fn ties(p: u32, ks: &[u32]) -> usize
    ensures { result ≡ ties_of p ks.now }
{
    (ks.len() / 2).saturating_sub(count_below(p, ks))
}

/// The nodes of values, by their places in the order.
fn halves_of(alloc: Global, p: u32, ks: &[u32]) -> Result<List<u16>, Memory>
    requires some { 0 < length ks.now }
    requires middle { p ≡ median_of ks.now }
    ensures { IfOk result (λ nodes. nodes ≡ halves ks.now [] ks.now) }
{
    nodes_of(alloc, p, ties(p, ks), ks)
}

/// The nodes of values, where so many that equal the median go to node 0.
fn nodes_of(alloc: Global, p: u32, ties: usize, ks: &[u32]) -> Result<List<u16>, Memory>
    ensures { IfOk result (λ nodes. nodes ≡ sides p ties ks.now) }
{
    let mut left = ties;
    let mut nodes = List::new(alloc);
    for k in ks {
        let (node, rest) = next_node(*k, p, left);
        nodes.push(node)?;
        left = rest;
    }
    Ok(nodes)
}

/// The node of a value, and how many equal values may still go to node 0.
#[tactic(auto, unfolding(crate::specs::Ties::sides))]
fn next_node(k: u32, p: u32, left: usize) -> (u16, usize)
    ensures { (ks : ListOf ℕ) → sides p left (k ∷ ks) ≡ result.0 ∷ sides p result.1 ks }
{
    if k < p {
        (0, left)
    } else if p < k || left == 0 {
        (1, left)
    } else {
        (0, left - 1)
    }
}

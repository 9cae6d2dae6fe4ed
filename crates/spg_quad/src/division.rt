ghost use Rattle.std.specs.Prelude.{◌≡◌, ◌<◌, ◌≤◌, ◌*◌, length, map, IfOk};
ghost use Rattle.std.specs.Int.{div_ceil};
ghost use Rattle.spg_points.specs.Codec.{point_of};
ghost use Rattle.spg_points.specs.Heights.{lowered};
ghost use Rattle.spg_points.specs.PointClass.{divided_by};
ghost use Rattle.spg_quad.specs.declared.class.QuadRecon.{QuadRecon as Recon};
ghost use Rattle.spg_quad.specs.Quad.{quad, quadrant, centroid_of, IsCeiling};

use crate::quadrant::node_of;
use spg_base::{Bytes, List, Memory, Point};
use spg_opclass::Picked;
use spg_points::{copy_all, decode, encode, lower, raise, zero_labels};
use std::alloc::Global;

/// Divides points at the ceiling of their average, by quadrants.
#[tactic(auto, unfolding(spg_points::specs::PointClass::divided_by))]
pub fn divide(alloc: Global, rests: &[Bytes]) -> Result<Picked, Memory>
    requires { 0 < length rests.now }
    ensures { IfOk result (λ picked. (recon : Recon) → picked ≡ divided_by quad recon rests.now) }
{
    let c = centroid(rests);
    Ok(Picked {
        prefix: encode(alloc, c)?,
        labels: zero_labels(alloc, 4)?,
        node_of: nodes_of(alloc, c, rests)?,
        rests: copy_all(alloc, rests)?,
    })
}

/// In each coordinate the ceiling of the average.
pub fn centroid(rests: &[Bytes]) -> Point
    requires { 0 < length rests.now }
    ensures value { result ≡ centroid_of rests.now }
    ensures x_ceiling { IsCeiling (λ r. (point_of r).x) rests.now result.x }
    ensures y_ceiling { IsCeiling (λ r. (point_of r).y) rests.now result.y }
{
    centroid_by_heights(rests)
}

/// The centroid, from the heights of coordinates above the lowest, which are not negative.
fn centroid_by_heights(rests: &[Bytes]) -> Point
    requires { 0 < length rests.now }
    ensures { result ≡ centroid_of rests.now }
{
    let mut x_sum: u128 = 0;
    let mut y_sum: u128 = 0;
    for rest in rests {
        let p = decode(rest.as_slice());
        x_sum += raise(p.x) as u128;
        y_sum += raise(p.y) as u128;
    }
    let count = rests.len() as u128;
    Point {
        x: ceiling(x_sum, count),
        y: ceiling(y_sum, count),
    }
}

/// The ceiling of an average, from a sum of heights above the lowest coordinate.
fn ceiling(sum: u128, count: u128) -> i32
    requires some { 0 < count }
    requires bound { sum ≤ count * 4294967295 }
    ensures { result ≡ lowered (div_ceil sum count) }
{
    lower(sum.div_ceil(count) as u32)
}

/// The node of each rest.
fn nodes_of(alloc: Global, c: Point, rests: &[Bytes]) -> Result<List<u16>, Memory>
    ensures { IfOk result (λ nodes. nodes ≡ map (λ r. quadrant c (point_of r)) rests.now) }
{
    let mut nodes = List::new(alloc);
    for rest in rests {
        nodes.push(node_of(c, decode(rest.as_slice())))?;
    }
    Ok(nodes)
}

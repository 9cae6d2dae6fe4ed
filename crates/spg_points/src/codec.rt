ghost use Rattle.std.specs.Prelude.{◌≡◌, ◌<◌, IfOk, slice_index, true};
ghost use Rattle.spg_points.specs.Codec.{bytes_of_coordinate, bytes_of_point, coordinate_at, is_point, point_of};

use spg_base::{Bytes, Memory, Point};
use std::alloc::Global;

/// The 8 bytes of a point: x, then y, each as two's complement of 32 bits, the lowest byte first.
#[tactic(auto, using(crate::proofs::PointLemmas::is_point_from_fits), unfolding(crate::specs::Codec::bytes_of_point, crate::specs::Codec::bytes_of_coordinate))]
pub fn encode(alloc: Global, p: Point) -> Result<Bytes, Memory>
    ensures known { is_point p ≡ true }
    ensures ok { IfOk result (λ bytes. bytes ≡ bytes_of_point p) }
{
    let mut bytes = Bytes::copy(alloc, &p.x.to_le_bytes())?;
    bytes.extend(&p.y.to_le_bytes())?;
    Ok(bytes)
}

/// The 4 bytes of a coordinate.
#[tactic(auto, unfolding(crate::specs::Codec::bytes_of_coordinate))]
pub fn encode_coordinate(alloc: Global, z: i32) -> Result<Bytes, Memory>
    ensures { IfOk result (λ bytes. bytes ≡ bytes_of_coordinate z) }
{
    Bytes::copy(alloc, &z.to_le_bytes())
}

/// The point that bytes stand for; a byte past their end counts as 0.
pub fn decode(bytes: &[u8]) -> Point
    ensures { result ≡ point_of bytes.now }
{
    Point {
        x: coordinate(bytes, 0),
        y: coordinate(bytes, 4),
    }
}

/// The coordinate that stands from an index on, below 100; a byte past the end counts as 0.
#[tactic(auto, unfolding(crate::specs::Codec::coordinate_at))]
pub fn coordinate(bytes: &[u8], at: usize) -> i32
    requires { at < 100 }
    ensures { result ≡ coordinate_at bytes.now at }
{
    // Bytes that are all there are read at once.
    if at + 4 <= bytes.len() {
        return i32::from_le_bytes([bytes[at], bytes[at + 1], bytes[at + 2], bytes[at + 3]]);
    }
    i32::from_le_bytes([
        byte_at(bytes, at),
        byte_at(bytes, at + 1),
        byte_at(bytes, at + 2),
        byte_at(bytes, at + 3),
    ])
}

fn byte_at(bytes: &[u8], at: usize) -> u8
    ensures { result ≡ slice_index bytes.now at }
{
    bytes.get(at).copied().unwrap_or(0)
}

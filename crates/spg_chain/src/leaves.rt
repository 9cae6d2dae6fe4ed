ghost use Rattle.std.specs.Prelude.{◌≡◌, ◌≤◌, length, IfOk};
ghost use Rattle.spg_opclass.specs.Laws.{leaf_size};
ghost use Rattle.spg_forest.specs.Tuples.{Live};
ghost use Rattle.spg_forest.specs.Sheets.{weight};

use spg_base::{Bytes, Memory, Row};
use spg_page::{LeafTuple, Tuple, TupleBytes};
use std::alloc::Global;

/// The leaf tuple of a row and a rest, of at most 8,156 bytes, without a link.
#[inline(always)]
pub fn leaf_tuple(alloc: Global, row: Row, rest: &[u8]) -> Result<TupleBytes, Memory>
    requires { leaf_size rest.now ≤ 8156 }
    ensures { IfOk result (λ leaf. leaf ≡ Live (record { row = row; rest = rest.now }) 0) }
{
    let rest = Bytes::copy(alloc, rest)?;
    let next = None;
    TupleBytes::of(alloc, &Tuple::Leaf(LeafTuple { row, next, rest }))
}

/// How many bytes the tuples take with their item pointers.
pub fn bytes_of(leaves: &[TupleBytes]) -> usize
    requires { length leaves.now ≤ 409 }
    ensures { result ≡ weight leaves.now }
{
    let mut bytes = 0;
    for leaf in leaves {
        bytes += leaf.size() as usize + 4;
    }
    bytes
}

// Where numbers fork, and on which side of the fork a number is.
ghost use Rattle.std.specs.Prelude.{◌≡◌, ◌<◌, ◌≤◌, map, length, IfOk};
ghost use Rattle.std.specs.List.{list_all};
ghost use Rattle.spg_example_trie.specs.Numbers.{number_of};
ghost use Rattle.spg_example_trie.specs.Trie.{IsFork, fork, greatest, least, meets, parted, side};

use crate::number::{NumberCond, decode};
use spg_base::{Bytes, Labels, List, Memory, Same};
use spg_opclass::Picked;
use std::alloc::Global;

/// The node of a number: 0 below the fork, else 1.
#[tactic(auto, unfolding(crate::specs::Trie::side))]
pub fn side(fork: u64, n: u64) -> u16
    ensures { result ≡ side fork n }
{
    if n < fork { 0 } else { 1 }
}

/// Whether the node may have a number of which the condition holds. It looks at one end of the
/// condition alone, so it can say yes in vain, but never no.
#[tactic(auto, unfolding(crate::specs::Trie::meets))]
pub fn meets(fork: u64, node: u16, cond: NumberCond) -> bool
    ensures { result ≡ meets fork node cond }
{
    if node == 0 {
        cond.low() < fork
    } else {
        fork <= cond.high()
    }
}

/// Whether the node may have a number of which each condition holds.
pub fn all_meet(fork: u64, node: u16, conds: &[NumberCond]) -> bool
    ensures { result ≡ list_all (meets fork node) conds.now }
{
    conds.iter().all(|cond| meets(fork, node, *cond))
}

/// Where numbers from `low` to `high` part: at the highest bit in which the two differ.
pub fn fork(low: u64, high: u64) -> u64
    ensures value { result ≡ fork 64 low high }
    ensures parts { low < high → IsFork low high result }
{
    fork_by_bits(low, high)
}

/// The fork, looked for from the highest bit on.
fn fork_by_bits(low: u64, high: u64) -> u64
    ensures { result ≡ fork 64 low high }
{
    for turn in 0..64u32 {
        let bit = 63 - turn;
        if low >> bit < high >> bit {
            return high >> bit << bit;
        }
    }
    high
}

/// The least number of the rests.
#[tactic(auto, unfolding(crate::specs::Trie::least))]
fn least(rests: &[Bytes]) -> u64
    ensures { result ≡ least rests.now }
{
    let mut low = u64::MAX;
    for rest in rests {
        low = low.min(decode(rest.as_slice()));
    }
    low
}

/// The greatest number of the rests.
#[tactic(auto, unfolding(crate::specs::Trie::greatest))]
fn greatest(rests: &[Bytes]) -> u64
    ensures { result ≡ greatest rests.now }
{
    let mut high = 0;
    for rest in rests {
        high = high.max(decode(rest.as_slice()));
    }
    high
}

/// The side of each rest.
fn sides(alloc: Global, fork: u64, rests: &[Bytes]) -> Result<List<u16>, Memory>
    ensures { IfOk result (λ nodes. nodes ≡ map (λ r. side fork (number_of r)) rests.now) }
{
    let mut nodes = List::new(alloc);
    for rest in rests {
        nodes.push(side(fork, decode(rest.as_slice())))?;
    }
    Ok(nodes)
}

/// An equal list of rests.
fn copies(alloc: Global, rests: &[Bytes]) -> Result<List<Bytes>, Memory>
    ensures { IfOk result (λ copies. copies ≡ rests.now) }
{
    let mut copies = List::new(alloc);
    for rest in rests {
        copies.push(rest.copy()?)?;
    }
    Ok(copies)
}

/// Divides numbers where they fork.
#[tactic(auto, unfolding(crate::specs::Trie::parted, crate::specs::Trie::fork_of))]
pub fn divide(alloc: Global, rests: &[Bytes]) -> Result<Picked, Memory>
    ensures { IfOk result (λ picked. picked ≡ parted rests.now) }
{
    let at = fork(least(rests), greatest(rests));
    let mut labels = Labels::new(alloc);
    labels.push(0)?;
    labels.push(0)?;
    Ok(Picked {
        prefix: Bytes::copy(alloc, &at.to_le_bytes())?,
        labels,
        node_of: sides(alloc, at, rests)?,
        rests: copies(alloc, rests)?,
    })
}

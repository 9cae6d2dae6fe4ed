// Keys, their bytes, and what a query may ask of them.
ghost use Rattle.std.specs.Prelude.{◌≡◌, IfOk, true};
ghost use Rattle.std.specs.List.{list_all};
ghost use Rattle.spg_example_trie.specs.Numbers.{bytes_of, cond_holds, high_end, is_number, low_end, number_of};

use spg_base::{Bytes, Memory, Same};
use std::alloc::Global;

/// A key: a whole number of 64 bits.
#[derive(Clone, Copy, Debug, PartialEq, Eq)]
pub struct Number {
    pub value: u64,
}

/// A condition on numbers.
#[derive(Clone, Copy, Debug, PartialEq, Eq)]
pub enum NumberCond {
    /// The number itself.
    Eq(u64),
    /// Numbers from `low` to `high`, both within.
    Between { low: u64, high: u64 },
}

impl NumberCond {
    /// The lowest number that is asked for.
    pub fn low(self) -> u64
        ensures { result ≡ low_end self }
    {
        match self {
            NumberCond::Eq(n) => n,
            NumberCond::Between { low, .. } => low,
        }
    }

    /// The highest number that is asked for.
    pub fn high(self) -> u64
        ensures { result ≡ high_end self }
    {
        match self {
            NumberCond::Eq(n) => n,
            NumberCond::Between { high, .. } => high,
        }
    }

    /// Whether the condition holds of the number.
    pub fn holds(self, n: u64) -> bool
        ensures { result ≡ cond_holds self n }
    {
        self.low() <= n && n <= self.high()
    }
}

/// Whether every condition holds of the number.
pub fn all_hold(conds: &[NumberCond], n: u64) -> bool
    ensures { result ≡ list_all (λ c. cond_holds c n) conds.now }
{
    conds.iter().all(|c| c.holds(n))
}

/// The 8 bytes of a number, the low one first.
pub fn encode(alloc: Global, key: Number) -> Result<Bytes, Memory>
    ensures known { is_number key ≡ true }
    ensures ok { IfOk result (λ bytes. bytes ≡ bytes_of key) }
{
    Bytes::copy(alloc, &key.value.to_le_bytes())
}

/// The number that bytes stand for: 0 where they are not 8.
#[tactic(auto, unfolding(crate::specs::Numbers::number_of))]
pub fn decode(bytes: &[u8]) -> u64
    ensures { result ≡ number_of bytes.now }
{
    if bytes.len() == 8 {
        u64::from_le_bytes([
            bytes[0], bytes[1], bytes[2], bytes[3], bytes[4], bytes[5], bytes[6], bytes[7],
        ])
    } else {
        0
    }
}

impl Same for Number {
    fn same(&self, other: &Number) -> bool {
        self.value == other.value
    }

    fn copy(&self) -> Result<Number, Memory> {
        Ok(*self)
    }
}

impl Same for NumberCond {
    fn same(&self, other: &NumberCond) -> bool {
        match (*self, *other) {
            (NumberCond::Eq(a), NumberCond::Eq(b)) => a == b,
            (NumberCond::Between { low, high }, NumberCond::Between { low: l, high: h }) => {
                low == l && high == h
            }
            _ => false,
        }
    }

    fn copy(&self) -> Result<NumberCond, Memory> {
        Ok(*self)
    }
}

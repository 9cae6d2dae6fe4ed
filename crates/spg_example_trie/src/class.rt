// The class: its calls compute its meaning, and lemmas of specs/Laws.antt prove its laws.
ghost use Rattle.std.specs.Prelude.{◌≡◌, refl, true, false};
ghost use Rattle.spg_example_trie.specs.Trie.{numbers_meaning};

use crate::number::{Number, NumberCond, all_hold, decode, encode};
use crate::trie::{all_meet, divide, side};
use smallvec::SmallVec;
use spg_base::{Bytes, Memory, Same};
use spg_opclass::{Choice, InnerView, OpClass, Picked, SharedClass};
use std::alloc::Global;

/// The class of numbers.
#[derive(Clone, Copy, Debug, PartialEq, Eq)]
pub struct Numbers;

/// What the way down tells of a number: nothing, since each rest is a whole number.
#[derive(Clone, Copy, Debug, PartialEq, Eq)]
pub struct NumberRecon;

impl Same for NumberRecon {
    fn same(&self, _other: &NumberRecon) -> bool {
        true
    }

    fn copy(&self) -> Result<NumberRecon, Memory> {
        Ok(NumberRecon)
    }
}

impl SharedClass for Numbers {}

impl OpClass for Numbers {
    ghost use Rattle.spg_example_trie.specs.Laws.{numbers_matches, numbers_adds, numbers_splits, numbers_picks, numbers_apart, numbers_keeps, numbers_plain, numbers_codes};

    type Key = Number;

    type Recon = NumberRecon;

    type Cond = NumberCond;

    const LABELS: bool = false;

    ghost LABELS = { false };

    ghost meaning = { numbers_meaning };

    ghost code_number = { 9 };

    ghost labels_agree = { refl };

    ghost matches = { numbers_matches };

    ghost adds = { numbers_adds };

    ghost splits = { numbers_splits };

    ghost picks = { numbers_picks };

    ghost apart = { numbers_apart };

    ghost keeps = { numbers_keeps };

    ghost plain = { numbers_plain };

    ghost codes = { numbers_codes };

    fn code(&self) -> u8 {
        9
    }

    fn start(&self, _alloc: Global) -> Result<NumberRecon, Memory> {
        Ok(NumberRecon)
    }

    fn rest_of(&self, alloc: Global, key: &Number) -> Result<Bytes, Memory> {
        encode(alloc, *key)
    }

    fn prefix_ok(&self, prefix: &[u8]) -> bool {
        prefix.len() == 8
    }

    fn rest_ok(&self, rest: &[u8]) -> bool {
        rest.len() == 8
    }

    fn nodes_ok(&self, tuple: &InnerView) -> bool {
        tuple.labels.len() == if tuple.all_same { 8 } else { 2 }
    }

    #[tactic(auto, unfolding(crate::specs::Numbers::rebuilt))]
    fn key_ok(&self, _recon: &NumberRecon, rest: &[u8]) -> bool {
        rest.len() == 8
    }

    #[tactic(auto, unfolding(crate::specs::Trie::admitted))]
    fn admits(&self, _recon: &NumberRecon, tuple: &InnerView, node: u16, key: &Number) -> bool {
        tuple.all_same || side(decode(tuple.prefix.as_slice()), key.value) == node
    }

    #[tactic(auto, unfolding(crate::specs::Trie::node_for))]
    fn choose(
        &self,
        alloc: Global,
        _recon: &NumberRecon,
        tuple: &InnerView,
        rest: &[u8],
    ) -> Result<Choice, Memory> {
        let node = if tuple.all_same {
            0
        } else {
            side(decode(tuple.prefix.as_slice()), decode(rest))
        };
        let rest = Bytes::copy(alloc, rest)?;
        Ok(Choice::Match { node, rest })
    }

    fn picksplit(
        &self,
        alloc: Global,
        _recon: &NumberRecon,
        rests: &[Bytes],
    ) -> Result<Picked, Memory> {
        divide(alloc, rests)
    }

    fn down(
        &self,
        _alloc: Global,
        recon: &NumberRecon,
        _tuple: &InnerView,
        _node: u16,
    ) -> Result<NumberRecon, Memory> {
        Ok(*recon)
    }

    #[tactic(auto, unfolding(crate::specs::Trie::is_wanted))]
    fn inner_consistent(
        &self,
        alloc: Global,
        _recon: &NumberRecon,
        tuple: &InnerView,
        conds: &[NumberCond],
    ) -> Result<SmallVec<u16, 8>, Memory> {
        let fork = decode(tuple.prefix.as_slice());
        let mut kept = SmallVec::new(alloc);
        for node in 0..tuple.labels.len() as u16 {
            if tuple.all_same || all_meet(fork, node, conds) {
                kept.push(node)?;
            }
        }
        Ok(kept)
    }

    #[tactic(auto, unfolding(crate::specs::Numbers::rebuilt))]
    fn leaf_consistent(&self, _recon: &NumberRecon, rest: &[u8], conds: &[NumberCond]) -> bool {
        rest.len() == 8 && all_hold(conds, decode(rest))
    }

    #[tactic(auto, unfolding(crate::specs::Numbers::rebuilt))]
    fn rebuild(&self, _alloc: Global, _recon: &NumberRecon, rest: &[u8]) -> Result<Number, Memory> {
        Ok(Number {
            value: decode(rest),
        })
    }
}

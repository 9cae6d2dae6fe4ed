ghost use Rattle.std.specs.Prelude.{◌≡◌, All, IfOk, true, false, refl};
ghost use Rattle.spg_opclass.specs.InPlace.{shown};
ghost use Rattle.spg_opclass.specs.Exact.{KeepsExactly};
ghost use Rattle.spg_points.specs.Codec.{is_point};
ghost use Rattle.spg_kd.specs.Kd.{kd_meaning};

use crate::division::divide;
use crate::half::{choose_node, nodes_at};
use smallvec::SmallVec;
use spg_base::{Bytes, Memory, Point, PointCond, Same};
use spg_opclass::{Choice, InnerRef, InnerView, OpClass, Picked, SharedClass, TakesValue};
use spg_points::{NodeAreas, all_hold, decode, encode, kept_nodes, labels_ok};
use std::alloc::Global;

/// The class of k-d trees. Its keys are points, its conditions those on points.
#[derive(Clone, Copy, Debug, PartialEq, Eq)]
pub struct Kd;

/// What the way down tells: the level's parity. The root's level is even. Even levels look at y,
/// odd ones at x.
#[derive(Clone, Copy, Debug, PartialEq, Eq)]
pub struct KdRecon {
    pub odd: bool,
}

impl Same for KdRecon {
    fn same(&self, other: &KdRecon) -> bool {
        self.odd == other.odd
    }

    fn copy(&self) -> Result<KdRecon, Memory> {
        Ok(*self)
    }
}

impl SharedClass for Kd {}

impl TakesValue for Kd {
    ghost use Rattle.spg_kd.specs.KdLaws.{kd_bare, kd_room};

    fn code_with_value(&self) -> u8 {
        18
    }

    ghost bare = { kd_bare };

    ghost room = { kd_room };
}

impl OpClass for Kd {
    ghost use Rattle.spg_kd.specs.KdLaws.{kd_matches, kd_adds, kd_splits, kd_picks, kd_apart, kd_keeps, kd_plain, kd_codes};

    type Key = Point;

    type Recon = KdRecon;

    type Cond = PointCond;

    const LABELS: bool = false;

    ghost LABELS = { false };

    ghost meaning = { kd_meaning };

    ghost code_number = { 2 };

    ghost labels_agree = { refl };

    ghost matches = { kd_matches };

    ghost adds = { kd_adds };

    ghost splits = { kd_splits };

    ghost picks = { kd_picks };

    ghost apart = { kd_apart };

    ghost keeps = { kd_keeps };

    ghost plain = { kd_plain };

    ghost codes = { kd_codes };

    fn code(&self) -> u8 {
        2
    }

    fn start(&self, _alloc: Global) -> Result<KdRecon, Memory> {
        Ok(KdRecon { odd: false })
    }

    fn rest_of(&self, alloc: Global, key: &Point) -> Result<Bytes, Memory> {
        encode(alloc, *key)
    }

    fn prefix_ok(&self, prefix: &[u8]) -> bool {
        prefix.len() == 4
    }

    fn rest_ok(&self, rest: &[u8]) -> bool {
        rest.len() == 8
    }

    fn nodes_ok(&self, tuple: &InnerView) -> bool {
        labels_ok(tuple, 2)
    }

    #[tactic(auto, unfolding(spg_points::specs::PointClass::rebuilt))]
    fn key_ok(&self, _recon: &KdRecon, rest: &[u8]) -> bool {
        rest.len() == 8
    }

    fn admits(&self, recon: &KdRecon, tuple: &InnerView, node: u16, key: &Point) -> bool {
        nodes_at(*recon, &tuple.in_place()).at(node).has(*key)
    }

    fn choose(
        &self,
        alloc: Global,
        recon: &KdRecon,
        tuple: &InnerView,
        rest: &[u8],
    ) -> Result<Choice, Memory> {
        self.choose_in_place(alloc, recon, &tuple.in_place(), rest)
    }

    fn picksplit(&self, alloc: Global, recon: &KdRecon, rests: &[Bytes]) -> Result<Picked, Memory> {
        divide(alloc, *recon, rests)
    }

    fn down(
        &self,
        alloc: Global,
        recon: &KdRecon,
        tuple: &InnerView,
        node: u16,
    ) -> Result<KdRecon, Memory> {
        self.down_in_place(alloc, recon, &tuple.in_place(), node)
    }

    fn inner_consistent(
        &self,
        alloc: Global,
        recon: &KdRecon,
        tuple: &InnerView,
        conds: &[PointCond],
    ) -> Result<SmallVec<u16, 8>, Memory>
        ensures known { All (λ c. kd_meaning.is_cond c ≡ true) conds.now }
        ensures ok { IfOk result (λ kept. kept.items ≡ kd_meaning.kept recon.now tuple.now conds.now) }
        ensures exact { KeepsExactly kd_meaning is_point recon.now tuple.now conds.now (kd_meaning.kept recon.now tuple.now conds.now) }
    {
        self.inner_consistent_in_place(alloc, recon, &tuple.in_place(), conds)
    }

    #[inline(always)]
    fn choose_in_place(
        &self,
        alloc: Global,
        recon: &KdRecon,
        tuple: &InnerRef<'_>,
        rest: &[u8],
    ) -> Result<Choice, Memory> {
        Ok(Choice::Match {
            node: choose_node(*recon, tuple, rest),
            rest: Bytes::copy(alloc, rest)?,
        })
    }

    fn down_in_place(
        &self,
        _alloc: Global,
        recon: &KdRecon,
        _tuple: &InnerRef<'_>,
        _node: u16,
    ) -> Result<KdRecon, Memory> {
        Ok(KdRecon { odd: !recon.odd })
    }

    fn inner_consistent_in_place(
        &self,
        alloc: Global,
        recon: &KdRecon,
        tuple: &InnerRef<'_>,
        conds: &[PointCond],
    ) -> Result<SmallVec<u16, 8>, Memory>
        ensures known { IfOk result (λ _. All (λ c. kd_meaning.is_cond c ≡ true) conds.now) }
        ensures ok { IfOk result (λ kept. kept.items ≡ kd_meaning.kept recon.now (shown tuple.now) conds.now) }
        ensures exact { KeepsExactly kd_meaning is_point recon.now (shown tuple.now) conds.now (kd_meaning.kept recon.now (shown tuple.now) conds.now) }
    {
        kept_nodes(alloc, &nodes_at(*recon, tuple), tuple.labels.len(), conds)
    }

    #[tactic(auto, unfolding(spg_points::specs::PointClass::rebuilt))]
    fn leaf_consistent(&self, _recon: &KdRecon, rest: &[u8], conds: &[PointCond]) -> bool {
        rest.len() == 8 && all_hold(conds, decode(rest))
    }

    #[tactic(auto, unfolding(spg_points::specs::PointClass::rebuilt))]
    fn rebuild(&self, _alloc: Global, _recon: &KdRecon, rest: &[u8]) -> Result<Point, Memory> {
        Ok(decode(rest))
    }
}

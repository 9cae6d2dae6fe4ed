ghost use Rattle.std.specs.Prelude.{◌≡◌, All, IfOk, true, false, refl};
ghost use Rattle.spg_opclass.specs.InPlace.{shown};
ghost use Rattle.spg_opclass.specs.Exact.{KeepsExactly};
ghost use Rattle.spg_points.specs.Codec.{is_point};
ghost use Rattle.spg_quad.specs.Quad.{quad_meaning};

use crate::division::divide;
use crate::quadrant::{choose_node, nodes_at};
use smallvec::SmallVec;
use spg_base::{Bytes, Memory, Point, PointCond, Same};
use spg_opclass::{Choice, InnerRef, InnerView, OpClass, Picked, SharedClass, TakesValue};
use spg_points::{NodeAreas, all_hold, decode, encode, kept_nodes, labels_ok};
use std::alloc::Global;

/// The class of quad trees. Its keys are points, its conditions those on points.
#[derive(Clone, Copy, Debug, PartialEq, Eq)]
pub struct Quad;

/// What the way down tells of a point: nothing, since each rest is a whole point.
#[derive(Clone, Copy, Debug, PartialEq, Eq)]
pub struct QuadRecon;

impl Same for QuadRecon {
    fn same(&self, _other: &QuadRecon) -> bool {
        true
    }

    fn copy(&self) -> Result<QuadRecon, Memory> {
        Ok(QuadRecon)
    }
}

impl SharedClass for Quad {}

impl TakesValue for Quad {
    ghost use Rattle.spg_quad.specs.QuadLaws.{quad_bare, quad_room};

    fn code_with_value(&self) -> u8 {
        17
    }

    ghost bare = { quad_bare };

    ghost room = { quad_room };
}

impl OpClass for Quad {
    ghost use Rattle.spg_quad.specs.QuadLaws.{quad_matches, quad_adds, quad_splits, quad_picks, quad_apart, quad_keeps, quad_plain, quad_codes};

    type Key = Point;

    type Recon = QuadRecon;

    type Cond = PointCond;

    const LABELS: bool = false;

    ghost LABELS = { false };

    ghost meaning = { quad_meaning };

    ghost code_number = { 1 };

    ghost labels_agree = { refl };

    ghost matches = { quad_matches };

    ghost adds = { quad_adds };

    ghost splits = { quad_splits };

    ghost picks = { quad_picks };

    ghost apart = { quad_apart };

    ghost keeps = { quad_keeps };

    ghost plain = { quad_plain };

    ghost codes = { quad_codes };

    fn code(&self) -> u8 {
        1
    }

    fn start(&self, _alloc: Global) -> Result<QuadRecon, Memory> {
        Ok(QuadRecon)
    }

    fn rest_of(&self, alloc: Global, key: &Point) -> Result<Bytes, Memory> {
        encode(alloc, *key)
    }

    fn prefix_ok(&self, prefix: &[u8]) -> bool {
        prefix.len() == 8
    }

    fn rest_ok(&self, rest: &[u8]) -> bool {
        rest.len() == 8
    }

    fn nodes_ok(&self, tuple: &InnerView) -> bool {
        labels_ok(tuple, 4)
    }

    #[tactic(auto, unfolding(spg_points::specs::PointClass::rebuilt))]
    fn key_ok(&self, _recon: &QuadRecon, rest: &[u8]) -> bool {
        rest.len() == 8
    }

    fn admits(&self, _recon: &QuadRecon, tuple: &InnerView, node: u16, key: &Point) -> bool {
        nodes_at(&tuple.in_place()).at(node).has(*key)
    }

    fn choose(
        &self,
        alloc: Global,
        recon: &QuadRecon,
        tuple: &InnerView,
        rest: &[u8],
    ) -> Result<Choice, Memory> {
        self.choose_in_place(alloc, recon, &tuple.in_place(), rest)
    }

    fn picksplit(
        &self,
        alloc: Global,
        _recon: &QuadRecon,
        rests: &[Bytes],
    ) -> Result<Picked, Memory> {
        divide(alloc, rests)
    }

    fn down(
        &self,
        alloc: Global,
        recon: &QuadRecon,
        tuple: &InnerView,
        node: u16,
    ) -> Result<QuadRecon, Memory> {
        self.down_in_place(alloc, recon, &tuple.in_place(), node)
    }

    fn inner_consistent(
        &self,
        alloc: Global,
        recon: &QuadRecon,
        tuple: &InnerView,
        conds: &[PointCond],
    ) -> Result<SmallVec<u16, 8>, Memory>
        ensures known { All (λ c. quad_meaning.is_cond c ≡ true) conds.now }
        ensures ok { IfOk result (λ kept. kept.items ≡ quad_meaning.kept recon.now tuple.now conds.now) }
        ensures exact { KeepsExactly quad_meaning is_point recon.now tuple.now conds.now (quad_meaning.kept recon.now tuple.now conds.now) }
    {
        self.inner_consistent_in_place(alloc, recon, &tuple.in_place(), conds)
    }

    #[inline(always)]
    fn choose_in_place(
        &self,
        alloc: Global,
        _recon: &QuadRecon,
        tuple: &InnerRef<'_>,
        rest: &[u8],
    ) -> Result<Choice, Memory> {
        Ok(Choice::Match {
            node: choose_node(tuple, rest),
            rest: Bytes::copy(alloc, rest)?,
        })
    }

    fn down_in_place(
        &self,
        _alloc: Global,
        recon: &QuadRecon,
        _tuple: &InnerRef<'_>,
        _node: u16,
    ) -> Result<QuadRecon, Memory> {
        Ok(*recon)
    }

    fn inner_consistent_in_place(
        &self,
        alloc: Global,
        _recon: &QuadRecon,
        tuple: &InnerRef<'_>,
        conds: &[PointCond],
    ) -> Result<SmallVec<u16, 8>, Memory>
        ensures known { IfOk result (λ _. All (λ c. quad_meaning.is_cond c ≡ true) conds.now) }
        ensures ok { IfOk result (λ kept. kept.items ≡ quad_meaning.kept _recon.now (shown tuple.now) conds.now) }
        ensures exact { KeepsExactly quad_meaning is_point _recon.now (shown tuple.now) conds.now (quad_meaning.kept _recon.now (shown tuple.now) conds.now) }
    {
        kept_nodes(alloc, &nodes_at(tuple), tuple.labels.len(), conds)
    }

    #[tactic(auto, unfolding(spg_points::specs::PointClass::rebuilt))]
    fn leaf_consistent(&self, _recon: &QuadRecon, rest: &[u8], conds: &[PointCond]) -> bool {
        rest.len() == 8 && all_hold(conds, decode(rest))
    }

    #[tactic(auto, unfolding(spg_points::specs::PointClass::rebuilt))]
    fn rebuild(&self, _alloc: Global, _recon: &QuadRecon, rest: &[u8]) -> Result<Point, Memory> {
        Ok(decode(rest))
    }
}

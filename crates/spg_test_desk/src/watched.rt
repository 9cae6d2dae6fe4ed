//! A class that is the quad tree's, but for one call, by which it tells when a scan asks it.
use smallvec::SmallVec;
use spg_base::{Bytes, Memory, Point, PointCond};
use spg_opclass::{Choice, InnerView, OpClass, Picked, SharedClass};
use spg_quad::{Quad, QuadRecon};
use std::alloc::{AllocError, Global};
use std::sync::atomic::{AtomicU64, Ordering};
use std::thread;

/// How often one thread looks for what the other does, before it goes on without it.
const TURNS: u32 = 2_000_000;

/// What two threads tell each other.
#[derive(Drop)]
pub(crate) struct Flags {
    /// A scan has asked the class.
    pub(crate) asked: AtomicU64,
    /// A row was put since.
    pub(crate) put: AtomicU64,
    /// The scan's question was answered after that.
    pub(crate) answered: AtomicU64,
}

impl Flags {
    /// Flags that last as long as the process, since a class names no lifetime.
    pub(crate) fn new(alloc: Global) -> Result<&'static Flags, AllocError> {
        let flags = Flags {
            asked: AtomicU64::new(0),
            put: AtomicU64::new(0),
            answered: AtomicU64::new(0),
        };
        Ok(Box::leak(Box::new(alloc, flags)?))
    }
}

/// Whether a flag is set within so many turns.
pub(crate) fn is_set(flag: &AtomicU64) -> bool {
    for _ in 0..TURNS {
        if flag.load(Ordering::SeqCst) != 0 {
            return true;
        }
        thread::yield_now();
    }
    false
}

pub(crate) fn set(flag: &AtomicU64) {
    flag.store(1, Ordering::SeqCst);
}

/// The quad tree's class, which answers a scan only after a row was put.
#[derive(Clone, Copy)]
pub(crate) struct Watched {
    pub(crate) flags: &'static Flags,
}

impl SharedClass for Watched {}

impl OpClass for Watched {
    ghost use Rattle.std.specs.Prelude.{false, refl};
    ghost use Rattle.spg_quad.specs.Quad.{quad_meaning};
    ghost use Rattle.spg_quad.specs.QuadLaws.{quad_matches, quad_adds, quad_splits, quad_picks, quad_apart, quad_keeps, quad_plain, quad_codes};

    type Key = Point;

    type Recon = QuadRecon;

    type Cond = PointCond;

    const LABELS: bool = false;

    ghost LABELS = { false };

    ghost meaning = { quad_meaning };

    ghost code_number = { 1 };

    ghost labels_agree = { refl };

    ghost matches = { quad_matches };

    ghost adds = { quad_adds };

    ghost splits = { quad_splits };

    ghost picks = { quad_picks };

    ghost apart = { quad_apart };

    ghost keeps = { quad_keeps };

    ghost plain = { quad_plain };

    ghost codes = { quad_codes };

    fn code(&self) -> u8 {
        Quad.code()
    }

    fn start(&self, alloc: Global) -> Result<QuadRecon, Memory> {
        Quad.start(alloc)
    }

    fn rest_of(&self, alloc: Global, key: &Point) -> Result<Bytes, Memory> {
        Quad.rest_of(alloc, key)
    }

    fn prefix_ok(&self, prefix: &[u8]) -> bool {
        Quad.prefix_ok(prefix)
    }

    fn rest_ok(&self, rest: &[u8]) -> bool {
        Quad.rest_ok(rest)
    }

    fn nodes_ok(&self, tuple: &InnerView) -> bool {
        Quad.nodes_ok(tuple)
    }

    fn key_ok(&self, recon: &QuadRecon, rest: &[u8]) -> bool {
        Quad.key_ok(recon, rest)
    }

    fn admits(&self, recon: &QuadRecon, tuple: &InnerView, node: u16, key: &Point) -> bool {
        Quad.admits(recon, tuple, node, key)
    }

    fn choose(
        &self,
        alloc: Global,
        recon: &QuadRecon,
        tuple: &InnerView,
        rest: &[u8],
    ) -> Result<Choice, Memory> {
        Quad.choose(alloc, recon, tuple, rest)
    }

    fn picksplit(
        &self,
        alloc: Global,
        recon: &QuadRecon,
        rests: &[Bytes],
    ) -> Result<Picked, Memory> {
        Quad.picksplit(alloc, recon, rests)
    }

    fn down(
        &self,
        alloc: Global,
        recon: &QuadRecon,
        tuple: &InnerView,
        node: u16,
    ) -> Result<QuadRecon, Memory> {
        Quad.down(alloc, recon, tuple, node)
    }

    fn inner_consistent(
        &self,
        alloc: Global,
        recon: &QuadRecon,
        tuple: &InnerView,
        conds: &[PointCond],
    ) -> Result<SmallVec<u16, 8>, Memory> {
        set(&self.flags.asked);
        if is_set(&self.flags.put) {
            set(&self.flags.answered);
        }
        Quad.inner_consistent(alloc, recon, tuple, conds)
    }

    fn leaf_consistent(&self, recon: &QuadRecon, rest: &[u8], conds: &[PointCond]) -> bool {
        Quad.leaf_consistent(recon, rest, conds)
    }

    fn rebuild(&self, alloc: Global, recon: &QuadRecon, rest: &[u8]) -> Result<Point, Memory> {
        Quad.rebuild(alloc, recon, rest)
    }
}

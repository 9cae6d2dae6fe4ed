//! The small state.
ghost use Rattle.std.specs.Prelude.{◌≡◌, ◌≢◌, ◌<◌, ◌+◌, Some as Just, IfOk, IsTrue};
ghost use Rattle.spg_core.specs.Since.{opened_at};
ghost use Rattle.spg_core.specs.Seen.{stage_at};
ghost use Rattle.spg_test_states.specs.States.{HasCopy, HasDone, HasMore, IsSmall, OthersStay, next_of};

use crate::small::looks::{has_latched, redirects};
use crate::small::sections::{copies, inserts, opens_insert};
use crate::small::start::starts;
use crate::small::vacuums::{handles_block, handles_place, opens_vacuum, waits_for};
use spg_base::{Block, Memory, Point, Row, SeatNo, Stamp};
use spg_core::{Bare, InsertOut, State};
use spg_opclass::OpClass;
use std::alloc::Global;

/// The greatest number of pages.
const LIMIT: u32 = 16;

/// The block whose chains are divided.
const BLOCK: Block = Block(3);

/// A seat.
fn seat(number: u8) -> SeatNo
    requires { number < 64 }
    ensures { result ≡ number }
{
    match SeatNo::new(number) {
        Some(seat) => seat,
        None => SeatNo::first(),
    }
}

/// Whether the vacuum handles three blocks.
fn handles_three<O: OpClass>(state: &mut State<O>, seat: SeatNo) -> bool
    ensures { IsTrue result → next_of (stage_at state.new seat) ≡ next_of (stage_at state.old seat) + 3 }
{
    handles_block(state, seat) && handles_block(state, seat) && handles_block(state, seat)
}

/// A vacuum opens before a chain is divided on a page that it has still to see. It finds the redirect
/// there, and handles the inner tuple to which that leads.
fn sweeps<O: OpClass>(state: &mut State<O>, sweeper: SeatNo) -> bool
    ensures next { 0 ≢ sweeper → IsTrue result → next_of (stage_at state.new sweeper) ≡ 4 }
    ensures done { IsTrue result → HasMore (stage_at state.new sweeper) → HasDone (stage_at state.new sweeper) }
{
    opens_vacuum(state, sweeper)
        && inserts(state, SeatNo::first(), InsertOut::Put)
        && handles_three(state, sweeper)
        && handles_place(state, sweeper)
}

/// An insert comes to a chain of that page, two tuples below the root.
fn goes_below<O: OpClass<Key = Point>>(state: &mut State<O>) -> bool
    ensures { OthersStay state.old state.new 0 }
{
    let first = SeatNo::first();
    opens_insert(state, first, Row::at(2, 2), Some(Point { x: 64, y: -1 }))
        && inserts(state, first, InsertOut::Descended)
        && inserts(state, first, InsertOut::Descended)
        && inserts(state, first, InsertOut::Descended)
}

/// An insert comes to that page, and the vacuum to a place there that is to do.
fn comes_below<O: OpClass<Key = Point>>(state: &mut State<O>, sweeper: SeatNo) -> bool
    ensures { 0 ≢ sweeper → next_of (stage_at state.old sweeper) ≡ 4 → (HasMore (stage_at state.old sweeper) → HasDone (stage_at state.old sweeper)) → IsTrue result → HasDone (stage_at state.new sweeper) }
{
    goes_below(state) && waits_for(state, sweeper, 3)
}

/// Whether an index with a copied tuple and a done place is such a state, where its vacuum opened at a
/// position and a moment.
fn stands_so<O: OpClass>(
    bare: &Bare<O>,
    sweeper: SeatNo,
    scanner: SeatNo,
    at: u64,
    since: Stamp,
) -> bool
    requires { opened_at (stage_at bare.now sweeper) ≡ Just (at, since) }
    ensures { HasDone (stage_at bare.now sweeper) → HasCopy (stage_at bare.now scanner) → IsTrue result → IsSmall O.meaning bare.now }
{
    let _journal = bare.journal();
    has_latched(bare, SeatNo::first(), BLOCK) && redirects(bare, BLOCK, since)
}

/// Whether an index with a copied tuple and a done place is such a state.
fn looks_small<O: OpClass>(bare: &Bare<O>, sweeper: SeatNo, scanner: SeatNo) -> bool
    ensures { HasDone (stage_at bare.now sweeper) → HasCopy (stage_at bare.now scanner) → IsTrue result → IsSmall O.meaning bare.now }
{
    match bare.opened(sweeper) {
        Some((at, since)) => stands_so(bare, sweeper, scanner, at, since),
        None => false,
    }
}

/// Whether an index with a done place is such a state once a scan copies a tuple.
fn is_small<O: OpClass>(bare: &mut Bare<O>, sweeper: SeatNo, scanner: SeatNo) -> bool
    ensures { scanner ≢ sweeper → HasDone (stage_at bare.old sweeper) → IsTrue result → IsSmall O.meaning bare.new }
{
    copies(bare, scanner) && looks_small(bare, sweeper, scanner)
}

/// Whether an index that came to be one with a done place is such a state then.
fn becomes_small<O: OpClass>(
    bare: &mut Bare<O>,
    came: bool,
    sweeper: SeatNo,
    scanner: SeatNo,
) -> bool
    ensures { scanner ≢ sweeper → (IsTrue came → HasDone (stage_at bare.old sweeper)) → IsTrue result → IsSmall O.meaning bare.new }
{
    came && is_small(bare, sweeper, scanner)
}

/// Whether the index comes to be one with a done place.
fn comes_about<O: OpClass<Key = Point>>(
    state: &mut State<O>,
    sweeper: SeatNo,
    scanner: SeatNo,
) -> bool
    ensures { 0 ≢ sweeper → IsTrue result → HasDone (stage_at state.new sweeper) }
{
    starts(state, scanner) && sweeps(state, sweeper) && comes_below(state, sweeper)
}

/// An index in which at once an insert is below the root, a scan holds a copied inner tuple, and a vacuum
/// has a done place while a redirect stands that it has to heed; and whether it came to be so. All that a
/// state keeps holds of it. Refused where the first pages find no memory.
pub fn small_state<O: OpClass<Key = Point>>(
    alloc: Global,
    class: O,
) -> Result<(Bare<O>, bool), Memory>
    ensures { IfOk result (λ made. IsTrue made.1 → IsSmall O.meaning made.0) }
{
    let (sweeper, scanner) = (seat(1), seat(2));
    let mut state = State::new(alloc, class, LIMIT)?;
    let came = comes_about(&mut state, sweeper, scanner);
    let (_class, mut bare) = state.part();
    let is_so = becomes_small(&mut bare, came, sweeper, scanner);
    Ok((bare, is_so))
}

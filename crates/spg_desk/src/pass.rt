ghost use Rattle.std.specs.Prelude.{◌≡◌};
ghost use Rattle.spg_turn.specs.Passes.{pass_view};
ghost use Rattle.spg_calls.specs.Doing.{idle};
ghost use Rattle.spg_desk.specs.Knowing.{doing_at, IsPassed};

use spg_base::SeatNo;
use spg_core::Bare;
use spg_opclass::OpClass;
use spg_rows::Event;

/// The pass of a seat in the midst of a call.
#[derive(Drop)]
pub(crate) struct Going<O: OpClass> {
    pub(crate) pass: spg_turn::Pass<Bare<O>, Event<O>>,
    pub ghost passed: { IsPassed (pass_view pass) },
}

/// The right of one seat to call a desk. Its seat has nothing open. Contracts read it by `desk_of`,
/// the desk that it belongs to, and `view_of`, what it knows.
#[derive(Drop)]
pub struct Pass<O: OpClass> {
    pub(crate) going: Going<O>,
    pub ghost idle: { doing_at (pass_view going.pass) ≡ idle },
}

impl<O: OpClass> Pass<O> {
    ghost use Rattle.std.specs.Prelude.{◌≡◌, ◌≢◌, ◌<◌, ◌≤◌, length};
    ghost use Rattle.spg_desk.specs.Passes.{view_of};

    /// The number of its seat.
    pub fn seat(&self) -> SeatNo
        ensures { result ≡ (view_of self.now).number }
    {
        self.going.pass.seat()
    }

    /// The length of the journal as the pass has last seen it.
    pub fn seen(&self) -> u64
        ensures { result ≡ length (view_of self.now).seen }
    {
        self.going.pass.seen()
    }

    /// How many passes there have been, 1 to 64, of the first pass; 0 of every other.
    pub fn given(&self) -> u8
        ensures value { result ≡ (view_of self.now).given }
        ensures in_range { (view_of self.now).given ≤ 64 }
        ensures other { (view_of self.now).number ≢ 0 → result ≡ 0 }
    {
        self.going.pass.given()
    }

    /// How many passes were joined to the first, fewer than were given, of the first pass; 0 of every
    /// other.
    pub fn back(&self) -> u8
        ensures value { result ≡ (view_of self.now).back }
        ensures in_range { (view_of self.now).back < 64 }
        ensures first { (view_of self.now).number ≡ 0 → (view_of self.now).back < (view_of self.now).given }
        ensures other { (view_of self.now).number ≢ 0 → result ≡ 0 }
    {
        self.going.pass.back()
    }
}

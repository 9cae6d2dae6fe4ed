ghost use Rattle.spg_turn.specs.Rule.{IsResting, IsHolding};

use crate::rule::View;
use atomic_table::Seat;
use spg_base::SeatNo;

/// The right of one seat to take its turn, with what the seat knows of the journal. Contracts read
/// it by `pass_turn`, the lock that it belongs to, and `pass_view`, what it knows.
#[derive(Drop)]
pub struct Pass<S, E> {
    pub(crate) seat: Seat<Option<S>, View<E>>,
    pub(crate) number: SeatNo,
    pub(crate) seen: u64,
    pub(crate) given: u8,
    pub(crate) back: u8,
    pub ghost resting: { IsResting seat.me number seen given back },
}

/// The state while a seat has it out of the lock. Only `Turn::leave` takes it, so a holder that
/// forgets to give it back does not compile. Contracts read it by `held_turn`, the lock that it
/// belongs to, `held_view`, what its seat knows, and `held_state`, the state.
pub struct Held<S, E> {
    pub(crate) state: S,
    pub(crate) seat: Seat<Option<S>, View<E>>,
    pub(crate) number: SeatNo,
    pub(crate) seen: u64,
    pub(crate) given: u8,
    pub(crate) back: u8,
    pub ghost holding: { IsHolding seat.me number seen given back },
}

impl<S, E> Pass<S, E> {
    ghost use Rattle.std.specs.Prelude.{◌≡◌, ◌≢◌, ◌<◌, ◌≤◌, length};
    ghost use Rattle.spg_turn.specs.Passes.{pass_view};

    /// The number of its seat.
    pub fn seat(&self) -> SeatNo
        ensures { result ≡ (pass_view self.now).number }
    {
        self.number
    }

    /// The length of the journal as the pass has last seen it.
    pub fn seen(&self) -> u64
        ensures { result ≡ length (pass_view self.now).seen }
    {
        self.seen
    }

    /// How many passes there have been, 1 to 64, of the first pass; 0 of every other.
    pub fn given(&self) -> u8
        ensures value { result ≡ (pass_view self.now).given }
        ensures in_range { (pass_view self.now).given ≤ 64 }
        ensures other { (pass_view self.now).number ≢ 0 → result ≡ 0 }
    {
        self.given
    }

    /// How many passes were joined to the first, fewer than were given, of the first pass; 0 of every
    /// other.
    pub fn back(&self) -> u8
        ensures value { result ≡ (pass_view self.now).back }
        ensures in_range { (pass_view self.now).back < 64 }
        ensures first { (pass_view self.now).number ≡ 0 → (pass_view self.now).back < (pass_view self.now).given }
        ensures other { (pass_view self.now).number ≢ 0 → result ≡ 0 }
    {
        self.back
    }
}

impl<S, E> Held<S, E> {
    ghost use Rattle.std.specs.Prelude.{◌≡◌};
    ghost use Rattle.std.specs.Borrow.{sem};
    ghost use Rattle.spg_turn.specs.Passes.{held_state, held_view};
    ghost use Rattle.spg_turn.specs.Lending.{LendsState};

    /// The number of its seat.
    pub fn seat(&self) -> SeatNo
        ensures { result ≡ (held_view self.now).number }
    {
        self.number
    }

    /// Lends the state for reading.
    pub fn state(&self) -> &S
        ensures { result.now ≡ held_state self.now }
    {
        &self.state
    }

    /// Lends the state for change.
    pub fn state_mut(&mut self) -> &mut S
        ensures* lends { sem 𝓛 (LendsState S.row E.row self.entry result) }
        ensures value { result.now ≡ held_state self.old }
    {
        &mut self.state
    }
}

use crate::pass::{Going, Pass};
use spg_base::Memory;
use spg_core::{Bare, State};
use spg_opclass::OpClass;
use spg_turn::Turn;
use std::alloc::Global;

/// An index that threads share, each by a pass of its own. A call of the desk is done in sections, of
/// which each takes one turn of the lock; the class is asked between the turns, on copies. Contracts
/// read it by `desk_id`, which desk it is, `desk_class`, the class of its index, and `desk_seats`, how many
/// passes it may give.
pub struct Desk<O: OpClass> {
    pub(crate) alloc: Global,
    pub(crate) class: O,
    pub(crate) turn: Turn<Bare<O>>,
}

impl<O: OpClass> Desk<O> {
    ghost use Rattle.std.specs.Prelude.{◌≡◌, ◌≢◌, ℕ, ◌+◌, ◌<◌, ◌≤◌, drop, IfOk, IfErr};
    ghost use Rattle.spg_rows.specs.History.{nothing, open_of, own};
    ghost use Rattle.spg_core.specs.Seen.{past_of, HasClass};
    ghost use Rattle.spg_turn.specs.Views.{StartsWith, kept_of, first_view, after_split, after_join, dealt};
    ghost use Rattle.spg_desk.specs.Passes.{desk_id, desk_class, desk_seats, desk_of, view_of};

    /// A desk for 1 to 64 seats over an index in which nothing is open, and the first pass, of seat 0,
    /// which has seen the whole journal. `Memory` comes with the index as it was.
    pub fn new(
        alloc: Global,
        state: State<O>,
        seats: u8,
    ) -> Result<(Desk<O>, Pass<O>), (State<O>, Memory)>
        requires count { (1 ≤ seats) × (seats ≤ 64) }
        requires idle { (n : ℕ) → open_of n (past_of state) ≡ nothing }
        ensures ok { IfOk result (λ d. (desk_of d.1 ≡ desk_id d.0) × (desk_seats d.0 ≡ seats) × (view_of d.1 ≡ first_view state.journal state.origin)) }
        ensures class { IfOk result (λ d. HasClass state (desk_class d.0)) }
        ensures err { IfErr result (λ e. e.0 ≡ state) }
    {
        let (class, bare) = state.part();
        match Turn::new(alloc, bare, seats) {
            Ok((turn, pass)) => {
                let going = Going { pass };
                Ok((Desk { alloc, class, turn }, Pass { going }))
            }
            Err((bare, memory)) => Err((State::whole(class, bare), memory)),
        }
    }

    /// The class of the keys.
    pub fn class(&self) -> &O
        ensures { result.now ≡ desk_class self.now }
    {
        &self.class
    }

    /// How many passes it may give, 1 to 64.
    pub fn seats(&self) -> u8
        ensures value { result ≡ desk_seats self.now }
        ensures in_range { (1 ≤ desk_seats self.now) × (desk_seats self.now ≤ 64) }
    {
        self.turn.seats()
    }

    /// A pass of the next seat, whose number is how many there were; it has seen what the first pass
    /// has seen. The first pass comes back first.
    pub fn split(&self, pass: Pass<O>) -> (Pass<O>, Pass<O>)
        requires own { desk_of pass ≡ desk_id self.now }
        requires first { (view_of pass).number ≡ 0 }
        requires room { (view_of pass).given < desk_seats self.now }
        ensures own { (desk_of result.0 ≡ desk_of pass) × (desk_of result.1 ≡ desk_of pass) }
        ensures first { view_of result.0 ≡ after_split (view_of pass) }
        ensures second { view_of result.1 ≡ dealt (view_of pass) }
    {
        let Pass { going } = pass;
        let Going { pass } = going;
        let (one, other) = self.turn.split(pass);
        let first = Going { pass: one };
        let second = Going { pass: other };
        (Pass { going: first }, Pass { going: second })
    }

    /// Takes a pass back. The first pass has then seen the longer of the two journals, which begins
    /// with both, and keeps what the other had added.
    pub fn join(&self, first: Pass<O>, other: Pass<O>) -> Pass<O>
        requires own { (desk_of first ≡ desk_id self.now) × (desk_of other ≡ desk_id self.now) }
        requires first { (view_of first).number ≡ 0 }
        requires other { (view_of other).number ≢ 0 }
        ensures own { desk_of result ≡ desk_of first }
        ensures view { view_of result ≡ after_join (view_of first) (view_of other) }
        ensures begins_first { StartsWith (view_of result).seen (view_of first).seen }
        ensures begins_other { StartsWith (view_of result).seen (view_of other).seen }
        ensures base { (view_of other).base ≡ (view_of first).base }
    {
        let Pass { going: one } = first;
        let Pass { going: two } = other;
        let Going { pass: one } = one;
        let Going { pass: two } = two;
        let pass = self.turn.join(one, two);
        let going = Going { pass };
        Pass { going }
    }

    /// The index, once each other pass was joined. Its journal is the one that the first pass has
    /// seen, of each seat it has just the events that this seat's pass added, and nothing is open.
    pub fn close(self, first: Pass<O>) -> State<O>
        requires own { desk_of first ≡ desk_id self }
        requires first { (view_of first).number ≡ 0 }
        requires all { (view_of first).back + 1 ≡ (view_of first).given }
        ensures class { HasClass result (desk_class self) }
        ensures origin { result.origin ≡ (view_of first).origin }
        ensures list { result.journal ≡ (view_of first).seen }
        ensures first { own 0 (drop (view_of first).base result.journal) ≡ (view_of first).mine }
        ensures others { (n : ℕ) → 0 < n → own n (drop (view_of first).base result.journal) ≡ kept_of (view_of first).kept n }
        ensures idle { (n : ℕ) → open_of n (past_of result) ≡ nothing }
    {
        let Pass { going } = first;
        let Going { pass } = going;
        let Desk {
            alloc: _,
            class,
            turn,
        } = self;
        let bare = turn.close(pass);
        State::whole(class, bare)
    }
}

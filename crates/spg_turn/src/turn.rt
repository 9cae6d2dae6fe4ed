ghost use Rattle.std.specs.Prelude.{◌≡◌, ◌≤◌, ◌<◌};

use crate::pass::{Held, Pass};
use crate::rule::{Compare, Deal, Draw, Extend, Law, Look, Ring, Serve, View};
use atomic_table::{Refused, Seat, Table};
use spg_base::{Memory, Recorded, SeatNo};
use std::alloc::Global;
use std::hint::spin_loop;
use std::snapshot::Snapshot;
use std::sync::Wait;
use std::thread::yield_now;

// The words of the table: the next ticket, the ticket served, the length of the journal, 64 bells, and
// how many seats sleep or are about to.
const NEXT: usize = 0;

const NOW: usize = 1;

const LENGTH: usize = 2;

const FIRST_BELL: usize = 3;

const SLEEPERS: usize = 67;

const WORDS: usize = 68;

// How often who waits looks before it sleeps. To wake who sleeps takes longer than tens of sections.
pub(crate) const LOOKS: u8 = 250;

// How often it looks before it lets other threads run in between.
const SPINS: u8 = 40;

/// A lock round a state, whose holders take turns. Contracts read it by `turn_id`, which lock it is,
/// and `turn_seats`, how many passes it may give.
pub struct Turn<S: Recorded> {
    table: Table<Option<S>, View<S::Entry>, Snapshot<S>, Law, Global>,
    seats: u8,
    pub ghost sized: { (table.shared.table_id.words ≡ 68) × (table.shared.table_id.slots ≡ 1) × (1 ≤ seats) × (seats ≤ 64) },
}

impl<S: Recorded> Turn<S> {
    ghost use Rattle.std.specs.Prelude.{◌≡◌, ◌≢◌, ℕ, ◌+◌, ◌%◌, ◌<◌, ◌≤◌, List, [], ◌++◌, drop, All, IfOk, IfErr, false};
    ghost use Rattle.spg_turn.specs.declared.rule.Stage.TheVariants.{Waiting};
    ghost use Rattle.spg_turn.specs.Views.{StartsWith, by_seat, kept_of, first_view, after_split, after_join, dealt, grown};
    ghost use Rattle.spg_turn.specs.Rule.{cycle, Takes};
    ghost use Rattle.spg_turn.specs.Passes.{turn_id, turn_seats, pass_turn, pass_view, held_turn, held_view, held_state};

    /// A lock for 1 to 64 seats, and the first pass, of seat 0, which has seen the whole journal.
    /// `Memory` comes with the state as it was.
    pub fn new(
        alloc: Global,
        state: S,
        seats: u8,
    ) -> Result<(Turn<S>, Pass<S, S::Entry>), (S, Memory)>
        requires { (1 ≤ seats) × (seats ≤ 64) }
        ensures ok { IfOk result (λ t. (pass_turn t.1 ≡ turn_id t.0) × (turn_seats t.0 ≡ seats) × (pass_view t.1 ≡ first_view (S.entries state) (S.origin_of state))) }
        ensures err { IfErr result (λ e. e.0 ≡ state) }
    {
        let about = Snapshot::of(&state);
        let len = state.len();
        let mut slots = Vec::new(alloc);
        if slots.reserve(1).is_err() {
            slots.destroy_empty();
            return Err((state, Memory));
        }
        slots.push_reserved(Some(state));
        let mut words = [0; WORDS];
        words[LENGTH] = len;
        match Table::new(alloc, &words, slots, &about) {
            Ok((table, seat)) => {
                let pass = Pass {
                    seat,
                    number: SeatNo::first(),
                    seen: len,
                    given: 1,
                    back: 0,
                };
                Ok((Turn { table, seats }, pass))
            }
            Err(refused) => {
                let Refused { mut slots } = refused;
                let Some(Some(state)) = slots.pop() else {
                    unreachable!()
                };
                slots.destroy_empty();
                Err((state, Memory))
            }
        }
    }

    /// How many passes it may give, 1 to 64.
    pub fn seats(&self) -> u8
        ensures value { result ≡ turn_seats self.now }
        ensures in_range { (1 ≤ turn_seats self.now) × (turn_seats self.now ≤ 64) }
    {
        self.seats
    }

    /// Takes the pass's turn, for which it may wait. The journal of the state lent begins with all
    /// that the pass has seen, and of the pass's seat it has just the entries that the pass added.
    pub fn enter<R: Wait>(&self, rt: &R, pass: Pass<S, S::Entry>) -> Held<S, S::Entry>
        requires own { pass_turn pass ≡ turn_id self.now }
        ensures own { held_turn result ≡ pass_turn pass }
        ensures origin { S.origin_of (held_state result) ≡ (pass_view pass).origin }
        ensures begins { StartsWith (S.entries (held_state result)) (pass_view pass).seen }
        ensures entries { by_seat S.seat_of (pass_view pass).number (drop (pass_view pass).base (S.entries (held_state result))) ≡ (pass_view pass).mine }
        ensures view { held_view result ≡ record (pass_view pass) { seen = S.entries (held_state result) } }
    {
        self.enter_after(rt, pass, LOOKS)
    }

    // Takes the pass's turn. Who has to wait looks so often before it sleeps.
    pub(crate) fn enter_after<R: Wait>(
        &self,
        rt: &R,
        pass: Pass<S, S::Entry>,
        looks: u8,
    ) -> Held<S, S::Entry>
        requires own { pass_turn pass ≡ turn_id self.now }
        ensures own { held_turn result ≡ pass_turn pass }
        ensures origin { S.origin_of (held_state result) ≡ (pass_view pass).origin }
        ensures begins { StartsWith (S.entries (held_state result)) (pass_view pass).seen }
        ensures entries { by_seat S.seat_of (pass_view pass).number (drop (pass_view pass).base (S.entries (held_state result))) ≡ (pass_view pass).mine }
        ensures view { held_view result ≡ record (pass_view pass) { seen = S.entries (held_state result) } }
    {
        let Pass {
            mut seat,
            number,
            seen: _,
            given,
            back,
        } = pass;
        let shared = &self.table.shared;
        let ticket = shared.fetch_add::<Draw>(&mut seat, NEXT, 1);
        self.wait(rt, &mut seat, ticket, looks);
        let found = shared.exchange(&mut seat, 0, None);
        let Some(state) = found else { unreachable!() };
        let seen = state.len();
        Held {
            state,
            seat,
            number,
            seen,
            given,
            back,
        }
    }

    // Waits until the ticket is served, and takes the slot. Who is about to sleep tells it before the
    // last look, and has read the bell before: so who serves the ticket after that look rings the bell.
    fn wait<R: Wait>(
        &self,
        rt: &R,
        seat: &mut Seat<Option<S>, View<S::Entry>>,
        ticket: u64,
        most: u8,
    )
        requires own { seat.old.table_id ≡ turn_id self.now }
        requires waiting { (t : ℕ) × (ticket ≡ t % cycle) × (seat.old.me.0.stage ≡ Waiting t) × (seat.old.me.0.spent ≡ false) × (seat.old.me.1 ≡ []) }
        ensures own { (seat.new.table_id ≡ seat.old.table_id) × (seat.new.id ≡ seat.old.id) }
        ensures took { Takes S.entries S.seat_of S.origin_of seat.old.me seat.new.me }
    {
        let shared = &self.table.shared;
        let bell = bell_of(ticket);
        let mut looks = 0;
        for _ in rt.forever() {
            let rung = shared.peek(bell);
            let sleeps = looks >= most;
            self.begin_sleep(seat, sleeps);
            let now = shared.load::<Look>(seat, NOW);
            if now == ticket {
                self.end_sleep(seat, sleeps);
                return;
            }
            if sleeps {
                shared.park(rt, bell, (rung & 0xffff_ffff) as u32);
            } else if looks < SPINS {
                looks += 1;
                spin_loop();
            } else {
                looks += 1;
                yield_now();
            }
            self.end_sleep(seat, sleeps);
        }
        unreachable!()
    }

    // Tells that the seat is about to sleep, if it is.
    fn begin_sleep(&self, seat: &mut Seat<Option<S>, View<S::Entry>>, sleeps: bool)
        requires own { seat.old.table_id ≡ turn_id self.now }
        ensures same { (seat.new.table_id ≡ seat.old.table_id) × (seat.new.id ≡ seat.old.id) × (seat.new.me ≡ seat.old.me) }
    {
        if sleeps {
            self.table.shared.fetch_add::<Ring>(seat, SLEEPERS, 1);
        }
    }

    // Tells that the seat is awake, if it told that it was about to sleep.
    fn end_sleep(&self, seat: &mut Seat<Option<S>, View<S::Entry>>, sleeps: bool)
        requires own { seat.old.table_id ≡ turn_id self.now }
        ensures same { (seat.new.table_id ≡ seat.old.table_id) × (seat.new.id ≡ seat.old.id) × (seat.new.me ≡ seat.old.me) }
    {
        if sleeps {
            self.table.shared.fetch_sub::<Ring>(seat, SLEEPERS, 1);
        }
    }

    /// Gives the state back. Its journal only grew, by entries of the holder's seat, and its origin
    /// is as it was. The pass has then seen the whole journal.
    pub fn leave(&self, held: Held<S, S::Entry>) -> Pass<S, S::Entry>
        requires own { held_turn held ≡ turn_id self.now }
        requires grown { (more : List S.Entry) × (S.entries (held_state held) ≡ (held_view held).seen ++ more) × All (λ e. S.seat_of e ≡ (held_view held).number) more }
        requires origin { S.origin_of (held_state held) ≡ (held_view held).origin }
        ensures own { pass_turn result ≡ held_turn held }
        ensures view { pass_view result ≡ grown (held_view held) (S.entries (held_state held)) }
    {
        let Held {
            state,
            mut seat,
            number,
            seen,
            given,
            back,
        } = held;
        let len = state.len();
        let shared = &self.table.shared;
        let found = shared.exchange(&mut seat, 0, Some(state));
        let None = found else { unreachable!() };
        shared.fetch_add::<Extend>(&mut seat, LENGTH, len - seen);
        let ticket = shared.fetch_add::<Serve>(&mut seat, NOW, 1);
        self.ring(&mut seat, ticket.wrapping_add(1));
        Pass {
            seat,
            number,
            seen: len,
            given,
            back,
        }
    }

    // Wakes who has the ticket, if it was drawn and somebody sleeps.
    fn ring(&self, seat: &mut Seat<Option<S>, View<S::Entry>>, ticket: u64)
        requires own { seat.old.table_id ≡ turn_id self.now }
        ensures same { (seat.new.table_id ≡ seat.old.table_id) × (seat.new.id ≡ seat.old.id) × (seat.new.me ≡ seat.old.me) }
    {
        let shared = &self.table.shared;
        if shared.peek(NEXT) != ticket && shared.peek(SLEEPERS) != 0 {
            let bell = bell_of(ticket);
            shared.fetch_add::<Ring>(seat, bell, 1);
            shared.wake_one(bell);
        }
    }

    /// A pass of the next seat, whose number is how many there were; it has seen what the first pass
    /// has seen. The first pass comes back first.
    pub fn split(&self, pass: Pass<S, S::Entry>) -> (Pass<S, S::Entry>, Pass<S, S::Entry>)
        requires own { pass_turn pass ≡ turn_id self.now }
        requires first { (pass_view pass).number ≡ 0 }
        requires room { (pass_view pass).given < turn_seats self.now }
        ensures own { (pass_turn result.0 ≡ pass_turn pass) × (pass_turn result.1 ≡ pass_turn pass) }
        ensures first { pass_view result.0 ≡ after_split (pass_view pass) }
        ensures second { pass_view result.1 ≡ dealt (pass_view pass) }
    {
        let Pass {
            mut seat,
            number,
            seen,
            given,
            back,
        } = pass;
        let Some(next) = SeatNo::new(given) else {
            unreachable!()
        };
        let other = self.table.shared.split_seat::<Deal>(&mut seat);
        let second = Pass {
            seat: other,
            number: next,
            seen,
            given: 0,
            back: 0,
        };
        let first = Pass {
            seat,
            number,
            seen,
            given: given + 1,
            back,
        };
        (first, second)
    }

    /// Takes a pass back. The first pass has then seen the longer of the two journals, which begins
    /// with both, and keeps what the other had added.
    pub fn join(&self, first: Pass<S, S::Entry>, other: Pass<S, S::Entry>) -> Pass<S, S::Entry>
        requires own { (pass_turn first ≡ turn_id self.now) × (pass_turn other ≡ turn_id self.now) }
        requires first { (pass_view first).number ≡ 0 }
        requires other { (pass_view other).number ≢ 0 }
        ensures own { pass_turn result ≡ pass_turn first }
        ensures view { pass_view result ≡ after_join (pass_view first) (pass_view other) }
        ensures begins_first { StartsWith (pass_view result).seen (pass_view first).seen }
        ensures begins_other { StartsWith (pass_view result).seen (pass_view other).seen }
        ensures base { (pass_view other).base ≡ (pass_view first).base }
    {
        let Pass {
            mut seat,
            number,
            seen,
            given,
            back,
        } = first;
        let Pass {
            seat: second,
            number: _,
            seen: second_seen,
            given: _,
            back: _,
        } = other;
        self.table.shared.join_seat::<Deal>(&mut seat, second);
        self.table.shared.load::<Compare>(&mut seat, LENGTH);
        Pass {
            seat,
            number,
            seen: seen.max(second_seen),
            given,
            back: back + 1,
        }
    }

    /// Takes the state out, once each other pass was joined. Its journal is the one that the first
    /// pass has seen, and of each seat it has just the entries that this seat's pass added.
    pub fn close(self, first: Pass<S, S::Entry>) -> S
        requires own { pass_turn first ≡ turn_id self }
        requires first { (pass_view first).number ≡ 0 }
        requires all { (pass_view first).back + 1 ≡ (pass_view first).given }
        ensures origin { S.origin_of result ≡ (pass_view first).origin }
        ensures list { S.entries result ≡ (pass_view first).seen }
        ensures first { by_seat S.seat_of 0 (drop (pass_view first).base (S.entries result)) ≡ (pass_view first).mine }
        ensures others { (n : ℕ) → 0 < n → by_seat S.seat_of n (drop (pass_view first).base (S.entries result)) ≡ kept_of (pass_view first).kept n }
    {
        let Turn { table, seats: _ } = self;
        let Pass {
            seat,
            number: _,
            seen: _,
            given: _,
            back: _,
        } = first;
        let mut closed = table.close_with(seat);
        let found = closed.take(0);
        let Some(state) = found else { unreachable!() };
        closed.free();
        state
    }
}

// The bell of a ticket. At most 64 tickets are out at once, so no two of them share one.
fn bell_of(ticket: u64) -> usize
    ensures { (3 ≤ result) × (result < 67) }
{
    FIRST_BELL + (ticket % 64) as usize
}

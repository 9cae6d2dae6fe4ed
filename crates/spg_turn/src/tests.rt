ghost use Rattle.std.specs.Prelude.{◌≡◌, ◌≤◌, All, IfSome, vec_len, vec_capacity};
ghost use Rattle.spg_turn.specs.Passes.{turn_id, turn_seats, pass_turn, pass_view};

use crate::turn::LOOKS;
use crate::{Pass, Turn};
use spg_base::{Memory, Origin, Recorded};
use std::alloc::Global;
use std::process::Abort;
use std::sync::Wait;
use std::test::Fail;
use std::thread::{self, Threads};

/// A journal in which an entry is the seat that added it.
#[derive(Drop)]
struct Marks {
    seats: Vec<u8>,
    origin: Origin,
}

impl Recorded for Marks {
    type Entry = u8;

    ghost entries = { λ m. m.seats.items };

    ghost seat_of = { λ seat. seat };

    ghost origin_of = { λ m. m.origin };

    fn len(&self) -> u64 {
        self.seats.len() as u64
    }

    fn origin(&self) -> Origin {
        self.origin
    }
}

/// Two marks of seat 0, made before the lock was.
fn two_marks(alloc: Global) -> Result<Marks, Fail> {
    let mut seats = Vec::new(alloc);
    seats.push(0)?;
    seats.push(0)?;
    let origin = Origin {
        limit: 64,
        pages: 3,
        clock: 0,
        loaded: false,
    };
    Ok(Marks { seats, origin })
}

/// Adds a mark under the lock, where there is memory for it. Who has to wait looks so often before it sleeps.
fn mark<R: Wait>(rt: &R, turn: &Turn<Marks>, pass: Pass<Marks, u8>, looks: u8) -> Pass<Marks, u8>
    requires own { pass_turn pass ≡ turn_id turn.now }
    ensures own { pass_turn result ≡ pass_turn pass }
    ensures same { pass_view result ≡ record (pass_view pass) { seen = (pass_view result).seen; mine = (pass_view result).mine } }
{
    let mut held = turn.enter_after(rt, pass, looks);
    let seat = held.seat().number();
    if held.state().seats.len() % 8 == 7 {
        thread::yield_now();
    }
    match held.state_mut().seats.push(seat) {
        Ok(()) => turn.leave(held),
        Err(_) => turn.leave(held),
    }
}

/// Adds marks one after another.
fn mark_times<R: Wait>(
    rt: &R,
    turn: &Turn<Marks>,
    pass: Pass<Marks, u8>,
    times: u32,
    looks: u8,
) -> Pass<Marks, u8>
    requires own { pass_turn pass ≡ turn_id turn.now }
    ensures own { pass_turn result ≡ pass_turn pass }
{
    let mut pass = pass;
    for _ in 0..times {
        pass = mark(rt, turn, pass, looks);
    }
    pass
}

/// How many marks of a seat there are.
fn count(marks: &Marks, seat: u8) -> usize {
    marks.seats.iter().filter(|mark| **mark == seat).count()
}

#[test]
fn passes_are_given_and_come_back(rt: HostRuntime) -> Result<(), Fail> {
    let alloc = rt.alloc();
    let Ok((turn, first)) = Turn::new(alloc, two_marks(alloc)?, 2) else {
        return Err(Memory.into());
    };
    assert_eq!(rt;
        (turn.seats(), first.seat().number(), first.seen()),
        (2, 0, 2)
    );
    assert_eq!(rt; (first.given(), first.back()), (1, 0));
    let (first, second) = turn.split(first);
    assert_eq!(rt; (second.seat().number(), second.seen()), (1, 2));
    assert_eq!(rt; (first.given(), second.given(), second.back()), (2, 0, 0));
    let second = mark(&rt, &turn, second, LOOKS);
    let first = mark(&rt, &turn, first, LOOKS);
    let second = mark(&rt, &turn, second, LOOKS);
    assert_eq!(rt; (first.seen(), second.seen()), (4, 5));
    let first = turn.join(first, second);
    assert_eq!(rt; (first.seen(), first.given()), (5, first.back() + 1));
    let marks = turn.close(first);
    assert_eq!(rt; marks.seats.as_slice(), [0, 0, 1, 0, 1].as_slice());
    assert_eq!(rt; marks.origin().limit, 64);
    Ok(())
}

#[test]
fn one_seat_closes_at_once(rt: HostRuntime) -> Result<(), Fail> {
    let alloc = rt.alloc();
    match Turn::new(alloc, two_marks(alloc)?, 1) {
        Ok((turn, first)) => assert_eq!(rt; turn.close(first).len(), 2),
        Err((marks, _)) => assert_eq!(rt; marks.len(), 2),
    }
    Ok(())
}

type Lane = Option<Pass<Marks, u8>>;

/// Gives a lane to each seat but the first.
fn deal(turn: &Turn<Marks>, first: Pass<Marks, u8>, lanes: &mut Vec<Lane>) -> Pass<Marks, u8>
    requires own { pass_turn first ≡ turn_id turn.now }
    requires first { ((pass_view first).number ≡ 0) × ((pass_view first).given ≡ 1) }
    requires room { (vec_len lanes.old ≡ 0) × (64 ≤ vec_capacity lanes.old) }
    ensures own { pass_turn result ≡ turn_id turn.now }
    ensures first { (pass_view result).number ≡ 0 }
    ensures lanes { All (λ lane. IfSome lane (λ p. pass_turn p ≡ turn_id turn.now)) lanes.new.items }
{
    let mut first = first;
    for _ in 1..turn.seats() {
        let (left, other) = turn.split(first);
        first = left;
        lanes.push_reserved(Some(other));
    }
    first
}

/// Takes back the pass of each lane.
fn gather(turn: &Turn<Marks>, first: Pass<Marks, u8>, lanes: &mut [Lane]) -> Pass<Marks, u8>
    requires own { (pass_turn first ≡ turn_id turn.now) × All (λ lane. IfSome lane (λ p. pass_turn p ≡ turn_id turn.now)) lanes.old }
    requires first { (pass_view first).number ≡ 0 }
    ensures own { pass_turn result ≡ pass_turn first }
    ensures first { (pass_view result).number ≡ 0 }
{
    let mut first = first;
    for k in 0..lanes.len() {
        if let Some(pass) = lanes[k].take() {
            if pass.seat().number() > 0 {
                first = turn.join(first, pass);
            }
        }
    }
    first
}

/// Lets so many threads take so many turns each, all at once. Who has to wait looks so often before it sleeps.
fn take_turns<R: AllocGlobal + Threads + Wait + Sync + Abort>(
    rt: &R,
    threads: u8,
    times: u32,
    looks: u8,
) -> Result<(), Fail>
    requires { threads ≤ 63 }
{
    let alloc = rt.alloc();
    let mut lanes: Vec<Lane> = Vec::with_capacity(alloc, 64)?;
    let Ok((turn, first)) = Turn::new(alloc, two_marks(alloc)?, threads + 1) else {
        return Err(Memory.into());
    };
    let first = deal(&turn, first, &mut lanes);
    let run = |_: usize, lane: &mut Lane|
        requires { IfSome lane.old (λ p. pass_turn p ≡ turn_id turn) }
        ensures { IfSome lane.new (λ p. pass_turn p ≡ turn_id turn) }
    {
        if let Some(pass) = lane.take() {
            *lane = Some(mark_times(rt, &turn, pass, times, looks));
        }
    };
    thread::for_each_mut(rt, lanes.as_mut_slice(), 64, &run);
    let first = gather(&turn, first, lanes.as_mut_slice());
    assert_eq!(rt; first.given(), first.back() + 1);
    assert_counts(rt, &turn.close(first), threads, times);
    Ok(())
}

/// Looks whether each of so many threads has added so many marks, beside the two that stood there before.
fn assert_counts<R: Abort>(rt: &R, marks: &Marks, threads: u8, times: u32) {
    assert_eq!(rt; marks.seats.len(), threads as usize * times as usize + 2);
    for thread in 0..threads {
        assert_eq!(rt; count(marks, thread + 1), times as usize);
    }
}

#[test]
fn threads_take_turns(rt: HostRuntime) -> Result<(), Fail> {
    take_turns(&rt, 8, 500, LOOKS)
}

/// Each thread sleeps whenever it has to wait, so that a wake which is lost leaves it asleep for good.
#[test]
fn sixty_three_threads_are_woken(rt: HostRuntime) -> Result<(), Fail> {
    take_turns(&rt, 63, 100, 0)
}

/// A bell that is read too late is met most often where a few threads press.
#[test]
fn four_threads_are_woken(rt: HostRuntime) -> Result<(), Fail> {
    take_turns(&rt, 4, 5_000, 0)
}

#[test]
fn two_threads_are_woken(rt: HostRuntime) -> Result<(), Fail> {
    take_turns(&rt, 2, 10_000, 0)
}

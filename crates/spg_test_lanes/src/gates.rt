//! What a gate is asked, and when: each lane once before each of its commands, and all lanes at once.
use crate::lanes::{Lines, assert_counts, push_times};
use spg_app::{Gate, Status};
use spg_test_program::{no_fails, ran_by, run_word};
use std::alloc::{AllocError, Global};
use std::process::Abort;
use std::sync::Wait;
use std::sync::atomic::{AtomicU64, Ordering};
use std::test::Fail;
use std::thread::{self, Threads};

/// How often a lane looks whether others have come, before it goes on without them.
const TURNS: u32 = 2_000_000;

fn zero() -> AtomicU64 {
    AtomicU64::new(0)
}

fn read(count: &AtomicU64) -> u64 {
    count.load(Ordering::SeqCst)
}

/// Whether a count comes to a number within so many turns.
fn comes_to(count: &AtomicU64, number: u64) -> bool {
    for _ in 0..TURNS {
        if read(count) >= number {
            return true;
        }
        thread::yield_now();
    }
    false
}

/// Two lanes. The first has two commands, the second three.
const TWO: &[u8] =
    b"class quad\ntogether\nlane\ninsert 1.1 1,1\ndelete 9.9\nlane\ninsert 2.1 2,2\ninsert 2.2 3,3\ndelete 9.9\nend\n";

/// What they print where the first lane inserts behind both inserts of the second, and each deletes behind those.
const FIRST_LANE_LAST: &[u8] =
    b"1 4 6 added\n2 6 6 not live\n3 0 2 added\n4 2 4 added\n5 6 6 not live\njournal 6\n0 1 open insert 2.1 2,2\n1 1 put 2.1\n2 1 open insert 2.2 3,3\n3 1 put 2.2\n4 0 open insert 1.1 1,1\n5 0 put 1.1\n";

/// Where a gate counts that a lane asked before a command of its own: by the lane and the command, and behind
/// them all that there is not.
fn place_of(lane: u8, command: u32) -> usize {
    match (lane, command) {
        (0, 0) => 0,
        (0, 1) => 1,
        (1, 0) => 2,
        (1, 1) => 3,
        (1, 2) => 4,
        _ => 5,
    }
}

/// For which other question each place waits: the first lane until the second has come to its third command, the
/// second before its first until the first lane has asked, and before its third until that has inserted.
const WAITS: [Option<usize>; 6] = [Some(4), None, Some(0), None, Some(1), None];

/// A gate that counts how often each lane asked before each of its commands, and sees to the order of their inserts.
#[derive(Drop)]
struct Counting {
    asked: [AtomicU64; 6],
}

/// Waits until a question was asked.
fn await_at(asked: &[AtomicU64; 6], place: usize) {
    if let Some(count) = asked.get(place) {
        comes_to(count, 1);
    }
}

/// Counts a question.
fn count_at(asked: &[AtomicU64; 6], place: usize) {
    if let Some(count) = asked.get(place) {
        count.fetch_add(1, Ordering::SeqCst);
    }
}

impl Gate for Counting {
    fn at<R: Wait>(&self, _rt: &R, lane: u8, command: u32) {
        let place = place_of(lane, command);
        count_at(&self.asked, place);
        if let Some(Some(other)) = WAITS.get(place) {
            await_at(&self.asked, *other);
        }
    }
}

fn counting_gate() -> Counting {
    Counting {
        asked: [zero(), zero(), zero(), zero(), zero(), zero()],
    }
}

/// How often each was asked, the first lane's before the second's, and how often anything else.
fn all_asked(gate: &Counting) -> [u64; 6] {
    let asked = &gate.asked;
    [
        read(&asked[0]),
        read(&asked[1]),
        read(&asked[2]),
        read(&asked[3]),
        read(&asked[4]),
        read(&asked[5]),
    ]
}

/// Each lane asks once before each command, by its number and the command's. The second lane does not begin
/// before the first has asked; the first does not go on before the second has come to its third command.
#[test]
fn each_lane_asks_before_each_command(rt: HostRuntime) -> Result<(), Fail> {
    let gate = counting_gate();
    let ended = ran_by(&rt, &run_word(), TWO, no_fails(), &gate)?;
    assert_eq!(rt; all_asked(&gate), [1, 1, 1, 1, 1, 0]);
    assert!(rt; (ended.status, ended.text.as_slice()) == (Status::Done, FIRST_LANE_LAST));
    Ok(())
}

/// A gate at which each lane waits before its first command until all have come.
#[derive(Drop)]
struct Meeting {
    lanes: u32,
    come: AtomicU64,
    met: AtomicU64,
}

impl Gate for Meeting {
    fn at<R: Wait>(&self, _rt: &R, _lane: u8, command: u32) {
        if command == 0 {
            self.come.fetch_add(1, Ordering::SeqCst);
            if comes_to(&self.come, u64::from(self.lanes)) {
                self.met.fetch_add(1, Ordering::SeqCst);
            }
        }
    }
}

fn meeting_gate(lanes: u32) -> Meeting {
    Meeting {
        lanes,
        come: zero(),
        met: zero(),
    }
}

/// So many lanes, each of which looks once for the one row that there is.
fn lanes_that_look(alloc: Global, lanes: u32) -> Result<String, AllocError> {
    let mut script = String::from_str(alloc, "class quad\ninsert 1.1 1,1\ntogether\n")?;
    push_times(&mut script, "lane\nfind all\n", lanes)?;
    script.push_str("end\n")?;
    Ok(script)
}

/// Whether so many lanes all came before one of them began, and each found the row.
fn meets<R: AllocGlobal + Threads + Wait + Sync + Abort>(rt: &R, lanes: u32) -> Result<(), Fail> {
    let gate = meeting_gate(lanes);
    let script = lanes_that_look(rt.alloc(), lanes)?;
    let ended = ran_by(
        rt,
        &run_word(),
        script.as_str().as_bytes(),
        no_fails(),
        &gate,
    )?;
    assert_eq!(rt;
        (ended.status, read(&gate.met)),
        (Status::Done, u64::from(lanes)),
        "{lanes} lanes"
    );
    assert_counts(
        rt,
        ended.text.as_slice(),
        &[(Lines::Holding(" found 1 1.1"), lanes)],
    )
}

/// So many lanes each.
const LANES: [u32; 5] = [1, 2, 3, 5, 32];

/// No lane begins before each other one has come, so all have threads of their own.
#[test]
fn all_lanes_run_at_once(rt: HostRuntime) -> Result<(), Fail> {
    for lanes in &LANES {
        meets(&rt, *lanes)?;
    }
    Ok(())
}

use spg_app::{Gate, Status};
use spg_test_program::{Open, ends, no_fails, ran, ran_by, run_word};
use std::alloc::{AllocError, Global};
use std::process::Abort;
use std::sync::Wait;
use std::sync::atomic::{AtomicU64, Ordering};
use std::test::Fail;
use std::thread::Threads;
use std::{str, thread};

/// How often a lane looks whether the other has come, before it goes on without it.
const TURNS: u32 = 2_000_000;

/// How many points a lane inserts.
const POINTS: u32 = 2_000;

/// A gate that holds one lane before its first command until another has come to its second.
#[derive(Drop)]
struct Held {
    lane: u8,
    come: AtomicU64,
    freed: AtomicU64,
}

impl Gate for Held {
    fn at<R: Wait>(&self, _rt: &R, lane: u8, command: u32) {
        if lane != self.lane {
            if command == 1 {
                self.come.store(1, Ordering::SeqCst);
            }
            return;
        }
        if command != 0 {
            return;
        }
        for _ in 0..TURNS {
            if self.come.load(Ordering::SeqCst) != 0 {
                self.freed.store(1, Ordering::SeqCst);
                return;
            }
            thread::yield_now();
        }
    }
}

fn gate_holding(lane: u8) -> Held {
    Held {
        lane,
        come: AtomicU64::new(0),
        freed: AtomicU64::new(0),
    }
}

fn is_freed(gate: &Held) -> bool {
    gate.freed.load(Ordering::SeqCst) != 0
}

/// Runs the program on a script that it does to its end.
pub(crate) fn ran_whole<R: AllocGlobal + Threads + Wait + Sync + Abort>(
    rt: &R,
    words: &[&str],
    script: &str,
) -> Result<Vec<u8>, Fail> {
    let ended = ran(rt, words, script.as_bytes(), no_fails())?;
    assert!(rt; ended.status == Status::Done);
    Ok(ended.text)
}

/// Inserts of rows `block`.1, `block`.2 and so on.
pub(crate) fn push_inserts(
    alloc: Global,
    script: &mut String,
    block: u32,
    count: u32,
) -> Result<(), AllocError> {
    for number in 1..=count {
        let line = format!(in alloc; "insert {block}.{number} {number},{block}\n")?;
        script.push_str(line.as_str())?;
    }
    Ok(())
}

pub(crate) fn push_times(script: &mut String, lines: &str, count: u32) -> Result<(), AllocError> {
    for _ in 0..count {
        script.push_str(lines)?;
    }
    Ok(())
}

/// Which lines of a text are counted.
#[derive(Clone, Copy, Debug)]
pub(crate) enum Lines {
    /// Those that end so.
    Ending(&'static str),
    /// Those that hold this.
    Holding(&'static str),
}

/// How many lines of a text are such.
fn counted(text: &str, lines: Lines) -> u32 {
    let mut count = 0u32;
    for line in text.lines() {
        let is_such = match lines {
            Lines::Ending(end) => line.ends_with(end),
            Lines::Holding(part) => line.contains(part),
        };
        if is_such {
            count = count.saturating_add(1);
        }
    }
    count
}

/// Counts lines of what a run wrote.
pub(crate) fn assert_counts<R: Abort>(
    rt: &R,
    text: &[u8],
    counts: &[(Lines, u32)],
) -> Result<(), Fail> {
    let text = str::from_utf8(text)?;
    for (lines, count) in counts {
        assert_eq!(rt; counted(text, *lines), *count, "{lines:?}");
    }
    Ok(())
}

/// Two lanes: one inserts points, the other vacuums and looks.
fn two_lanes(alloc: Global) -> Result<String, AllocError> {
    let mut script = String::from_str(alloc, "class quad\ntogether\nlane\n")?;
    push_inserts(alloc, &mut script, 1, POINTS)?;
    script.push_str("lane\n")?;
    push_times(&mut script, "vacuum\nfind all\n", 20)?;
    script.push_str("end\nfind all\n")?;
    Ok(script)
}

/// Lines of the text of two lanes. The journal has two events of each insert and each find, and of each
/// vacuum.
const BESIDE: [(Lines, u32); 8] = [
    (Lines::Ending(" added"), POINTS),
    (Lines::Ending(" vacuumed 0"), 20),
    (Lines::Holding(" found "), 21),
    (Lines::Holding(" found 2000 walk "), 1),
    (Lines::Ending("journal 4082"), 1),
    (Lines::Holding(" 0 put 1."), POINTS),
    (Lines::Holding(" 1 open vacuum"), 20),
    (Lines::Holding(" 1 open scan all"), 20),
];

/// Runs a script whose lanes ask a gate.
fn ran_held<R: AllocGlobal + Threads + Wait + Sync + Abort>(
    rt: &R,
    script: &str,
    gate: &Held,
) -> Result<Vec<u8>, Fail> {
    let ended = ran_by(rt, &run_word(), script.as_bytes(), no_fails(), gate)?;
    assert_eq!(rt; ended.status, Status::Done);
    Ok(ended.text)
}

fn runs_beside<R: AllocGlobal + Threads + Wait + Sync + Abort>(
    rt: &R,
    lane: u8,
) -> Result<(), Fail> {
    let script = two_lanes(rt.alloc())?;
    let gate = gate_holding(lane);
    let text = ran_held(rt, script.as_str(), &gate)?;
    assert_eq!(rt; is_freed(&gate), true);
    assert_counts(rt, text.as_slice(), &BESIDE)
}

#[test]
fn the_first_lane_waits_for_the_second(rt: HostRuntime) -> Result<(), Fail> {
    runs_beside(&rt, 0)
}

#[test]
fn the_second_lane_waits_for_the_first(rt: HostRuntime) -> Result<(), Fail> {
    runs_beside(&rt, 1)
}

/// Thirty-two lanes that insert ten points each, delete one and look for another.
fn many_lanes(alloc: Global) -> Result<String, AllocError> {
    let mut script = String::from_str(alloc, "class kd\ntogether\n")?;
    for lane in 0..32u32 {
        script.push_str("lane\n")?;
        push_inserts(alloc, &mut script, lane, 10)?;
        let line = format!(in alloc; "delete {lane}.3\nfind where eq 4,{lane}\n")?;
        script.push_str(line.as_str())?;
    }
    script.push_str("end\nfind all\n")?;
    Ok(script)
}

const MANY: [(Lines, u32); 6] = [
    (Lines::Ending(" added"), 320),
    (Lines::Ending(" killed"), 32),
    (Lines::Holding(" found 1 "), 32),
    (Lines::Holding(" found 288 walk "), 1),
    (Lines::Holding(" 31 put 31."), 10),
    (Lines::Ending("journal 738"), 1),
];

/// Runs a script, and counts lines of what it writes.
fn runs_to<R: AllocGlobal + Threads + Wait + Sync + Abort>(
    rt: &R,
    script: &str,
    counts: &[(Lines, u32)],
) -> Result<(), Fail> {
    let text = ran_whole(rt, &run_word(), script)?;
    assert_counts(rt, text.as_slice(), counts)
}

#[test]
fn thirty_two_lanes(rt: HostRuntime) -> Result<(), Fail> {
    runs_to(&rt, many_lanes(rt.alloc())?.as_str(), &MANY)
}

/// Lanes that look and vacuum, of which none inserts.
fn lanes_that_look(alloc: Global) -> Result<String, AllocError> {
    let mut script = String::from_str(alloc, "class quad\n")?;
    push_inserts(alloc, &mut script, 7, 400)?;
    push_times(&mut script, "delete 7.100\n", 1)?;
    script.push_str("together\nlane\n")?;
    push_times(&mut script, "find all\n", 10)?;
    script.push_str("lane\n")?;
    push_times(&mut script, "vacuum\n", 10)?;
    script.push_str("lane\n")?;
    push_times(&mut script, "find where eq 5,7\n", 10)?;
    script.push_str("end\n")?;
    Ok(script)
}

const LOOKED: [(Lines, u32); 5] = [
    (Lines::Holding(" found 399 "), 10),
    (Lines::Holding(" found 1 7.5"), 10),
    (Lines::Ending(" vacuumed 1"), 1),
    (Lines::Ending(" vacuumed 0"), 9),
    (Lines::Holding(" 1 sweep 7.100"), 1),
];

#[test]
fn lanes_that_put_nothing(rt: HostRuntime) -> Result<(), Fail> {
    runs_to(&rt, lanes_that_look(rt.alloc())?.as_str(), &LOOKED)
}

#[test]
fn lanes_without_a_command(rt: HostRuntime) -> Result<(), Fail> {
    let script =
        b"class radix\ninsert 1.1 \"a\"\ntogether\nlane\nlane\nend\ntogether\nlane\nlane\ndelete 1.1\nlane\nend\nstat\n";
    let text =
        b"1 0 2 added\n2 2 3 killed\n3 3 3 stat pages 3 inner 0 leaf 1 redirect 0 dead 0 placeholder 0 clock 0\njournal 3\n0 0 open insert 1.1 \"a\"\n1 0 put 1.1\n2 1 kill 1.1\n";
    assert!(rt; ends(&rt, &run_word(), script, no_fails(), (Status::Done, text))?);
    Ok(())
}

/// Two blocks of lanes: those of the first insert, those of the second look.
fn two_blocks(alloc: Global) -> Result<String, AllocError> {
    let mut script = String::from_str(alloc, "class quad\ntogether\nlane\n")?;
    push_inserts(alloc, &mut script, 1, 200)?;
    script.push_str("lane\n")?;
    push_inserts(alloc, &mut script, 2, 200)?;
    script.push_str("end\ntogether\nlane\nfind all\nlane\nfind all\nend\n")?;
    Ok(script)
}

const BLOCKS: [(Lines, u32); 3] = [
    (Lines::Ending(" added"), 400),
    (Lines::Holding(" found 400 "), 2),
    (Lines::Ending("journal 804"), 1),
];

#[test]
fn one_block_after_another(rt: HostRuntime) -> Result<(), Fail> {
    runs_to(&rt, two_blocks(rt.alloc())?.as_str(), &BLOCKS)
}

/// A market day: three helpers at once, then two.
const MARKET: &str =
    "class quad\ninsert 1.1 10,10\ninsert 1.2 20,10\ninsert 1.3 30,10\ntogether\nlane\ninsert 2.1 10,20\ninsert 2.2 20,20\ninsert 2.3 30,20\ninsert 2.4 40,20\nlane\ndelete 1.2\nvacuum\ninsert 1.2 25,15\nlane\nfind where in 0,0,50,50\nfind where below 15\nfind all\nend\ntogether\nlane\ndelete 2.4\nfind where above 15\nlane\nvacuum\nfind all\nend\nfind all\nstat\n";

const SOLD: [(Lines, u32); 4] = [
    (Lines::Ending(" killed"), 2),
    (Lines::Holding(" vacuumed "), 2),
    (Lines::Holding(" found 3 2.1 2.2 2.3"), 1),
    (Lines::Holding(" close scan "), 6),
];

/// How many inserts of the market day were added or held. The row that was taken down may still be held
/// by the helper who looks.
fn added_or_held(text: &str) -> u32 {
    let held = counted(text, Lines::Ending(" row held by 2"));
    counted(text, Lines::Ending(" added")).saturating_add(held)
}

#[test]
fn a_market_day(rt: HostRuntime) -> Result<(), Fail> {
    let text = ran_whole(&rt, &run_word(), MARKET)?;
    assert_eq!(rt; added_or_held(str::from_utf8(text.as_slice())?), 8);
    assert_counts(&rt, text.as_slice(), &SOLD)
}

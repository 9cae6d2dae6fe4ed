use crate::program::{no_fails, ran_by, run_word};
use spg_app::{BadLine, Gate, Status};
use spg_base::Memory;
use std::sync::Wait;
use std::sync::atomic::{AtomicU64, Ordering};
use std::test::Fail;
use std::thread::Threads;

/// A gate that keeps what it was told.
#[derive(Drop)]
struct Told {
    /// The number of the bad line, and how many bytes it has.
    bad_line: AtomicU64,
    length: AtomicU64,
    /// How often it was told how far the run has come, how many commands were done at last, and of how
    /// many.
    times: AtomicU64,
    count: AtomicU64,
    of: AtomicU64,
}

impl Gate for Told {
    fn at<R: Wait>(&self, _rt: &R, _lane: u8, _command: u32) {}

    fn bad_line(&self, line: &BadLine<'_>) {
        self.bad_line
            .store(u64::from(line.number), Ordering::SeqCst);
        self.length.store(line.text.len() as u64, Ordering::SeqCst);
    }

    fn done(&self, count: usize, of: usize) {
        self.times.fetch_add(1, Ordering::SeqCst);
        self.count.store(count as u64, Ordering::SeqCst);
        self.of.store(of as u64, Ordering::SeqCst);
    }
}

fn told_nothing() -> Told {
    Told {
        bad_line: AtomicU64::new(0),
        length: AtomicU64::new(0),
        times: AtomicU64::new(0),
        count: AtomicU64::new(0),
        of: AtomicU64::new(0),
    }
}

/// What a gate was told: the bad line and its length, how often it was told of progress, and the last
/// of that.
fn all_told(gate: &Told) -> [u64; 5] {
    [
        gate.bad_line.load(Ordering::SeqCst),
        gate.length.load(Ordering::SeqCst),
        gate.times.load(Ordering::SeqCst),
        gate.count.load(Ordering::SeqCst),
        gate.of.load(Ordering::SeqCst),
    ]
}

/// Scripts, how their runs end, and what the gate was told.
const RUNS: [(&[u8], Status, [u64; 5]); 6] = [
    (b"", Status::BadScript(1), [1, 0, 0, 0, 0]),
    (
        b"class quad\n#\nstats\n",
        Status::BadScript(3),
        [3, 5, 0, 0, 0],
    ),
    (
        b"class quad\ntogether\nlane\n",
        Status::BadScript(4),
        [4, 0, 0, 0, 0],
    ),
    (b"class quad\n", Status::Done, [0, 0, 1, 0, 0]),
    (
        b"class quad\ninsert 1.1 1,1\n#\nfind all\n",
        Status::Done,
        [0, 0, 3, 2, 2],
    ),
    (
        b"class kd\nstat\ntogether\nlane\nvacuum\nfind all\nlane\nfind all\nend\nstat\n",
        Status::Done,
        [0, 0, 4, 5, 5],
    ),
];

/// How the run of a script ends, and what its gate was told.
fn run_told<R: AllocGlobal + Threads + Wait + Sync>(
    rt: &R,
    script: &[u8],
) -> Result<(Status, [u64; 5]), Memory> {
    let gate = told_nothing();
    let ended = ran_by(rt, &run_word(), script, no_fails(), &gate)?;
    Ok((ended.status, all_told(&gate)))
}

#[test]
fn tells_the_gate(rt: HostRuntime) -> Result<(), Fail> {
    for (script, status, counts) in &RUNS {
        assert!(rt; run_told(&rt, script)? == (*status, *counts));
    }
    Ok(())
}

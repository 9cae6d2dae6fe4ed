use spg_app::{BadLine, Gate};
use std::rt::Clock;
use std::sync::atomic::{AtomicU64, Ordering};
use std::sync::{OnceLock, Wait};
use std::time::Instant;

/// When a run is long enough for its progress to be told, in milliseconds.
const LONG: u64 = 1_000;

/// How long is waited from one telling to the next, in milliseconds.
const PAUSE: u64 = 250;

/// Keeps what is to be told of a bad line and, where standard error is a terminal, tells there how far a
/// long run has come. No lane waits before a command.
#[derive(Drop)]
pub struct Watch<'a, R> {
    rt: &'a R,
    /// What is told of a bad line.
    bad_line: OnceLock<String>,
    /// When the run began; None where no progress is told.
    start: Option<Instant>,
    /// How many commands were begun, of how many.
    begun: AtomicU64,
    of: AtomicU64,
    /// When progress is told next, in milliseconds from the start.
    next: AtomicU64,
}

impl<'a, R: Eprint + Clock> Watch<'a, R> {
    /// A watch of a run that begins now.
    pub fn new(rt: &'a R, is_terminal: bool) -> Watch<'a, R> {
        let start = if is_terminal {
            Instant::now(rt).ok()
        } else {
            None
        };
        Watch {
            rt,
            bad_line: OnceLock::new(),
            start,
            begun: AtomicU64::new(0),
            of: AtomicU64::new(0),
            next: AtomicU64::new(LONG),
        }
    }

    /// What is told of a bad line, where there was one.
    pub fn into_bad_line(self) -> Option<String> {
        self.bad_line.into_inner()
    }

    /// Tells the progress, where it is time to.
    fn tell(&self, start: Instant) {
        let Ok(elapsed) = start.elapsed(self.rt) else {
            return;
        };
        let now = elapsed
            .as_secs()
            .saturating_mul(1_000)
            .saturating_add(u64::from(elapsed.subsec_millis()));
        if now < self.next.load(Ordering::SeqCst) {
            return;
        }
        self.next.store(now.saturating_add(PAUSE), Ordering::SeqCst);
        let begun = self.begun.load(Ordering::SeqCst);
        let of = self.of.load(Ordering::SeqCst);
        let _ = eprint!(self.rt; "\r{begun} of {of} commands");
    }

    /// Takes the progress from the terminal, where some was told.
    fn clear(&self) {
        if self.next.load(Ordering::SeqCst) > LONG {
            let _ = self.rt.eprint("\r\x1b[K");
        }
    }
}

impl<R: AllocGlobal + Eprint + Clock + Sync> Gate for Watch<'_, R> {
    fn at<W: Wait>(&self, _rt: &W, lane: u8, _command: u32) {
        let Some(start) = self.start else {
            return;
        };
        self.begun.fetch_add(1, Ordering::SeqCst);
        if lane == 0 {
            self.tell(start);
        }
    }

    fn bad_line(&self, line: &BadLine<'_>) {
        if let Ok(text) = format!(in self.rt.alloc(); "{line}") {
            let _ = self.bad_line.try_set(text);
        }
    }

    fn done(&self, count: usize, of: usize) {
        let Some(start) = self.start else {
            return;
        };
        self.begun.store(count as u64, Ordering::SeqCst);
        self.of.store(of as u64, Ordering::SeqCst);
        if count < of {
            self.tell(start);
        } else {
            self.clear();
        }
    }
}

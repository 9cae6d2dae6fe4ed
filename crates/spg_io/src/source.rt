ghost use Rattle.std.specs.Prelude.{◌≡◌, ◌<◌, ◌≤◌, ◌+◌, ℕ, List as Items, length, [], Some, OnOk, drop, take, min, ⊤};
ghost use Rattle.std.specs.declared.result.Result.{Result};
ghost use Rattle.std.specs.declared.option.Option.{Option};
ghost use Rattle.std.specs.Io.{ReadsAtMost};
ghost use Rattle.std.specs.Io.KnownBytes.{ReadConsumes};
ghost use Rattle.spg_base.specs.declared.memory.Failed.{Failed};
ghost use Rattle.spg_io.specs.Causes.{HasCause};
ghost use Rattle.spg_io.specs.Calls.{no_calls};
ghost use Rattle.spg_io.specs.Reads.{PlainRead, FaultyRead, InputRead};

use spg_base::{Bytes, Failed, List};
use std::io::Read;
use std::marker::Model;

/// Bytes that come in.
pub trait Source {
    /// The bytes that are left, where it tells them.
    ghost left: { Self → Option (Items ℕ) };

    /// How often a call failed. It never falls.
    ghost faults: { Self → ℕ };

    /// What else a form of source tells of a read: of the source before, the buffer after, the
    /// answer and the source after.
    ghost read_gives: { Self → Items ℕ → Result ℕ Failed → Self → Type 0 } = { λ _ _ _ _. ⊤ };

    /// Reads the next bytes into the front of the buffer, and says how many. None for a buffer
    /// with room is the end. The count of faults rises where the answer is `Failed`, and else stays.
    fn read(&mut self, buf: &mut [u8]) -> Result<usize, Failed>
        ensures bound { ReadsAtMost result buf.new }
        ensures bytes { ReadConsumes (left self.old) (left self.new) result buf.new }
        ensures cause { HasCause (faults self.old) (faults self.new) result }
        ensures answered { OnOk result (faults self.new ≡ faults self.old) }
        ensures gives { read_gives self.old buf.new result self.new };
}

/// Copies as many bytes of `from` as fit, at most `most`, and says how many.
fn copy_some(from: &[u8], most: usize, buf: &mut [u8]) -> usize
    requires { 0 < most }
    ensures count { result ≡ min (min (length from.now) (length buf.new)) most }
    ensures bytes { take result buf.new ≡ take result from.now }
    ensures end { result ≡ 0 → 0 < length buf.new → from.now ≡ [] }
{
    let count = from.len().min(buf.len()).min(most);
    buf[..count].copy_from_slice(&from[..count]);
    count
}

/// Bytes in memory. No call fails.
#[derive(Drop)]
pub struct PlainSource {
    bytes: Bytes,
    at: usize,
    most: usize,
}

impl Model for PlainSource {
    ghost use Rattle.std.specs.Prelude.{drop, length, ◌<◌, ◌≤◌};
    ghost use Rattle.spg_io.specs.Reads.{Stock};

    ghost Value = { Stock };

    ghost view = { λ s. record { left = drop s.at s.bytes; most = s.most } };

    ghost invariant = { λ s. (0 < s.most) × (s.at ≤ length s.bytes) };
}

impl PlainSource {
    /// These bytes, at most `most` of them in one read, which is 1 or more.
    pub fn new(bytes: Bytes, most: usize) -> PlainSource
        requires { 0 < most }
        ensures left { result.left ≡ bytes }
        ensures most { result.most ≡ most }
    {
        PlainSource { bytes, at: 0, most }
    }
}

impl Source for PlainSource {
    ghost left = { λ s. Some s.left };

    ghost faults = { λ _. 0 };

    ghost read_gives = { PlainRead };

    fn read(&mut self, buf: &mut [u8]) -> Result<usize, Failed> {
        let count = copy_some(&self.bytes.as_slice()[self.at..], self.most, buf);
        self.at += count;
        Ok(count)
    }
}

/// Bytes in memory. The calls with these numbers fail, counted from 1, and no other fails.
#[derive(Drop)]
pub struct FaultySource {
    bytes: Bytes,
    at: usize,
    most: usize,
    fails: List<u64>,
    calls: u64,
    faults: u64,
}

impl Model for FaultySource {
    ghost use Rattle.std.specs.Prelude.{drop, length, ◌<◌, ◌≤◌};
    ghost use Rattle.spg_io.specs.Reads.{FaultyStock};

    ghost Value = { FaultyStock };

    ghost view = { λ s. record {
      stock = record { left = drop s.at s.bytes; most = s.most };
      calls = record { fails = s.fails; made = s.calls; faults = s.faults };
    } };

    ghost invariant = { λ s. (0 < s.most) × (s.at ≤ length s.bytes) };
}

impl FaultySource {
    /// These bytes, at most `most` of them in one read, which is 1 or more.
    pub fn new(bytes: Bytes, most: usize, fails: List<u64>) -> FaultySource
        requires { 0 < most }
        ensures left { result.stock.left ≡ bytes }
        ensures most { result.stock.most ≡ most }
        ensures calls { result.calls ≡ no_calls fails }
    {
        FaultySource {
            bytes,
            at: 0,
            most,
            fails,
            calls: 0,
            faults: 0,
        }
    }
}

impl Source for FaultySource {
    ghost left = { λ s. Some s.stock.left };

    ghost faults = { λ s. s.calls.faults };

    ghost read_gives = { FaultyRead };

    fn read(&mut self, buf: &mut [u8]) -> Result<usize, Failed> {
        self.calls = self.calls.saturating_add(1);
        if self.fails.as_slice().contains(&self.calls) {
            self.faults = self.faults.saturating_add(1);
            return Err(Failed);
        }
        let count = copy_some(&self.bytes.as_slice()[self.at..], self.most, buf);
        self.at += count;
        Ok(count)
    }
}

/// A reader of std, as standard input. Each refusal is a fault.
#[derive(Drop)]
pub struct InputSource<R: Read + Drop> {
    reader: R,
    faults: u64,
}

impl<R: Read + Drop> InputSource<R> {
    /// What the reader gives, with no fault yet.
    pub fn new(reader: R) -> InputSource<R>
        ensures reader { result.reader ≡ reader }
        ensures faults { result.faults ≡ 0 }
    {
        InputSource { reader, faults: 0 }
    }
}

impl<R: Read + Drop> Source for InputSource<R> {
    ghost left = { λ s. R.remaining s.reader };

    ghost faults = { λ s. s.faults };

    ghost read_gives = { λ old _ result new. InputRead old.faults result new.faults };

    fn read(&mut self, buf: &mut [u8]) -> Result<usize, Failed> {
        match self.reader.read(buf) {
            Ok(count) => Ok(count),
            Err(_) => {
                self.faults = self.faults.saturating_add(1);
                Err(Failed)
            }
        }
    }
}

ghost use Rattle.std.specs.Prelude.{◌≡◌, ◌<◌, ◌≤◌, ℕ, List as Items, length, [], Some, IfOk, OnOk, IsErrOf, ⊤};
ghost use Rattle.std.specs.declared.result.Result.{Result};
ghost use Rattle.std.specs.declared.option.Option.{Option};
ghost use Rattle.std.specs.Io.KnownBytes.{Keeps, WriteAppends};
ghost use Rattle.spg_io.specs.Causes.{HasCauseIfFailed};
ghost use Rattle.spg_io.specs.Calls.{no_calls};
ghost use Rattle.spg_io.specs.Writes.{PlainWrite, FaultyWrite, OutputWrite};
ghost use Rattle.spg_io.specs.Outputs.{taken_of, given_of, held_of};
ghost use Rattle.spg_io.specs.declared.sink.IoRefused.{IoRefused};
ghost use Rattle.spg_io.specs.declared.sink.IoRefused.TheVariants as refused;

use spg_base::{List, Memory};
use std::alloc::{AllocError, Global};
use std::io::{BufWriter, Write};
use std::marker::Model;

/// Why a call took nothing. The object is as it was.
#[derive(Clone, Copy, Debug, PartialEq, Eq, thiserror::Error)]
pub enum IoRefused {
    /// The device failed.
    #[error("the device failed")]
    Failed,
    /// There was no memory.
    #[error("out of memory")]
    Memory,
}

impl From<AllocError> for IoRefused {
    ghost from_gives = { λ _ e. e ≡ refused.Memory };

    fn from(_: AllocError) -> IoRefused {
        IoRefused::Memory
    }
}

impl From<Memory> for IoRefused {
    ghost from_gives = { λ _ e. e ≡ refused.Memory };

    fn from(_: Memory) -> IoRefused {
        IoRefused::Memory
    }
}

/// Where bytes go.
pub trait Sink {
    /// The bytes that it has taken, where it tells them.
    ghost contents: { Self → Option (Items ℕ) };

    /// How often a call failed. It never falls.
    ghost faults: { Self → ℕ };

    /// What else a form of sink tells of a write: of the sink before, the piece, the answer and
    /// the sink after.
    ghost write_gives: { Self → Items ℕ → Result ℕ IoRefused → Self → Type 0 } = { λ _ _ _ _. ⊤ };

    /// Takes the front of the piece, and says how many bytes: at least one where there is one.
    /// The count of faults rises where the answer is `Failed`, and else stays. After `Memory` the sink
    /// is as it was.
    fn write(&mut self, piece: &[u8]) -> Result<usize, IoRefused>
        ensures bound { IfOk result (λ n. n ≤ length piece.now) }
        ensures some { IfOk result (λ n. 0 < length piece.now → 0 < n) }
        ensures bytes { WriteAppends (contents self.old) (contents self.new) result piece.now }
        ensures cause { HasCauseIfFailed (faults self.old) (faults self.new) result }
        ensures answered { OnOk result (faults self.new ≡ faults self.old) }
        ensures memory { IsErrOf result IoRefused.Memory → self.new ≡ self.old }
        ensures gives { write_gives self.old piece.now result self.new };
}

/// Bytes in memory. No call fails.
#[derive(Drop)]
pub struct PlainSink {
    bytes: Vec<u8>,
}

impl Model for PlainSink {
    ghost use Rattle.std.specs.Prelude.{ℕ, List};

    ghost Value = { List ℕ };

    ghost view = { λ s. s.bytes.items };
}

impl PlainSink {
    /// No bytes taken.
    pub fn new(alloc: Global) -> PlainSink
        ensures { result ≡ [] }
    {
        PlainSink {
            bytes: Vec::new(alloc),
        }
    }

    /// The bytes that it has taken.
    pub fn taken(&self) -> &[u8]
        ensures { result.now ≡ self.now }
    {
        &self.bytes
    }
}

impl Sink for PlainSink {
    ghost contents = { λ s. Some s };

    ghost faults = { λ _. 0 };

    ghost write_gives = { PlainWrite };

    fn write(&mut self, piece: &[u8]) -> Result<usize, IoRefused> {
        match self.bytes.extend_from_slice(piece) {
            Ok(()) => Ok(piece.len()),
            Err(_) => Err(IoRefused::Memory),
        }
    }
}

/// Bytes in memory. The calls with these numbers fail, counted from 1, and no other fails. A call
/// that finds no memory is not counted.
#[derive(Drop)]
pub struct FaultySink {
    bytes: Vec<u8>,
    fails: List<u64>,
    calls: u64,
    faults: u64,
}

impl Model for FaultySink {
    ghost use Rattle.spg_io.specs.Writes.{FaultyStore};

    ghost Value = { FaultyStore };

    ghost view = { λ s. record {
      bytes = s.bytes.items;
      calls = record { fails = s.fails; made = s.calls; faults = s.faults };
    } };
}

impl FaultySink {
    /// No bytes taken and no call made.
    pub fn new(alloc: Global, fails: List<u64>) -> FaultySink
        ensures taken { result.bytes ≡ [] }
        ensures calls { result.calls ≡ no_calls fails }
    {
        FaultySink {
            bytes: Vec::new(alloc),
            fails,
            calls: 0,
            faults: 0,
        }
    }

    /// The bytes that it has taken.
    pub fn taken(&self) -> &[u8]
        ensures { result.now ≡ self.now.bytes }
    {
        &self.bytes
    }
}

impl Sink for FaultySink {
    ghost contents = { λ s. Some s.bytes };

    ghost faults = { λ s. s.calls.faults };

    ghost write_gives = { FaultyWrite };

    fn write(&mut self, piece: &[u8]) -> Result<usize, IoRefused> {
        let call = self.calls.saturating_add(1);
        if self.fails.as_slice().contains(&call) {
            self.calls = call;
            self.faults = self.faults.saturating_add(1);
            return Err(IoRefused::Failed);
        }
        match self.bytes.extend_from_slice(piece) {
            Ok(()) => {
                self.calls = call;
                Ok(piece.len())
            }
            Err(_) => Err(IoRefused::Memory),
        }
    }
}

/// A writer of std, as standard output, behind a buffer that holds bytes back. Each refusal is a fault, and
/// so is a write that takes nothing of a piece that is not empty. No call answers `Memory`.
#[derive(Drop)]
pub struct OutputSink<W: Write + Drop> {
    writer: BufWriter<W, Global>,
    faults: u64,
}

impl<W: Write + Drop> OutputSink<W> {
    /// What the writer takes, with no fault yet.
    pub fn new(writer: BufWriter<W, Global>) -> OutputSink<W>
        ensures writer { result.writer ≡ writer }
        ensures faults { result.faults ≡ 0 }
    {
        OutputSink { writer, faults: 0 }
    }

    /// Hands on what is held back. After `Ok` the writer below has taken all that the sink took. `Failed`
    /// is a fault; no call answers `Memory`.
    pub fn finish(&mut self) -> Result<(), IoRefused>
        ensures bytes { Keeps (taken_of W.contents self.old) (taken_of W.contents self.new) }
        ensures given { OnOk result (Keeps (taken_of W.contents self.old) (given_of W.contents self.new)) }
        ensures none_held { OnOk result (held_of self.new ≡ []) }
        ensures cause { HasCauseIfFailed self.old.faults self.new.faults result }
        ensures memory { IsErrOf result IoRefused.Memory → ⊥ }
        ensures ok { OnOk result (self.new.faults ≡ self.old.faults) }
    {
        if self.writer.flush().is_ok() {
            return Ok(());
        }
        self.faults = self.faults.saturating_add(1);
        Err(IoRefused::Failed)
    }
}

impl<W: Write + Drop> Sink for OutputSink<W> {
    ghost contents = { taken_of W.contents };

    ghost faults = { λ s. s.faults };

    ghost write_gives = { λ old _ result new. OutputWrite old.faults result new.faults };

    fn write(&mut self, piece: &[u8]) -> Result<usize, IoRefused> {
        match self.writer.write(piece) {
            Ok(count) if count > 0 || piece.is_empty() => Ok(count),
            _ => {
                self.faults = self.faults.saturating_add(1);
                Err(IoRefused::Failed)
            }
        }
    }
}

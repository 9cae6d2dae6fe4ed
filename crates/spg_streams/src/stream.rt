ghost use Rattle.std.specs.Prelude.{◌≡◌, ◌<◌, ◌≤◌, IfOk, OnOk, OnErr, IsErrOf, length};
ghost use Rattle.std.specs.Io.KnownBytes.{Appends};
ghost use Rattle.spg_io.specs.Causes.{Rose, HasCauseIfFailed};
ghost use Rattle.spg_streams.specs.Io.{longest_script, WroteSome, ReadWhole, ReadMore};
ghost use Rattle.spg_streams.specs.declared.stream.ReadRefused.TheVariants as refused;

use spg_base::Failed;
use spg_io::{IoRefused, Sink, Source};
use std::alloc::{AllocError, Global};

/// The greatest length of a script.
const LONGEST: usize = 67_108_864;

/// How many bytes are asked for at once.
const PIECE: usize = 65_536;

/// Why a source was not read to its end.
#[derive(Clone, Copy, Debug, PartialEq, Eq, thiserror::Error)]
pub enum ReadRefused {
    /// The source failed.
    #[error("the device failed")]
    Failed,
    /// There are more bytes than a script may have.
    #[error("the script is too long")]
    TooLong,
    /// There was no memory.
    #[error("out of memory")]
    Memory,
}

impl From<AllocError> for ReadRefused {
    ghost from_gives = { λ _ e. e ≡ refused.Memory };

    fn from(_: AllocError) -> ReadRefused {
        ReadRefused::Memory
    }
}

impl From<Failed> for ReadRefused {
    ghost from_gives = { λ _ e. e ≡ refused.Failed };

    fn from(_: Failed) -> ReadRefused {
        ReadRefused::Failed
    }
}

/// All the bytes of a source, where there are not too many. No read failed then.
pub fn read_all<S: Source>(alloc: Global, source: &mut S) -> Result<Vec<u8>, ReadRefused>
    ensures whole { IfOk result (λ bytes. ReadWhole (S.left source.old) (S.left source.new) bytes.items) }
    ensures short { IfOk result (λ bytes. length bytes.items ≤ longest_script) }
    ensures long { IsErrOf result ReadRefused.TooLong → ReadMore (S.left source.old) (S.left source.new) longest_script }
    ensures later { S.faults source.old ≤ S.faults source.new }
    ensures failed { IsErrOf result ReadRefused.Failed → Rose (S.faults source.old) (S.faults source.new) }
    ensures answered { OnOk result (S.faults source.new ≡ S.faults source.old) }
    ensures memory { IsErrOf result ReadRefused.Memory → S.faults source.new ≡ S.faults source.old }
{
    let mut bytes = Vec::new(alloc);
    let mut piece = [0u8; PIECE];
    while bytes.len() <= LONGEST {
        let room = (LONGEST + 1 - bytes.len()).min(PIECE);
        let count = source.read(&mut piece[..room])?;
        if count == 0 {
            return Ok(bytes);
        }
        bytes.extend_from_slice(&piece[..count])?;
    }
    Err(ReadRefused::TooLong)
}

/// Writes all of a text, offering again what was not taken. No write failed then.
pub fn write_all<K: Sink>(sink: &mut K, text: &[u8]) -> Result<(), IoRefused>
    ensures ok { OnOk result (Appends (K.contents sink.old) (K.contents sink.new) text.now) }
    ensures err { OnErr result (WroteSome (K.contents sink.old) (K.contents sink.new) text.now) }
    ensures cause { HasCauseIfFailed (K.faults sink.old) (K.faults sink.new) result }
    ensures answered { OnOk result (K.faults sink.new ≡ K.faults sink.old) }
{
    let mut rest = text;
    while !rest.is_empty() {
        let count = sink.write(rest)?;
        rest = &rest[count..];
    }
    Ok(())
}

ghost use Rattle.std.specs.Prelude.{◌≡◌, ◌≤◌, ◌<◌, ◌-◌, ◌^◌, true, IfOk, IfErr, OnOk, length};
ghost use Rattle.std.specs.List.{AllByRecursion};
ghost use Rattle.spg_radix.specs.Texts.{is_bytes};
ghost use Rattle.spg_script.specs.Script.{IsWritten, IsLaneCommand};
ghost use Rattle.spg_script.specs.Sequences.{script_of, IsSequence, IsSequenceCause};
ghost use Rattle.spg_app.specs.Standbys.{GaveSequence, IsSequenceRefusal, sunk, EndsMirrored, IsStandbyRun};

use crate::by_class::mirror_by_class;
use crate::classes::Ended;
use crate::end_state::EndState;
use crate::session::status_after;
use spg_histories::Status;
use spg_io::{Sink, Source};
use spg_mirror::perform_on;
use spg_perform::Gate;
use spg_script::{BadLine, ScriptRefused, Sequence, parse_sequence};
use spg_streams::{ReadRefused, read_all, write_text};
use spg_words::StandbyLine;
use std::alloc::Global;

/// The commands of bytes that were read. Each of them is below 256.
fn sequence_of(alloc: Global, bytes: &[u8]) -> Result<Sequence, ScriptRefused>
    requires { length bytes.now < 2 ^ 32 - 1 }
    ensures bytes { is_bytes bytes.now ≡ true }
    ensures found { IfOk result (λ sequence. IsSequence bytes.now sequence) }
    ensures written { IfOk result (λ sequence. IsWritten (script_of sequence)) }
    ensures bad { IfErr result (λ why. IsSequenceCause bytes.now why) }
{
    parse_sequence(alloc, bytes)
}

/// The commands of a source, which stand outside lanes, or the answer where there are none. The gate is told of a bad line.
fn read_sequence<S: Source, G: Gate>(
    alloc: Global,
    source: &mut S,
    gate: &G,
) -> Result<Sequence, Status>
    ensures sequence { IfOk result (λ sequence. GaveSequence (S.left source.old) (S.left source.new) sequence) }
    ensures written { IfOk result (λ sequence. IsWritten (script_of sequence)) }
    ensures unfailed { OnOk result (S.faults source.new ≡ S.faults source.old) }
    ensures status { IfErr result (λ status. IsSequenceRefusal (S.left source.old) (S.left source.new) (S.faults source.old) (S.faults source.new) status) }
{
    let bytes = match read_all(alloc, source) {
        Ok(bytes) => bytes,
        Err(ReadRefused::Failed) => return Err(Status::ReadFault),
        Err(ReadRefused::TooLong) => return Err(Status::BadScript(0)),
        Err(ReadRefused::Memory) => return Err(Status::Memory),
    };
    match sequence_of(alloc, &bytes) {
        Ok(sequence) => Ok(sequence),
        Err(ScriptRefused::BadLine(line)) => {
            gate.bad_line(&BadLine::of_standby(&bytes, line));
            Err(Status::BadScript(line))
        }
        Err(ScriptRefused::Memory) => Err(Status::Memory),
    }
}

/// Does the commands on a new index with a standby, then writes the text of the run. The state of the
/// primary is handed back; there is none where memory was wanting before the first command.
pub(crate) fn run_mirrored<O: Ended, K: Sink, G: Gate>(
    alloc: Global,
    class: O,
    line: StandbyLine,
    sequence: &Sequence,
    out: &mut K,
    gate: &G,
) -> (Status, Option<EndState>)
    requires of_class { sequence.now.class ≡ O.line }
    requires written { IsWritten (script_of sequence.now) }
    requires lane { AllByRecursion IsLaneCommand sequence.now.commands }
    requires from { 4 ≤ line.limit }
    requires to { line.limit ≤ 131072 }
    ensures { EndsMirrored line.limit line.lag sequence.now (sunk (K.contents out.old) (K.contents out.new) (K.faults out.old) (K.faults out.new)) result.0 result.1 }
{
    let done = perform_on(alloc, class, line.limit, line.lag, sequence, gate);
    let Ok((state, records)) = done else {
        return (Status::Memory, None);
    };
    let events = state.journal().as_slice();
    let written = write_text(alloc, state.class(), events, records.as_slice(), out);
    let status = status_after(written, records.as_slice());
    (status, O::ended(&mut Some(state)))
}

/// Reads commands that stand outside lanes, does them on an index whose searches a standby answers, and
/// writes the text of the run.
pub fn run_standby<S: Source, K: Sink, G: Gate>(
    alloc: Global,
    line: StandbyLine,
    source: &mut S,
    out: &mut K,
    gate: &G,
) -> (Status, Option<EndState>)
    requires from { 4 ≤ line.limit }
    requires to { line.limit ≤ 131072 }
    ensures { IsStandbyRun line.lag line.limit (S.left source.old) (S.left source.new) (S.faults source.old) (S.faults source.new)
        (sunk (K.contents out.old) (K.contents out.new) (K.faults out.old) (K.faults out.new)) result.0 result.1 }
{
    let sequence = match read_sequence(alloc, source, gate) {
        Ok(sequence) => sequence,
        Err(status) => return (status, None),
    };
    mirror_by_class(alloc, line, &sequence, out, gate)
}

ghost use Rattle.std.specs.Prelude.{◌≡◌, ◌≤◌};
ghost use Rattle.spg_histories.specs.Ending.{any_outcome, is_fault, is_memory, status_after};
ghost use Rattle.spg_words.specs.Reading.{word_in};
ghost use Rattle.spg_app.specs.Ending.{writing_of, outlets, Ends};

use crate::beginning::{begin, status_of};
use crate::classes::Ended;
use crate::end_state::EndState;
use spg_histories::Status;
use spg_io::{Images, IoRefused, Sink};
use spg_perform::{Gate, perform};
use spg_report::{Outcome, Record};
use spg_script::Script;
use spg_streams::write_text;
use spg_words::RunLine;
use std::sync::Wait;
use std::thread::Threads;

fn is_fault(outcome: &Outcome) -> bool
    ensures { result ≡ is_fault outcome.now }
{
    matches!(outcome, Outcome::ImageFault)
}

fn is_memory(outcome: &Outcome) -> bool
    ensures { result ≡ is_memory outcome.now }
{
    matches!(outcome, Outcome::Memory)
}

/// Whether the images failed in a command.
#[tactic(auto, using(crate::proofs::Outcomes::any_from))]
fn any_fault(records: &[Record]) -> bool
    ensures { result ≡ any_outcome is_fault records.now }
{
    for one in records {
        if is_fault(&one.outcome) {
            return true;
        }
    }
    false
}

/// Whether a command had no memory.
#[tactic(auto, using(crate::proofs::Outcomes::any_from))]
fn any_memory(records: &[Record]) -> bool
    ensures { result ≡ any_outcome is_memory records.now }
{
    for one in records {
        if is_memory(&one.outcome) {
            return true;
        }
    }
    false
}

/// The status of a run whose text was written so.
pub fn status_after(written: Result<(), IoRefused>, records: &[Record]) -> Status
    ensures { result ≡ status_after (writing_of written) records.now }
{
    match written {
        Err(IoRefused::Failed) => Status::WriteFault,
        Err(IoRefused::Memory) => Status::Memory,
        Ok(()) => if any_fault(records) {
            Status::ImageFault
        } else if any_memory(records) {
            Status::Memory
        } else {
            Status::Done
        },
    }
}

/// Does the commands of a script on a new state or on that of an image, then writes the text of the run.
/// The state after the last command is handed back; there is none where the image was refused or memory
/// was wanting before the first one.
pub(crate) fn run_commands<
    R: AllocGlobal + Threads + Wait + Sync,
    O: Ended,
    K: Sink,
    M: Images,
    G: Gate,
>(
    rt: &R,
    class: O,
    line: RunLine<'_>,
    script: &Script,
    out: &mut K,
    images: &mut M,
    gate: &G,
) -> (Status, Option<EndState>)
    requires of_class { script.now.class ≡ O.line }
    requires from { 4 ≤ line.limit }
    requires to { line.limit ≤ 131072 }
    ensures { Ends line.entry.limit (word_in line.entry.from) script.now
        (outlets (K.contents out.old) (K.contents out.new) (K.faults out.old) (K.faults out.new)
        (M.held images.old) (M.held images.new) (M.faults images.old) (M.faults images.new)) result.0 result.1 }
{
    let alloc = rt.alloc();
    let state = match begin(alloc, class, line, images) {
        Ok(state) => state,
        Err(refused) => return (status_of(refused), None),
    };
    match perform(rt, state, script, images, gate) {
        Ok((state, records)) => {
            let events = state.journal().as_slice();
            let written = write_text(alloc, state.class(), events, records.as_slice(), out);
            let status = status_after(written, records.as_slice());
            (status, O::ended(&mut Some(state)))
        }
        Err(_) => (Status::Memory, None),
    }
}

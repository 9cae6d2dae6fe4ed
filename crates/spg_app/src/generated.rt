ghost use Rattle.std.specs.Prelude.{◌≡◌};
ghost use Rattle.spg_app.specs.Ending.{outlets};
ghost use Rattle.spg_words.specs.Lines.{IsLoad};
ghost use Rattle.spg_app.specs.Loads.{EndsLoad, IsGen};

use crate::by_class::load_by_class;
use crate::classes::Ended;
use crate::end_state::EndState;
use crate::session::status_after;
use spg_core::State;
use spg_histories::Status;
use spg_io::{Images, Sink};
use spg_perform::{Gate, perform};
use spg_script::{Script, generate};
use spg_streams::write_summary;
use spg_words::{Load, USUAL_PAGES};
use std::sync::Wait;
use std::thread::Threads;

/// Does the commands of a generated script on a new state of the usual limit, then writes the summary
/// of the run. There is no state where memory was wanting before the first command.
pub(crate) fn run_load<
    R: AllocGlobal + Threads + Wait + Sync,
    O: Ended,
    K: Sink,
    M: Images,
    G: Gate,
>(
    rt: &R,
    class: O,
    script: &Script,
    out: &mut K,
    images: &mut M,
    gate: &G,
) -> (Status, Option<EndState>)
    requires { script.now.class ≡ O.line }
    ensures { EndsLoad script.now
        (outlets (K.contents out.old) (K.contents out.new) (K.faults out.old) (K.faults out.new)
        (M.held images.old) (M.held images.new) (M.faults images.old) (M.faults images.new)) result.0 result.1 }
{
    let alloc = rt.alloc();
    let Ok(state) = State::new(alloc, class, USUAL_PAGES) else {
        return (Status::Memory, None);
    };
    match perform(rt, state, script, images, gate) {
        Ok((state, records)) => {
            let events = state.journal().as_slice();
            let written = write_summary(alloc, events, records.as_slice(), out);
            let status = status_after(written, records.as_slice());
            (status, O::ended(&mut Some(state)))
        }
        Err(_) => (Status::Memory, None),
    }
}

/// Makes the script of a load, does its commands and writes the summary of the run.
pub fn run_generated<R: AllocGlobal + Threads + Wait + Sync, K: Sink, M: Images, G: Gate>(
    rt: &R,
    load: Load,
    out: &mut K,
    images: &mut M,
    gate: &G,
) -> (Status, Option<EndState>)
    requires { IsLoad load }
    ensures { IsGen load
        (outlets (K.contents out.old) (K.contents out.new) (K.faults out.old) (K.faults out.new)
        (M.held images.old) (M.held images.new) (M.faults images.old) (M.faults images.new)) result.0 result.1 }
{
    let Ok(script) = generate(
        rt.alloc(),
        load.count,
        load.seed,
        load.lanes as u8,
        load.class,
    ) else {
        return (Status::Memory, None);
    };
    load_by_class(rt, &script, out, images, gate)
}

// Each piece of work that is done with the class that a line names.
ghost use Rattle.std.specs.Prelude.{◌≡◌, ◌≤◌, ◌<◌};
ghost use Rattle.std.specs.List.{AllByRecursion};
ghost use Rattle.spg_create.specs.Creates.{Creates};
ghost use Rattle.spg_script.specs.Inserts.{script_of as script_of_inserts};
ghost use Rattle.spg_script.specs.Script.{IsWritten, IsLaneCommand};
ghost use Rattle.spg_script.specs.Sequences.{script_of};
ghost use Rattle.spg_words.specs.Reading.{word_in};
ghost use Rattle.spg_app.specs.Classes.{class_at};
ghost use Rattle.spg_app.specs.Ending.{outlets, Ends};
ghost use Rattle.spg_app.specs.Loads.{EndsLoad};
ghost use Rattle.spg_app.specs.Standbys.{sunk, EndsMirrored};

use crate::build::create_of;
use crate::end_state::EndState;
use crate::generated::run_load;
use crate::session::run_commands;
use crate::standby::run_mirrored;
use spg_create::{CreateRefused, Created};
use spg_histories::Status;
use spg_io::{Images, Sink};
use spg_kd::Kd;
use spg_opclass::With;
use spg_perform::Gate;
use spg_quad::Quad;
use spg_radix::Radix;
use spg_range::Ranges;
use spg_script::{ClassLine, Inserts, Script, Sequence};
use spg_words::{RunLine, StandbyLine};
use std::alloc::Global;
use std::sync::Wait;
use std::thread::Threads;

/// Does a piece of work with the class that a line names.
macro_rules! by_class {
    ($line:expr, $class:ident => $work:expr) => {
        match $line {
            ClassLine::Quad => {
                let $class = Quad;
                $work
            }
            ClassLine::Kd => {
                let $class = Kd;
                $work
            }
            ClassLine::Radix => {
                let $class = Radix;
                $work
            }
            ClassLine::QuadValue => {
                let $class = With { inner: Quad };
                $work
            }
            ClassLine::KdValue => {
                let $class = With { inner: Kd };
                $work
            }
            ClassLine::RadixValue => {
                let $class = With { inner: Radix };
                $work
            }
            ClassLine::Range => {
                let $class = Ranges;
                $work
            }
        }
    };
}

/// Does the commands of a script, as `run_commands` does.
pub(crate) fn run_by_class<R: AllocGlobal + Threads + Wait + Sync, K: Sink, M: Images, G: Gate>(
    rt: &R,
    line: RunLine<'_>,
    script: &Script,
    out: &mut K,
    images: &mut M,
    gate: &G,
) -> (Status, Option<EndState>)
    requires from { 4 ≤ line.limit }
    requires to { line.limit ≤ 131072 }
    ensures { Ends line.entry.limit (word_in line.entry.from) script.now
        (outlets (K.contents out.old) (K.contents out.new) (K.faults out.old) (K.faults out.new)
        (M.held images.old) (M.held images.new) (M.faults images.old) (M.faults images.new)) result.0 result.1 }
{
    by_class!(script.line(), class => run_commands(rt, class, line, script, out, images, gate))
}

/// Does the commands of a generated script, as `run_load` does.
pub(crate) fn load_by_class<R: AllocGlobal + Threads + Wait + Sync, K: Sink, M: Images, G: Gate>(
    rt: &R,
    script: &Script,
    out: &mut K,
    images: &mut M,
    gate: &G,
) -> (Status, Option<EndState>)
    ensures { EndsLoad script.now
        (outlets (K.contents out.old) (K.contents out.new) (K.faults out.old) (K.faults out.new)
        (M.held images.old) (M.held images.new) (M.faults images.old) (M.faults images.new)) result.0 result.1 }
{
    by_class!(script.line(), class => run_load(rt, class, script, out, images, gate))
}

/// Does commands on an index with a standby, as `run_mirrored` does.
pub(crate) fn mirror_by_class<K: Sink, G: Gate>(
    alloc: Global,
    line: StandbyLine,
    sequence: &Sequence,
    out: &mut K,
    gate: &G,
) -> (Status, Option<EndState>)
    requires written { IsWritten (script_of sequence.now) }
    requires lane { AllByRecursion IsLaneCommand sequence.now.commands }
    requires from { 4 ≤ line.limit }
    requires to { line.limit ≤ 131072 }
    ensures { EndsMirrored line.limit line.lag sequence.now (sunk (K.contents out.old) (K.contents out.new) (K.faults out.old) (K.faults out.new)) result.0 result.1 }
{
    by_class!(sequence.class, class => run_mirrored(alloc, class, line, sequence, out, gate))
}

/// Builds an index of inserts and saves it, as `create_of` does.
pub(crate) fn create_by_class<R: AllocGlobal + Threads + Sync, M: Images>(
    rt: &R,
    inserts: &Inserts,
    workers: u8,
    images: &mut M,
    name: &str,
) -> Result<Created, CreateRefused>
    requires some { 0 < workers }
    requires written { IsWritten (script_of_inserts inserts.now) }
    ensures { Creates (class_at inserts.now.class).meaning (class_at inserts.now.class).speech (class_at inserts.now.class).code inserts.now.rows name.now
        (M.held images.old) (M.held images.new) (M.faults images.old) (M.faults images.new) result }
{
    by_class!(inserts.class, class => create_of(rt, &class, inserts, workers, images, name))
}

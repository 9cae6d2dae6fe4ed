ghost use Rattle.std.specs.Prelude.{◌≡◌, ◌≤◌, ◌<◌, ◌-◌, ◌^◌, ◌⊎◌, ℕ, true, List, Option, Some, None, IfOk, IfErr, OnOk, length, map, string_bytes};
ghost use Rattle.spg_io.specs.Causes.{Rose};
ghost use Rattle.spg_clauses.specs.declared.reason.Fault.{Fault};
ghost use Rattle.spg_radix.specs.Texts.{is_bytes};
ghost use Rattle.spg_script.specs.Script.{IsScript};
ghost use Rattle.spg_script.specs.Refusal.{IsCause};
ghost use Rattle.spg_words.specs.Lines.{IsRunLine, IsCheckLine, IsLoadLine, IsBuildLine, IsStandbyLine};
ghost use Rattle.spg_words.specs.Reading.{word_in};
ghost use Rattle.spg_words.specs.declared.load.Load.{Load};
ghost use Rattle.spg_app.specs.Ending.{outlets};
ghost use Rattle.spg_app.specs.Builds.{HoldsInserts, HoldsNoInserts};
ghost use Rattle.spg_app.specs.Standbys.{HoldsSequence, HoldsNoSequence};
ghost use Rattle.spg_app.specs.Headline.{GaveScript, IsRefusal, IsRun, IsAnswer, HoldsScript, HoldsNoScript, HoldsImageFor, HoldsNoImageFor, HoldsImage, HoldsNoImage, NoFault, streams};

use crate::build::build_image;
use crate::by_class::run_by_class;
use crate::check::check_image;
use crate::end_state::EndState;
use crate::generated::run_generated;
use crate::standby::run_standby;
use spg_histories::Status;
use spg_io::{Images, Sink, Source};
use spg_perform::Gate;
use spg_script::{BadLine, Script, ScriptRefused, parse};
use spg_streams::{ReadRefused, read_all};
use spg_words::{RunLine, build_of, check_of, load_of, run_of, standby_of};
use std::alloc::Global;
use std::sync::Wait;
use std::thread::Threads;

/// The script of bytes that were read. Each of them is below 256.
fn script_of(alloc: Global, bytes: &[u8]) -> Result<Script, ScriptRefused>
    requires { length bytes.now < 2 ^ 32 - 1 }
    ensures bytes { is_bytes bytes.now ≡ true }
    ensures found { IfOk result (λ script. IsScript bytes.now script) }
    ensures bad { IfErr result (λ why. IsCause bytes.now why) }
{
    parse(alloc, bytes)
}

/// The script of a source, or the answer where there is none. The gate is told of a bad line.
fn read_script<S: Source, G: Gate>(
    alloc: Global,
    source: &mut S,
    gate: &G,
) -> Result<Script, Status>
    ensures script { IfOk result (λ script. GaveScript (S.left source.old) (S.left source.new) script) }
    ensures unfailed { OnOk result (S.faults source.new ≡ S.faults source.old) }
    ensures status { IfErr result (λ status. IsRefusal (S.left source.old) (S.left source.new) (S.faults source.old) (S.faults source.new) status) }
{
    let bytes = match read_all(alloc, source) {
        Ok(bytes) => bytes,
        Err(ReadRefused::Failed) => return Err(Status::ReadFault),
        Err(ReadRefused::TooLong) => return Err(Status::BadScript(0)),
        Err(ReadRefused::Memory) => return Err(Status::Memory),
    };
    match script_of(alloc, &bytes) {
        Ok(script) => Ok(script),
        Err(ScriptRefused::BadLine(line)) => {
            gate.bad_line(&BadLine::of(&bytes, line));
            Err(Status::BadScript(line))
        }
        Err(ScriptRefused::Memory) => Err(Status::Memory),
    }
}

/// Reads a script, does its commands and writes the text of the run.
fn run_script<R: AllocGlobal + Threads + Wait + Sync, S: Source, K: Sink, M: Images, G: Gate>(
    rt: &R,
    line: RunLine<'_>,
    source: &mut S,
    out: &mut K,
    images: &mut M,
    gate: &G,
) -> (Status, Option<EndState>)
    requires from { 4 ≤ line.limit }
    requires to { line.limit ≤ 131072 }
    ensures { IsRun line.entry.limit (word_in line.entry.from) (streams (S.left source.old) (S.left source.new) (S.faults source.old) (S.faults source.new))
        (outlets (K.contents out.old) (K.contents out.new) (K.faults out.old) (K.faults out.new)
        (M.held images.old) (M.held images.new) (M.faults images.old) (M.faults images.new)) result.0 result.1 }
{
    let script = match read_script(rt.alloc(), source, gate) {
        Ok(script) => script,
        Err(status) => return (status, None),
    };
    run_by_class(rt, line, &script, out, images, gate)
}

/// The program: does what the words ask for (docs/FORMAT.md, Words and exit status), from the source, to
/// the sink and with the images. Each lane asks the gate before each of its commands. `Usage` comes
/// exactly where they ask for nothing; `ReadFault` only where the source failed; `BadScript(n)` exactly
/// where line `n`, counted from 1, is the first at which no script that the words take can go on, 0 where
/// there are more than 67,108,864 bytes; `BadImage` exactly where the image fails a clause, with the first
/// of them. Nothing is written then. Once the commands have begun the state after the last one is handed
/// back, and the status is the first that applies: `WriteFault` where the sink failed, `Memory` where there
/// was none for writing, `ImageFault` and `Memory` where a record says so, else `Done`.
pub fn run<R: AllocGlobal + Threads + Wait + Sync, S: Source, K: Sink, M: Images, G: Gate>(
    rt: &R,
    words: &[String],
    script: &mut S,
    out: &mut K,
    images: &mut M,
    gate: &G,
) -> (Status, Option<EndState>)
    // Each answer, with its cause.
    ensures answer { IsAnswer (map string_bytes words.now) (streams (S.left script.old) (S.left script.new) (S.faults script.old) (S.faults script.new))
        (outlets (K.contents out.old) (K.contents out.new) (K.faults out.old) (K.faults out.new)
        (M.held images.old) (M.held images.new) (M.faults images.old) (M.faults images.new)) result.0 result.1 }

    // A script is run, where no call fails, on an image too that fails no clause.
    ensures complete { (limit : ℕ) → (from : Option (List ℕ)) → IsRunLine limit from (map string_bytes words.now)
        → HoldsScript (S.left script.old) (HoldsImageFor limit from (M.held images.old))
        → NoFault (streams (S.left script.old) (S.left script.new) (S.faults script.old) (S.faults script.new))
        (outlets (K.contents out.old) (K.contents out.new) (K.faults out.old) (K.faults out.new)
        (M.held images.old) (M.held images.new) (M.faults images.old) (M.faults images.new))
        → (result.0 ≡ Status.Done) ⊎ (result.0 ≡ Status.Memory) }

    // What is no script is refused with its first bad line, where no read fails.
    ensures no_script { (limit : ℕ) → (from : Option (List ℕ)) → IsRunLine limit from (map string_bytes words.now) → (n : ℕ) → HoldsNoScript (S.left script.old) n
        → ¬ Rose (S.faults script.old) (S.faults script.new)
        → (result.0 ≡ Status.BadScript n) ⊎ (result.0 ≡ Status.Memory) }

    // What is no image of the script's class is refused with the first clause that it fails, where no call fails.
    ensures no_image { (limit : ℕ) → (name : List ℕ) → IsRunLine limit (Some name) (map string_bytes words.now)
        → (fault : Fault) → HoldsScript (S.left script.old) (HoldsNoImageFor limit name (M.held images.old) fault)
        → NoFault (streams (S.left script.old) (S.left script.new) (S.faults script.old) (S.faults script.new))
        (outlets (K.contents out.old) (K.contents out.new) (K.faults out.old) (K.faults out.new)
        (M.held images.old) (M.held images.new) (M.faults images.old) (M.faults images.new))
        → (result.0 ≡ Status.BadImage fault.block fault.reason) ⊎ (result.0 ≡ Status.Memory) }

    // A generated script is run, where no call fails.
    ensures complete_load { (load : Load) → IsLoadLine load (map string_bytes words.now)
        → NoFault (streams (S.left script.old) (S.left script.new) (S.faults script.old) (S.faults script.new))
        (outlets (K.contents out.old) (K.contents out.new) (K.faults out.old) (K.faults out.new)
        (M.held images.old) (M.held images.new) (M.faults images.old) (M.faults images.new))
        → (result.0 ≡ Status.Done) ⊎ (result.0 ≡ Status.Memory) }

    // A check tells of an image that it is one, where no call fails.
    ensures complete_check { (name : List ℕ) → IsCheckLine name (map string_bytes words.now) → HoldsImage name (M.held images.old)
        → NoFault (streams (S.left script.old) (S.left script.new) (S.faults script.old) (S.faults script.new))
        (outlets (K.contents out.old) (K.contents out.new) (K.faults out.old) (K.faults out.new)
        (M.held images.old) (M.held images.new) (M.faults images.old) (M.faults images.new))
        → (result.0 ≡ Status.Done) ⊎ (result.0 ≡ Status.Memory) }

    // It refuses what is none with the first clause that it fails, where no call fails.
    ensures refused_check { (name : List ℕ) → IsCheckLine name (map string_bytes words.now)
        → (fault : Fault) → HoldsNoImage name (M.held images.old) fault
        → NoFault (streams (S.left script.old) (S.left script.new) (S.faults script.old) (S.faults script.new))
        (outlets (K.contents out.old) (K.contents out.new) (K.faults out.old) (K.faults out.new)
        (M.held images.old) (M.held images.new) (M.faults images.old) (M.faults images.new))
        → (result.0 ≡ Status.BadImage fault.block fault.reason) ⊎ (result.0 ≡ Status.Memory) }

    // Inserts are built into an index, or are too many for one, where no call fails.
    ensures complete_build { (name : List ℕ) → (workers : ℕ) → IsBuildLine name workers (map string_bytes words.now) → HoldsInserts (S.left script.old)
        → NoFault (streams (S.left script.old) (S.left script.new) (S.faults script.old) (S.faults script.new))
        (outlets (K.contents out.old) (K.contents out.new) (K.faults out.old) (K.faults out.new)
        (M.held images.old) (M.held images.new) (M.faults images.old) (M.faults images.new))
        → (result.0 ≡ Status.Done) ⊎ ((result.0 ≡ Status.Full) ⊎ (result.0 ≡ Status.Memory)) }

    // What is no script of inserts is refused with its first bad line, where no read fails.
    ensures no_inserts { (name : List ℕ) → (workers : ℕ) → IsBuildLine name workers (map string_bytes words.now) → (n : ℕ) → HoldsNoInserts (S.left script.old) n
        → ¬ Rose (S.faults script.old) (S.faults script.new)
        → (result.0 ≡ Status.BadScript n) ⊎ (result.0 ≡ Status.Memory) }

    // Commands are done beside a standby, where no call fails.
    ensures complete_standby { (lag : ℕ) → (limit : ℕ) → IsStandbyLine lag limit (map string_bytes words.now) → HoldsSequence (S.left script.old)
        → NoFault (streams (S.left script.old) (S.left script.new) (S.faults script.old) (S.faults script.new))
        (outlets (K.contents out.old) (K.contents out.new) (K.faults out.old) (K.faults out.new)
        (M.held images.old) (M.held images.new) (M.faults images.old) (M.faults images.new))
        → (result.0 ≡ Status.Done) ⊎ (result.0 ≡ Status.Memory) }

    // What is no script of such commands is refused with its first bad line, where no read fails.
    ensures no_sequence { (lag : ℕ) → (limit : ℕ) → IsStandbyLine lag limit (map string_bytes words.now) → (n : ℕ) → HoldsNoSequence (S.left script.old) n
        → ¬ Rose (S.faults script.old) (S.faults script.new)
        → (result.0 ≡ Status.BadScript n) ⊎ (result.0 ≡ Status.Memory) }
{
    if let Some(line) = run_of(words) {
        return run_script(rt, line, script, out, images, gate);
    }
    if let Some(name) = check_of(words) {
        return (check_image(rt.alloc(), name, out, images), None);
    }
    if let Some(line) = build_of(words) {
        return (build_image(rt, line, script, out, images, gate), None);
    }
    if let Some(line) = standby_of(words) {
        return run_standby(rt.alloc(), line, script, out, gate);
    }
    match load_of(words) {
        Some(load) => run_generated(rt, load, out, images, gate),
        None => (Status::Usage, None),
    }
}

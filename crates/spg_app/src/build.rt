ghost use Rattle.std.specs.Prelude.{◌≡◌, ◌≤◌, ◌<◌, ◌-◌, ◌^◌, true, IfOk, IfErr, OnOk, OnErr, length};
ghost use Rattle.std.specs.Io.KnownBytes.{Appends};
ghost use Rattle.spg_io.specs.Causes.{HasCauseIfFailed};
ghost use Rattle.spg_radix.specs.Texts.{is_bytes};
ghost use Rattle.spg_script.specs.Script.{IsWritten};
ghost use Rattle.spg_script.specs.Inserts.{script_of, IsInserts, IsInsertCause};
ghost use Rattle.spg_create.specs.Creates.{Creates};
ghost use Rattle.spg_app.specs.Classes.{class_at};
ghost use Rattle.spg_streams.specs.Io.{WroteSome};
ghost use Rattle.spg_app.specs.Ending.{outlets};
ghost use Rattle.spg_app.specs.Builds.{GaveInserts, IsInsertRefusal, built_text, unbuilt_status, IsBuildOf};

use crate::by_class::create_by_class;
use crate::classes::Ended;
use crate::session::status_after;
use spg_create::{CreateRefused, Created, create};
use spg_histories::Status;
use spg_io::{Images, IoRefused, Sink, Source};
use spg_perform::Gate;
use spg_report::Line;
use spg_script::{BadLine, Inserts, ScriptRefused, parse_inserts};
use spg_streams::{ReadRefused, read_all, write_line};
use spg_words::BuildLine;
use std::alloc::Global;
use std::thread::Threads;

/// The inserts of bytes that were read. Each of them is below 256.
fn inserts_of(alloc: Global, bytes: &[u8]) -> Result<Inserts, ScriptRefused>
    requires { length bytes.now < 2 ^ 32 - 1 }
    ensures bytes { is_bytes bytes.now ≡ true }
    ensures found { IfOk result (λ inserts. IsInserts bytes.now inserts) }
    ensures written { IfOk result (λ inserts. IsWritten (script_of inserts)) }
    ensures bad { IfErr result (λ why. IsInsertCause bytes.now why) }
{
    parse_inserts(alloc, bytes)
}

/// The inserts of a source, or the answer where there are none. The gate is told of a bad line.
fn read_inserts<S: Source, G: Gate>(
    alloc: Global,
    source: &mut S,
    gate: &G,
) -> Result<Inserts, Status>
    ensures inserts { IfOk result (λ inserts. GaveInserts (S.left source.old) (S.left source.new) inserts) }
    ensures written { IfOk result (λ inserts. IsWritten (script_of inserts)) }
    ensures unfailed { OnOk result (S.faults source.new ≡ S.faults source.old) }
    ensures status { IfErr result (λ status. IsInsertRefusal (S.left source.old) (S.left source.new) (S.faults source.old) (S.faults source.new) status) }
{
    let bytes = match read_all(alloc, source) {
        Ok(bytes) => bytes,
        Err(ReadRefused::Failed) => return Err(Status::ReadFault),
        Err(ReadRefused::TooLong) => return Err(Status::BadScript(0)),
        Err(ReadRefused::Memory) => return Err(Status::Memory),
    };
    match inserts_of(alloc, &bytes) {
        Ok(inserts) => Ok(inserts),
        Err(ScriptRefused::BadLine(line)) => {
            gate.bad_line(&BadLine::of_inserts(&bytes, line));
            Err(Status::BadScript(line))
        }
        Err(ScriptRefused::Memory) => Err(Status::Memory),
    }
}

/// Writes how large an index is that was built.
fn write_created<K: Sink>(alloc: Global, created: Created, out: &mut K) -> Result<(), IoRefused>
    ensures ok { OnOk result (Appends (K.contents out.old) (K.contents out.new) (built_text created)) }
    ensures err { OnErr result (WroteSome (K.contents out.old) (K.contents out.new) (built_text created)) }
    ensures cause { HasCauseIfFailed (K.faults out.old) (K.faults out.new) result }
{
    let mut line = Line::new(alloc);
    line.named(b"built ", created.entries)?;
    line.named(b" skipped ", created.skipped)?;
    line.named(b" pages ", u64::from(created.pages))?;
    write_line(&mut line, out)
}

/// The status of an index that was not created.
fn unbuilt_status(refused: CreateRefused) -> Status
    ensures { result ≡ unbuilt_status refused }
{
    match refused {
        CreateRefused::IndexFull => Status::Full,
        CreateRefused::ImageFault => Status::ImageFault,
        CreateRefused::Memory => Status::Memory,
    }
}

/// Builds an index of this class and of the rows of a script of inserts, as `create` does, and saves it
/// under a name.
pub(crate) fn create_of<R: AllocGlobal + Threads + Sync, O: Ended, M: Images>(
    rt: &R,
    class: &O,
    inserts: &Inserts,
    workers: u8,
    images: &mut M,
    name: &str,
) -> Result<Created, CreateRefused>
    requires of_class { inserts.now.class ≡ O.line }
    requires some { 0 < workers }
    requires written { IsWritten (script_of inserts.now) }
    ensures { Creates (class_at inserts.now.class).meaning (class_at inserts.now.class).speech (class_at inserts.now.class).code inserts.now.rows name.now
        (M.held images.old) (M.held images.new) (M.faults images.old) (M.faults images.new) result }
{
    create(rt, class, inserts.rows.as_slice(), workers, images, name)
}

/// Reads inserts, builds an index of them by so many workers, saves it under the name and writes how
/// large it is.
pub fn build_image<R: AllocGlobal + Threads + Sync, S: Source, K: Sink, M: Images, G: Gate>(
    rt: &R,
    line: BuildLine<'_>,
    source: &mut S,
    out: &mut K,
    images: &mut M,
    gate: &G,
) -> Status
    requires from { 1 ≤ line.workers }
    requires to { line.workers ≤ 16 }
    ensures { IsBuildOf line.entry.name.now (S.left source.old) (S.left source.new) (S.faults source.old) (S.faults source.new)
        (outlets (K.contents out.old) (K.contents out.new) (K.faults out.old) (K.faults out.new)
        (M.held images.old) (M.held images.new) (M.faults images.old) (M.faults images.new)) result }
{
    let alloc = rt.alloc();
    let inserts = match read_inserts(alloc, source, gate) {
        Ok(inserts) => inserts,
        Err(status) => return status,
    };
    match create_by_class(rt, &inserts, line.workers as u8, images, line.name) {
        Ok(created) => status_after(write_created(alloc, created, out), &[]),
        Err(refused) => unbuilt_status(refused),
    }
}

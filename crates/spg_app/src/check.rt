ghost use Rattle.std.specs.Prelude.{OnOk, OnErr};
ghost use Rattle.std.specs.Io.KnownBytes.{Appends};
ghost use Rattle.spg_io.specs.Causes.{HasCauseIfFailed};
ghost use Rattle.spg_streams.specs.Io.{WroteSome};
ghost use Rattle.spg_app.specs.Ending.{outlets};
ghost use Rattle.spg_app.specs.Checks.{counts_text, IsChecked};

use crate::beginning::status_of;
use crate::session::status_after;
use spg_histories::Status;
use spg_image::{Verified, verify};
use spg_io::{Images, IoRefused, Sink};
use spg_report::Line;
use spg_streams::write_line;
use std::alloc::Global;

/// Writes how many pages and entries an image has.
fn write_counts<K: Sink>(alloc: Global, verified: Verified, out: &mut K) -> Result<(), IoRefused>
    ensures ok { OnOk result (Appends (K.contents out.old) (K.contents out.new) (counts_text verified)) }
    ensures err { OnErr result (WroteSome (K.contents out.old) (K.contents out.new) (counts_text verified)) }
    ensures cause { HasCauseIfFailed (K.faults out.old) (K.faults out.new) result }
{
    let mut line = Line::new(alloc);
    line.named(b"ok pages ", u64::from(verified.pages))?;
    line.named(b" entries ", verified.entries)?;
    write_line(&mut line, out)
}

/// Verifies the image of a name, and writes how many pages and entries it has.
pub fn check_image<K: Sink, M: Images>(
    alloc: Global,
    name: &str,
    out: &mut K,
    images: &mut M,
) -> Status
    ensures { IsChecked name.now (outlets (K.contents out.old) (K.contents out.new) (K.faults out.old) (K.faults out.new)
        (M.held images.old) (M.held images.new) (M.faults images.old) (M.faults images.new)) result }
{
    match verify(alloc, images, name) {
        Err(refused) => status_of(refused),
        Ok(verified) => status_after(write_counts(alloc, verified, out), &[]),
    }
}

ghost use Rattle.std.specs.Prelude.{◌<◌};
ghost use Rattle.std.specs.List.{AllByRecursion};
ghost use Rattle.spg_create.specs.Keeps.{IsKnownInsert};
ghost use Rattle.spg_create.specs.Creates.{Creates};

use crate::keeping::keep_each_row_once;
use crate::refused::CreateRefused;
use spg_build::{BuildRefused, build};
use spg_image::{SaveRefused, save_table};
use spg_io::Images;
use spg_opclass::SharedClass;
use spg_script::{Insert, Spoken};
use std::thread::Threads;

/// The greatest number of pages of an index: 1 GiB.
const MOST_PAGES: u32 = 131_072;

/// How large an index is that was created.
#[derive(Clone, Copy, Debug, PartialEq, Eq)]
pub struct Created {
    /// How many entries it has.
    pub entries: u64,
    /// How many inserts were skipped, since an earlier one has their row.
    pub skipped: u64,
    /// How many pages it has.
    pub pages: u32,
}

/// Builds an index of the rows that are inserted, each row once, by so many workers, and saves it under
/// a name. `IndexFull` only where `4 * E + 7` for `E` entries is above 131,072, and then nothing is
/// saved. `ImageFault` only where the count of faults rises.
pub fn create<R: AllocGlobal + Threads + Sync, O: Spoken + SharedClass, M: Images>(
    rt: &R,
    class: &O,
    inserts: &[Insert],
    workers: u8,
    images: &mut M,
    name: &str,
) -> Result<Created, CreateRefused>
    requires some { 0 < workers }
    requires known { AllByRecursion (IsKnownInsert O.speech) inserts.now }
    ensures { Creates O.meaning O.speech O.code_number inserts.now name.now (M.held images.old) (M.held images.new) (M.faults images.old) (M.faults images.new) result }
{
    let (entries, skipped) = keep_each_row_once(rt.alloc(), class, inserts)?;
    let count = entries.len();
    let table = match build(rt, class, entries, workers, MOST_PAGES) {
        Ok(table) => table,
        Err(BuildRefused::IndexFull) => return Err(CreateRefused::IndexFull),
        Err(BuildRefused::Memory) => return Err(CreateRefused::Memory),
    };
    match save_table(class.code(), &table, images, name) {
        Ok(pages) => Ok(Created {
            entries: count as u64,
            skipped: skipped as u64,
            pages,
        }),
        Err(SaveRefused::ImageFault) => Err(CreateRefused::ImageFault),
        Err(SaveRefused::Memory) => Err(CreateRefused::Memory),
    }
}

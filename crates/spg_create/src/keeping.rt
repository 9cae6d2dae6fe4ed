ghost use Rattle.std.specs.Prelude.{◌≡◌, ◌<◌, ◌+◌, ◌^◌, [], IfOk};
ghost use Rattle.std.specs.List.{AllByRecursion};
ghost use Rattle.spg_script.specs.Speech.{key_or_null_in};
ghost use Rattle.spg_build.specs.Built.{AreRowsOnce};
ghost use Rattle.spg_create.specs.Keeps.{IsKnownInsert, KeepsOne, Keeps};

use spg_base::{List, Memory};
use spg_build::{Entry, Gathered};
use spg_script::{AnyKey, Insert, Spoken};
use std::alloc::Global;

/// The class's key for a script's, or a null. None exactly where the class has no such key.
fn key_in<O: Spoken>(class: &O, key: &Option<AnyKey>) -> Result<Option<Option<O::Key>>, Memory>
    ensures { IfOk result (λ found. found ≡ key_or_null_in O.speech key.now) }
{
    let Some(key) = key else {
        return Ok(Some(None));
    };
    match class.key_in(key)? {
        Some(found) => Ok(Some(Some(found))),
        None => Ok(None),
    }
}

/// Keeps the entry of an insert, where no entry has its row. Gives how many are skipped then.
fn keep_one<O: Spoken>(
    class: &O,
    kept: &mut Gathered<O::Key>,
    insert: &Insert,
    skipped: usize,
) -> Result<usize, Memory>
    requires known { IsKnownInsert O.speech insert.now }
    requires few { skipped + 1 < 2 ^ 64 }
    ensures { IfOk result (λ more. KeepsOne O.speech kept.old insert.now kept.new skipped more) }
{
    let Some(key) = key_in(class, &insert.key)? else {
        unreachable!()
    };
    if kept.add(insert.row, key)? {
        Ok(skipped)
    } else {
        Ok(skipped + 1)
    }
}

/// The entries of inserts, without those whose row an earlier one has, and how many these are.
pub(crate) fn keep_each_row_once<O: Spoken>(
    alloc: Global,
    class: &O,
    inserts: &[Insert],
) -> Result<(List<Entry<O::Key>>, usize), Memory>
    requires { AllByRecursion (IsKnownInsert O.speech) inserts.now }
    ensures keeps { IfOk result (λ kept. Keeps O.speech [] inserts.now kept.0 kept.1) }
    ensures once { IfOk result (λ kept. AreRowsOnce kept.0) }
{
    let mut kept = Gathered::new(alloc);
    let mut skipped = 0;
    for index in 0..inserts.len() {
        skipped = keep_one(class, &mut kept, &inserts[index], skipped)?;
    }
    Ok((kept.into_entries(), skipped))
}

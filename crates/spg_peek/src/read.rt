// A read of a scan that tells the rows that it takes, while nothing else is done to the index.
ghost use Rattle.std.specs.Prelude.{◌≡◌, ◌<◌, ◌++◌, length, OnOk, Some as Just};
ghost use Rattle.spg_opclass.specs.Sifting.{rows_of};
ghost use Rattle.spg_tree.specs.Table.{latch_at};
ghost use Rattle.spg_scan.specs.Copying.{HasKept, TakesIn};
ghost use Rattle.spg_core.specs.Seen.{past_of};
ghost use Rattle.spg_whole.specs.Calls.{AllClosed};
ghost use Rattle.spg_peek.specs.Peeking.{IsScanNow, ReadsNow};

use spg_base::{Block, Memory, Row, SeatNo};
use spg_core::State;
use spg_opclass::{Copied, OpClass, sift};
use spg_scan::{Scan, ScanCopy, SiftRefused};
use std::alloc::Global;

/// Where nothing is open, no block is latched. Nothing is done here.
fn no_latch<O: OpClass>(state: &State<O>, block: Block, by: SeatNo)
    requires closed { AllClosed (past_of state.now) }
    requires latched { latch_at state.now.table block ≡ Just by }
    ensures { ⊥ }
{
    // Each latch is that of an insert that its seat has open.
    let _ = state.pages();
    let _ = state.open_of(by);
}

/// Asks the class what of a copy matches, and goes on by that. The rows that match come to those found.
fn take_copy<O: OpClass>(
    alloc: Global,
    class: &O,
    scan: &mut Scan<O>,
    item: usize,
    copied: Copied<O>,
    found: &mut Vec<Row>,
) -> Result<(), Memory>
    requires { HasKept scan.old item copied }
    ensures takes { OnOk result (TakesIn O.meaning scan.old scan.new item copied) }
    ensures rows { OnOk result (found.new.items ≡ found.old.items ++ rows_of O.meaning copied) }
{
    let sifted = sift(alloc, class, copied)?;
    match scan.take_sifted(item, &sifted) {
        Ok(()) => {}
        Err(SiftRefused::Changed) => unreachable!(),
        Err(SiftRefused::Memory) => return Err(Memory),
    }
    found.extend_from_slice(sifted.rows().as_slice())?;
    Ok(())
}

/// Reads an item, and adds the rows that it takes to those found.
pub(crate) fn read_item<O: OpClass>(
    alloc: Global,
    state: &State<O>,
    scan: &mut Scan<O>,
    item: usize,
    found: &mut Vec<Row>,
) -> Result<(), Memory>
    requires closed { AllClosed (past_of state.now) }
    requires scan { IsScanNow O.meaning state.now scan.old }
    requires item { item < length scan.old.items }
    requires same { found.old.items ≡ scan.old.rows }
    ensures { OnOk result (ReadsNow O.meaning state.now scan.old scan.new found.new.items) }
{
    // The journal is legal.
    let _ = state.journal();
    let (pages, rows) = (state.pages(), state.rows());
    match scan.copy_item(pages, rows, item, SeatNo::first())? {
        ScanCopy::Read => Ok(()),
        ScanCopy::Sift(copied) => {
            take_copy(alloc, state.class(), scan, item, copied, found)?;
            Ok(())
        }
        ScanCopy::Latched { block, by } => {
            no_latch(state, block, by);
            unreachable!()
        }
    }
}

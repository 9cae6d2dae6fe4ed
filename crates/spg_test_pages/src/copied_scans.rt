use crate::makes::conds_of;
use spg_base::{Memory, Point, PointCond, SeatNo, Stamp};
use spg_opclass::{Copied, OpClass, Query, Sifted, sift};
use spg_quad::Quad;
use spg_rows::RowTable;
use spg_scan::{Scan, ScanCopy, SiftRefused, Walk, new_scan};
use spg_tree::PageTable;
use std::alloc::Global;
use std::test::Fail;

/// A scan of a new index, once it has copied its first item, with the copy. None where it has no item,
/// or does not copy it.
fn copied_scan<O: OpClass>(
    alloc: Global,
    class: &O,
    query: Query<O>,
) -> Result<Option<(Scan<O>, Copied<O>)>, Memory> {
    let table = PageTable::new(alloc, 4)?;
    let rows = RowTable::new(alloc);
    let start = class.start(alloc)?;
    // Such a scan holds what it must, so its items may be copied.
    new_scan::<O>();
    let mut scan = Scan::open(alloc, query, start, 0, Stamp::at(0))?;
    if scan.held() == 0 {
        return Ok(None);
    }
    match scan.copy_item(&table, &rows, 0, SeatNo::first())? {
        ScanCopy::Sift(copied) => Ok(Some((scan, copied))),
        ScanCopy::Read | ScanCopy::Latched { .. } => Ok(None),
    }
}

/// How many rows leaves that were copied have.
fn rows_copied(copied: &Copied<Quad>) -> Option<usize> {
    match copied {
        Copied::Inner { .. } => None,
        Copied::Leaves { leaves, .. } => Some(leaves.rows().len()),
    }
}

/// Whether a scan refuses a sifted copy for an item.
fn is_changed(scan: &mut Scan<Quad>, item: usize, sifted: &Sifted<Quad>) -> bool {
    match scan.take_sifted(item, sifted) {
        Err(SiftRefused::Changed) => true,
        Ok(()) | Err(SiftRefused::Memory) => false,
    }
}

/// How many rows a scan that holds nothing gives at its end.
fn rows_at_end(scan: &mut Scan<Quad>) -> Result<Option<usize>, Memory> {
    if scan.held() > 0 {
        return Ok(None);
    }
    let closed = scan.close()?;
    Ok(Some(closed.rows.len()))
}

/// Whether a scan takes the sifted copy once, and for its own item alone.
fn takes_once(scan: &mut Scan<Quad>, sifted: &Sifted<Quad>) -> bool {
    scan.held() == 1
        && is_changed(scan, 1, sifted)
        && scan.take_sifted(0, sifted).is_ok()
        && scan.held() == 0
        && is_changed(scan, 0, sifted)
}

/// Whether a scan goes on by its copy, which has no row, to its end.
fn goes_on(alloc: Global, scan: &mut Scan<Quad>, copied: Copied<Quad>) -> Result<bool, Memory> {
    let is_empty = rows_copied(&copied) == Some(0);
    let sifted = sift(alloc, &Quad, copied)?;
    Ok(is_empty && takes_once(scan, &sifted) && rows_at_end(scan)? == Some(0))
}

#[test]
fn a_scan_goes_on_by_its_copy_once(rt: HostRuntime) -> Result<(), Fail> {
    let alloc = rt.alloc();
    let conds = conds_of(alloc, PointCond::Eq(Point { x: 0, y: 0 }))?;
    match copied_scan(alloc, &Quad, Query::Where(conds))? {
        Some((scan, copied)) => {
            let mut scan = scan;
            assert!(rt; goes_on(alloc, &mut scan, copied)?);
        }
        None => assert!(rt; false),
    }
    Ok(())
}

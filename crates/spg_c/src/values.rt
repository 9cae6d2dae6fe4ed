// Values as C sees them.
ghost use Rattle.std.specs.Prelude.{◌≡◌, ◌↔◌, IsNone, IfSome};
ghost use Rattle.spg_c.specs.Shown.{row_at, told_row, told_near, told_stat};

use spgist::{NearRow, Row, Stat};

/// A row. Its offset is from 1 on.
#[repr(C)]
#[derive(Clone, Copy)]
pub struct SpgRow {
    pub block: u32,
    pub offset: u16,
}

/// A row with the square of its distance: `high` times 2^64, and `low`.
#[repr(C)]
#[derive(Clone, Copy)]
pub struct SpgNearRow {
    pub row: SpgRow,
    pub low: u64,
    pub high: u64,
}

/// Counts of an index.
#[repr(C)]
#[derive(Clone, Copy)]
pub struct SpgStat {
    pub pages: u32,
    pub inner: u64,
    pub leaf: u64,
    pub redirect: u64,
    pub dead: u64,
    pub placeholder: u64,
    pub clock: u64,
}

/// Which block of an image is wrong, and why, by number.
#[repr(C)]
#[derive(Clone, Copy)]
pub struct SpgFault {
    pub block: u32,
    pub reason: u32,
}

/// The row of the caller. None where its offset is 0.
pub(crate) fn row_of(row: SpgRow) -> Option<Row>
    ensures none { IsNone result ↔ (row.offset ≡ 0) }
    ensures some { IfSome result (λ r. r ≡ row_at row) }
{
    Row::new(row.block, row.offset)
}

/// A row as C sees it.
pub(crate) fn row_told(row: Row) -> SpgRow
    ensures { result ≡ told_row row }
{
    SpgRow {
        block: row.block(),
        offset: row.offset(),
    }
}

/// 2^64.
const WORD: u128 = 18_446_744_073_709_551_616;

/// A row with its distance as C sees it.
pub(crate) fn near_told(near: NearRow) -> SpgNearRow
    ensures { result ≡ told_near near }
{
    SpgNearRow {
        row: row_told(near.row),
        low: (near.distance % WORD) as u64,
        high: (near.distance / WORD % WORD) as u64,
    }
}

/// Counts as C sees them.
pub(crate) fn stat_told(stat: Stat) -> SpgStat
    ensures { result ≡ told_stat stat }
{
    SpgStat {
        pages: stat.pages,
        inner: stat.inner,
        leaf: stat.leaf,
        redirect: stat.redirect,
        dead: stat.dead,
        placeholder: stat.placeholder,
        clock: stat.clock,
    }
}

// Whether the rows of leaves are live.
ghost use Rattle.std.specs.Prelude.{◌≡◌, true, false};
ghost use Rattle.spg_rows.specs.Table.{state_in};
ghost use Rattle.spg_scan.specs.Scanning.{is_live};

use spg_base::Row;
use spg_opclass::OpClass;
use spg_rows::{RowState, RowTable};

/// How a read learns whether the row of a leaf is live. Where each row that has an entry is, no row
/// is looked up.
#[derive(Drop)]
pub struct Liveness<'a, O: OpClass> {
    /// The states of the rows.
    pub table: &'a RowTable<O>,
    /// Whether each row that has an entry is live.
    pub all_live: bool,
}

pub(crate) fn is_live(state: RowState) -> bool
    ensures { result ≡ is_live state }
{
    match state {
        RowState::Live => true,
        _ => false,
    }
}

impl<'a, O: OpClass> Liveness<'a, O> {
    /// Each row is looked up.
    pub(crate) fn of(table: &'a RowTable<O>) -> Liveness<'a, O>
        ensures table { result.table.now ≡ table.now }
        ensures all { result.all_live ≡ false }
    {
        Liveness {
            table,
            all_live: false,
        }
    }

    /// Whether the row of a leaf is live.
    pub(crate) fn is_live(&self, row: Row) -> bool
        requires { self.now.all_live ≡ true → is_live (state_in self.now.table.now row) ≡ true }
        ensures { result ≡ is_live (state_in self.now.table.now row) }
    {
        self.all_live || is_live(self.table.state(row))
    }
}

use spg_base::Row;

/// Where in the journal an insert of a row opened. Openings go by row, then by position.
#[derive(Clone, Copy, Debug, PartialEq, Eq, PartialOrd, Ord)]
pub(crate) struct Opening {
    pub(crate) row: Row,
    pub(crate) at: u64,
}

use crate::any_key::AnyKey;
use crate::any_query::AnyQuery;
use spg_base::{Bytes, Point, Row};

/// One command of a script.
#[derive(Debug, Drop)]
pub enum Command {
    /// Puts a row with its key, or with a null, into the index.
    Insert { row: Row, key: Option<AnyKey> },
    /// Deletes a row.
    Delete { row: Row },
    /// Finds rows.
    Find { query: AnyQuery },
    /// Removes the entries of deleted rows.
    Vacuum,
    /// Writes the pages under a name of 1 to 64 letters, digits, `_`, `-` and dots.
    Save { name: Bytes },
    /// Counts the tuples.
    Stat,
    /// Finds the rows nearest to a point, `limit` at most, from 1 on.
    Near { target: Point, limit: u16 },
}

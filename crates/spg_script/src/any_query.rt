use crate::any_cond::AnyCond;
use spg_base::List;

/// What a `find` asks for.
#[derive(Debug, Drop)]
pub enum AnyQuery {
    /// Every row.
    All,
    /// The rows whose key is a null.
    Null,
    /// The rows whose key meets each of 1 to 8 conditions.
    Where(List<AnyCond>),
}

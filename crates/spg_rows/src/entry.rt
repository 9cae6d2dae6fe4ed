use spg_base::Row;

/// A row that stands in an index, with its key. A null has none.
#[derive(Drop)]
pub struct Entry<K> {
    pub row: Row,
    pub key: Option<K>,
}

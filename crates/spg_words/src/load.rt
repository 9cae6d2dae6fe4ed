use spg_script::ClassName;

/// What `gen` makes and runs.
#[derive(Clone, Copy, Debug, PartialEq, Eq)]
pub struct Load {
    /// How many rows are inserted, 1 to 200,000.
    pub count: u32,
    /// What the keys come from, 0 to 999,999.
    pub seed: u32,
    /// How many lanes insert them, 1 to 16.
    pub lanes: u32,
    /// The class of the index, which is not that of ranges.
    pub class: ClassName,
}

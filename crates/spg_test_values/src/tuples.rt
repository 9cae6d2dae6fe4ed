// A tuple whose nodes have no labels.
use spg_base::{Bytes, Memory};
use spg_opclass::InnerView;
use spg_points::zero_labels;
use std::alloc::Global;

/// A tuple with that prefix and so many nodes.
pub(crate) fn tuple_with(
    alloc: Global,
    all_same: bool,
    prefix: Bytes,
    nodes: u16,
) -> Result<InnerView, Memory> {
    let labels = zero_labels(alloc, nodes)?;
    Ok(InnerView {
        all_same,
        prefix,
        labels,
    })
}

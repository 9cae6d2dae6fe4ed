ghost use Rattle.std.specs.Prelude.{◌<◌, ◌^◌, length};
ghost use Rattle.spg_opclass.specs.StoredLabels.{labels_in};

use crate::labels_ref::LabelsRef;

/// What a class sees of an inner tuple, read where it stands.
#[derive(Clone, Copy, Debug)]
pub struct InnerRef<'a> {
    /// Whether its labels are all the same.
    pub all_same: bool,
    /// Its prefix.
    pub prefix: &'a [u8],
    /// The labels of its nodes, at most 65,535.
    pub labels: LabelsRef<'a>,
    pub ghost few: { length (labels_in labels) < 2 ^ 16 },
}

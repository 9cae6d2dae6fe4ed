ghost use Rattle.std.specs.Prelude.{◌≡◌, ◌+◌, ◌*◌, ◌<◌, Some, length, slice_get};
ghost use Rattle.spg_opclass.specs.StoredLabels.{label_at, labels_in};

/// The bytes of a node on a page.
const NODE_BYTES: usize = 8;

/// Where in them the label begins: two bytes, the low one first.
const LABEL_AT: usize = 6;

/// The label of a node, from the bytes of the nodes.
fn label_in(nodes: &[u8], node: usize) -> i16
    requires { 8 * node + 7 < length nodes.now }
    ensures { result ≡ label_at nodes.now node }
{
    let at = NODE_BYTES * node + LABEL_AT;
    i16::from_le_bytes([nodes[at], nodes[at + 1]])
}

/// The labels of the nodes of an inner tuple, read where they stand.
#[derive(Clone, Copy, Debug)]
pub enum LabelsRef<'a> {
    /// One after the other.
    Listed(&'a [i16]),
    /// In the bytes of the nodes on a page, 8 each, of which the last two are the label.
    Stored(&'a [u8]),
}

impl<'a> LabelsRef<'a> {
    /// How many there are.
    pub fn len(self) -> usize
        ensures { result ≡ length (labels_in self.entry) }
    {
        match self {
            LabelsRef::Listed(labels) => labels.len(),
            LabelsRef::Stored(nodes) => nodes.len() / NODE_BYTES,
        }
    }

    /// The label of a node. Nodes count from 0.
    pub fn at(self, node: usize) -> i16
        requires { node < length (labels_in self) }
        ensures { slice_get (labels_in self.entry) node ≡ Some result }
    {
        match self {
            LabelsRef::Listed(labels) => labels[node],
            LabelsRef::Stored(nodes) => label_in(nodes, node),
        }
    }
}

ghost use Rattle.std.specs.Prelude.{◌≡◌, IfOk};
ghost use Rattle.spg_descend.specs.BareNodes.{nodes_of};

use spg_base::Memory;
use spg_page::{Node, Nodes};
use std::alloc::Global;

/// A node for each label, which leads nowhere.
pub fn bare_nodes(alloc: Global, labels: &[i16]) -> Result<Nodes, Memory>
    ensures { IfOk result (λ nodes. nodes ≡ nodes_of labels.now) }
{
    let mut nodes = Nodes::new(alloc);
    for label in labels {
        nodes.push(Node {
            label: *label,
            link: None,
        })?;
    }
    Ok(nodes)
}

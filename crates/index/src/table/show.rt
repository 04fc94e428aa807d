// Telling a node of the index.
ghost use Rattle.std.specs.Prelude.{◌≡◌, ◌<◌};
ghost use Rattle.index.specs.Nodes.{items};
ghost use Rattle.index.specs.Meaning.{grouped};
ghost use Rattle.index.specs.Showing.{told, telling, node_told};

use super::Index;
use super::build::lowest;
use crate::node::Node;
use crate::record::{Holds, NodeRecord};

// Fills the caller's record where it stands: a new one would be blanked and then copied over, all its room written twice. The
// bound of the last entry is not told.
fn show(node: &Node, low: bool, out: &mut NodeRecord)
    ensures { told out.new ≡ telling low (items node.now) }
{
    out.numbers.clear();
    out.bounds.clear();
    let Some((last, front)) = node.entries.as_slice().split_last() else {
        out.holds = Holds::Nothing;
        return;
    };
    out.holds = if low { Holds::Leaves } else { Holds::Children };
    for e in front {
        out.numbers.push(e.to).unwrap();
        out.bounds.push(e.bound).unwrap();
    }
    out.numbers.push(last.to).unwrap();
}

impl Index {
    // Fills the caller's record with node i, which is there.
    pub(crate) fn show_node(&self, i: usize, out: &mut NodeRecord)
        requires { i < 91 }
        ensures { told out.new ≡ node_told (grouped self.now) i }
    {
        show(&self.nodes[i], i >= lowest(self.used), out);
    }
}

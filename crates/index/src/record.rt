// A node as a caller is told it.
ghost use Rattle.std.specs.Prelude.{◌≡◌, []};
ghost use Rattle.fixed_vec.specs.Items.{items};

use fixed_vec::FixedVec;

#[derive(Clone, Copy, PartialEq, Eq, Debug)]
pub enum Holds {
    Nothing,
    Leaves,
    Children,
}

// The numbers of a node's leaves or children, and the bounds between neighbours.
#[derive(Clone, Copy)]
pub struct NodeRecord {
    pub holds: Holds,
    pub numbers: FixedVec<usize, 9>,
    pub bounds: FixedVec<(u64, u64), 8>,
}

impl NodeRecord {
    // The record of an empty node.
    pub fn new() -> Self
        ensures holds { result.holds ≡ Holds.Nothing }
        ensures numbers { items result.numbers ≡ [] }
        ensures bounds { items result.bounds ≡ [] }
    {
        NodeRecord {
            holds: Holds::Nothing,
            numbers: FixedVec::new(0),
            bounds: FixedVec::new((0, 0)),
        }
    }
}

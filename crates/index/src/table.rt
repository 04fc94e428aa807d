// The index: a table of nodes, node 0 the root, the children of node i at 9 * i + 1 and on. There is no heap, so a child is
// its number.
ghost use Rattle.std.specs.Prelude.{◌≡◌, ◌≤◌, length};
ghost use Rattle.index.specs.Search.{concat, Full, Small};
ghost use Rattle.index.specs.Shape.{groups, Sound};

use crate::node::Node;

pub(crate) mod build;
pub mod calls;
pub(crate) mod change;
pub(crate) mod list;
pub(crate) mod locate;
pub(crate) mod show;

// The first `used` nodes of the lowest level hold the leaves, which are at most 64.
#[derive(Clone, Copy)]
pub struct Index {
    leaves: usize,
    used: usize,
    nodes: [Node; 91],
    ghost size: { (1 ≤ used) × (used ≤ 81) × (length nodes ≡ 91) },
    ghost counted: { (leaves ≡ length (concat (groups used nodes))) × (leaves ≤ 64) },
    ghost full: { Full (groups used nodes) },
    ghost small: { Small (groups used nodes) },
    ghost sound: { Sound used nodes },
}

// A leaf's place: its group, and its slot in the group.
#[derive(Clone, Copy, PartialEq, Eq, Debug)]
pub struct Place {
    pub group: usize,
    pub slot: usize,
}

// Changes of the index in place: only the node of the leaf changes.
ghost use Rattle.std.specs.Prelude.{◌≡◌, ◌<◌, true, [], map, length, slice_index_or, slice_set};
ghost use Rattle.index.specs.Nodes.{items, parted, renamed};
ghost use Rattle.index.specs.Places.{within, group_of};
ghost use Rattle.index.specs.Meaning.{grouped, listed, with_group, splits};

use super::{Index, Place};
use crate::node::{Entry, Node};

// Lends one node to name another leaf.
pub(super) fn rename_in(nodes: &mut [Node], at: usize, slot: usize, leaf: usize)
    requires { (at < length nodes.old) × (slot < length (slice_index_or (map items nodes.old) at [])) }
    ensures { map items nodes.new ≡ slice_set (map items nodes.old) at (renamed (slice_index_or (map items nodes.old) at []) slot leaf) }
{
    let node = &mut nodes[at];
    node.rename(slot, leaf);
}

// Lends one node to insert a leaf and a bound.
fn insert_in(nodes: &mut [Node], at: usize, slot: usize, left: Entry, right: usize)
    requires { (at < length nodes.old) × ((slot < length (slice_index_or (map items nodes.old) at [])) × (length (slice_index_or (map items nodes.old) at []) < 9)) }
    ensures { map items nodes.new ≡ slice_set (map items nodes.old) at (parted (slice_index_or (map items nodes.old) at []) slot left.to left.bound right) }
{
    let node = &mut nodes[at];
    node.insert(slot, left, right);
}

impl Index {
    // Whether a leaf can be split: it is there, and there are fewer than 64.
    pub(crate) fn can_split(&self, place: Place) -> bool
        ensures { result ≡ splits (grouped self.now) place }
    {
        if self.leaves >= 64 {
            return false;
        }
        self.has(place)
    }

    // Two leaves in the place of one.
    pub(crate) fn insert(&mut self, place: Place, left: Entry, right: usize)
        requires { (within (grouped self.old) place ≡ true) × ((length (group_of (grouped self.old) place) < 5) × (length (listed self.old) < 64)) }
        ensures { grouped self.new ≡ with_group (grouped self.old) place (parted (group_of (grouped self.old) place) place.slot left.to left.bound right) }
    {
        let at = self.node_of(place.group);
        insert_in(&mut self.nodes, at, place.slot, left, right);
        self.leaves += 1;
    }
}

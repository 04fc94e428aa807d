// All leaves in their order, and changes that build the index anew.
ghost use Rattle.std.specs.Prelude.{◌≡◌, ◌≤◌, true, length, Some, slice_set};
ghost use Rattle.index.specs.Nodes.{items, chained, holds, parted, joined};
ghost use Rattle.index.specs.Search.{concat};
ghost use Rattle.index.specs.Keeping.{AscendsWith, AscendsStill};
ghost use Rattle.index.specs.Shape.{singles};
ghost use Rattle.index.specs.Places.{position, place_after};
ghost use Rattle.index.specs.Meaning.{grouped, listed, merged, split as split_groups, splits};

use super::{Index, Place};
use crate::node::fill::empty;
use crate::node::{Entry, Node};
use fixed_vec::FixedVec;

// Whether a leaf is one of a node's.
pub(crate) fn has_leaf(node: &Node, leaf: usize) -> bool
    ensures { result ≡ holds leaf (items node.now) }
{
    node.entries.as_slice().iter().any(|e| e.to == leaf)
}

impl Index {
    // All leaves, with another node in the place of a group's.
    fn list_with(&self, at: usize, other: &Node) -> FixedVec<Entry, 64>
        requires { length (concat (slice_set (grouped self.now) at (items other.now))) ≤ 64 }
        ensures { chained result ≡ concat (slice_set (grouped self.now) at (items other.now)) }
    {
        let mut all = empty();
        for (g, node) in self.groups().iter().enumerate() {
            let node = if g == at { other } else { node };
            all.extend_from_slice(node.entries.as_slice()).unwrap();
        }
        all
    }

    // Builds the index anew, with another node in the place of a group's.
    fn rebuild(&mut self, group: usize, other: &Node)
        requires few { length (concat (slice_set (grouped self.old) group (items other.now))) ≤ 64 }
        requires some { 1 ≤ length (concat (slice_set (grouped self.old) group (items other.now))) }
        ensures { grouped self.new ≡ singles (concat (slice_set (grouped self.old) group (items other.now))) }
    {
        let all = self.list_with(group, other);
        self.fill(all.as_slice());
    }

    // Two leaves in the place of one.
    pub(crate) fn split_leaf(&mut self, place: Place, left: Entry, right: usize)
        requires { splits (grouped self.old) place ≡ true }
        ensures groups { grouped self.new ≡ split_groups (grouped self.old) place left.to left.bound right }
        ensures list { listed self.new ≡ parted (listed self.old) (position (grouped self.old) place) left.to left.bound right }
        ensures ascends { AscendsWith (listed self.old) (position (grouped self.old) place) left.bound (listed self.new) }
    {
        let mut node = self.groups()[place.group];
        if node.entries.len() < 5 {
            self.insert(place, left, right);
            return;
        }
        node.insert(place.slot, left, right);
        self.rebuild(place.group, &node);
    }

    // One leaf in the place of two neighbours.
    pub(crate) fn merge_leaves(&mut self, place: Place, next: Place, leaf: usize)
        requires { place_after (grouped self.old) place ≡ Some next }
        ensures groups { grouped self.new ≡ merged (grouped self.old) place leaf }
        ensures list { listed self.new ≡ joined (listed self.old) (position (grouped self.old) place) leaf }
        ensures ascends { AscendsStill (listed self.old) (listed self.new) }
    {
        self.replace(next, leaf);
        let mut node = self.groups()[place.group];
        node.remove(place.slot);
        self.rebuild(place.group, &node);
    }
}

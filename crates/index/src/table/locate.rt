// Locating a key: from the root down, one search in each node.
ghost use Rattle.std.specs.Prelude.{◌≡◌, ◌+◌, ◌<◌, map, length};
ghost use Rattle.keys.specs.InWords.{in_words};
ghost use Rattle.index.specs.Nodes.{items, bounds};
ghost use Rattle.index.specs.Search.{search as place_of, front, Ascending};
ghost use Rattle.index.specs.Shape.{table as table_node, lowest as lowest_of, lasts};
ghost use Rattle.index.specs.Places.{within};
ghost use Rattle.index.specs.Meaning.{grouped, listed};

use super::build::lowest;
use super::{Index, Place};
use crate::node::Node;
use crate::node::search::search;
use keys::Key;

impl Index {
    // The node of a group.
    pub(crate) fn node_of(&self, group: usize) -> usize
        requires { group < length (grouped self.now) }
        ensures node { result ≡ lowest_of self.now.used + group }
        ensures within { result < 91 }
    {
        lowest(self.used) + group
    }

    // The nodes of the groups, in their order.
    pub(crate) fn groups(&self) -> &[Node]
        ensures { map items result.now ≡ grouped self.now }
    {
        let low = lowest(self.used);
        &self.nodes[low..low + self.used]
    }

    // Whether a place is there.
    pub(crate) fn has(&self, place: Place) -> bool
        ensures { result ≡ within (grouped self.now) place }
    {
        let node = self.groups().get(place.group);
        node.is_some_and(|node| place.slot < node.entries.len())
    }

    // The entry of node `at` that the key belongs to.
    fn entry_at<K: Key>(&self, at: usize, key: &K) -> usize
        requires { (at < 91) × (0 < length (table_node (grouped self.now) at)) }
        ensures place { result ≡ place_of (in_words K.Key.kind) (K.Key.kind.form key.now) (bounds (table_node (grouped self.now) at)) }
        ensures within { result < length (table_node (grouped self.now) at) }
        ensures small { result < 9 }
    {
        search::<K>(self.nodes[at].entries.as_slice(), key)
    }

    // The group that a key belongs to, by one node on each level above the groups.
    pub(crate) fn group_of<K: Key>(&self, key: &K) -> usize
        ensures within { result < length (grouped self.now) }
        ensures group { Ascending (in_words K.Key.kind) (front (bounds (listed self.now))) → result ≡ place_of (in_words K.Key.kind) (K.Key.kind.form key.now) (lasts (grouped self.now)) }
    {
        if self.used <= 1 {
            return 0;
        }
        let row = self.entry_at::<K>(0, key);
        if self.used <= 9 {
            return row;
        }
        let column = self.entry_at::<K>(1 + row, key);
        9 * row + column
    }
}

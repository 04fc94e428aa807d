// Filling a node.
ghost use Rattle.std.specs.Prelude.{◌≡◌, ◌<◌, [], length};
ghost use Rattle.fixed_vec.specs.Items.{items as items_of};
ghost use Rattle.index.specs.Nodes.{items, parted, renamed, without};

use super::{Entry, Node};
use fixed_vec::FixedVec;

// An empty list of entries.
pub(crate) fn empty<const N: usize>() -> FixedVec<Entry, N>
    ensures { items_of result ≡ [] }
{
    FixedVec::new(Entry::default())
}

impl Node {
    // Puts two leaves in the place of one: the left with a bound, the right with the bound that was there.
    pub(crate) fn insert(&mut self, slot: usize, left: Entry, right: usize)
        requires { (slot < length (items self.old)) × (length (items self.old) < 9) }
        ensures { items self.new ≡ parted (items self.old) slot left.to left.bound right }
    {
        let old = self.entries.as_slice();
        let mut entries = empty();
        entries.extend_from_slice(&old[..slot]).unwrap();
        entries.push(left).unwrap();
        entries
            .push(Entry {
                to: right,
                bound: old[slot].bound,
            })
            .unwrap();
        entries.extend_from_slice(&old[slot + 1..]).unwrap();
        self.entries = entries;
    }

    pub(crate) fn remove(&mut self, slot: usize)
        requires { slot < length (items self.old) }
        ensures { items self.new ≡ without (items self.old) slot }
    {
        let old = self.entries.as_slice();
        let mut entries = empty();
        entries.extend_from_slice(&old[..slot]).unwrap();
        entries.extend_from_slice(&old[slot + 1..]).unwrap();
        self.entries = entries;
    }

    pub(crate) fn rename(&mut self, slot: usize, leaf: usize)
        requires { slot < length (items self.old) }
        ensures { items self.new ≡ renamed (items self.old) slot leaf }
    {
        let bound = self.entries.as_slice()[slot].bound;
        self.entries.replace(slot, Entry { to: leaf, bound });
    }
}

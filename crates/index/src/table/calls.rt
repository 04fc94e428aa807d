// The calls of an index. Each takes any arguments: where a place is not there it says so and changes nothing.
ghost use Rattle.std.specs.Prelude.{◌≡◌, ℕ, ◌<◌, true, if◌then◌else◌, is_some, length, Ok, Err, nat_lt};
ghost use Rattle.std.specs.Option.{unwrap_or};
ghost use Rattle.keys.specs.InWords.{in_words};
ghost use Rattle.refusal.specs.declared.Refusal.TheVariants.{Outside};
ghost use Rattle.index.specs.Nodes.{bounds, holds, joined, parted, renamed};
ghost use Rattle.index.specs.Search.{search as place_of, front, Ascending, First};
ghost use Rattle.index.specs.Keeping.{AscendsWith, AscendsStill};
ghost use Rattle.index.specs.Places.{within, position, place_after, place_before};
ghost use Rattle.index.specs.Meaning.{grouped, listed, grouped_in, built as built_groups, leaf_at, replaced, split as split_groups, splits, merged, merges};
ghost use Rattle.index.specs.Showing.{told, node_told};

use super::build::built;
use super::change::rename_in;
use super::list::has_leaf;
use super::{Index, Place};
use crate::node::Entry;
use crate::node::search::search;
use crate::record::NodeRecord;
use keys::Key;
use refusal::Refusal;

impl Index {
    // The index of 1 to 64 leaves, one in each node of the lowest level.
    pub fn build(entries: &[Entry]) -> Option<Index>
        ensures { grouped_in result ≡ built_groups entries.now }
    {
        (1..=64).contains(&entries.len()).then(|| built(entries))
    }

    // Makes it the index of 1 to 64 leaves, one in each node of the lowest level; nothing where there are none or more.
    pub fn reset(&mut self, entries: &[Entry]) -> bool
        ensures answer { result ≡ is_some (built_groups entries.now) }
        ensures groups { grouped self.new ≡ unwrap_or (built_groups entries.now) (grouped self.old) }
    {
        if !(1..=64).contains(&entries.len()) {
            return false;
        }
        self.fill(entries);
        true
    }

    // How many leaves there are.
    pub fn len(&self) -> usize
        ensures { result ≡ length (listed self.now) }
    {
        self.leaves
    }

    // Whether a leaf is there.
    pub fn holds(&self, leaf: usize) -> bool
        ensures { result ≡ holds leaf (listed self.now) }
    {
        self.groups().iter().any(|node| has_leaf(node, leaf))
    }

    // The first leaf whose bound is not before the key, otherwise the last.
    pub fn locate<K: Key>(&self, key: &K) -> Place
        ensures within { within (grouped self.now) result ≡ true }
        ensures place { Ascending (in_words K.Key.kind) (front (bounds (listed self.now))) → position (grouped self.now) result ≡ place_of (in_words K.Key.kind) (K.Key.kind.form key.now) (bounds (listed self.now)) }
        ensures first { Ascending (in_words K.Key.kind) (front (bounds (listed self.now))) → First (in_words K.Key.kind) (K.Key.kind.form key.now) (bounds (listed self.now)) (position (grouped self.now) result) }
        ensures only { (p : ℕ) → Ascending (in_words K.Key.kind) (front (bounds (listed self.now))) → First (in_words K.Key.kind) (K.Key.kind.form key.now) (bounds (listed self.now)) p → position (grouped self.now) result ≡ p }
    {
        let group = self.group_of::<K>(key);
        let slot = search::<K>(self.groups()[group].entries.as_slice(), key);
        Place { group, slot }
    }

    // The place of the first leaf.
    pub fn first(&self) -> Place
        ensures within { within (grouped self.now) result ≡ true }
        ensures place { position (grouped self.now) result ≡ 0 }
    {
        Place { group: 0, slot: 0 }
    }

    // The leaf at a place, with its bound.
    pub fn entry(&self, place: Place) -> Option<Entry>
        ensures { result ≡ leaf_at (grouped self.now) place }
    {
        let node = self.groups().get(place.group)?;
        node.entries.as_slice().get(place.slot).copied()
    }

    // The place after, unless it is the last.
    pub fn after(&self, place: Place) -> Option<Place>
        ensures { result ≡ place_after (grouped self.now) place }
    {
        let groups = self.groups();
        let len = groups.get(place.group)?.entries.len();
        if place.slot >= len {
            return None;
        }
        if place.slot + 1 < len {
            return Some(Place {
                group: place.group,
                slot: place.slot + 1,
            });
        }
        if place.group + 1 < groups.len() {
            return Some(Place {
                group: place.group + 1,
                slot: 0,
            });
        }
        None
    }

    // The place before, unless it is the first.
    pub fn before(&self, place: Place) -> Option<Place>
        ensures { result ≡ place_before (grouped self.now) place }
    {
        if !self.has(place) {
            return None;
        }
        if place.slot > 0 {
            return Some(Place {
                group: place.group,
                slot: place.slot - 1,
            });
        }
        let group = place.group.checked_sub(1)?;
        Some(Place {
            group,
            slot: self.groups()[group].entries.len() - 1,
        })
    }

    // Another leaf in the place of one, with its bound.
    pub fn replace(&mut self, place: Place, leaf: usize) -> bool
        ensures answer { result ≡ within (grouped self.old) place }
        ensures groups { grouped self.new ≡ (if within (grouped self.old) place then replaced (grouped self.old) place leaf else grouped self.old) }
        ensures list { listed self.new ≡ (if within (grouped self.old) place then renamed (listed self.old) (position (grouped self.old) place) leaf else listed self.old) }
        ensures bounds { bounds (listed self.new) ≡ bounds (listed self.old) }
    {
        if !self.has(place) {
            return false;
        }
        let at = self.node_of(place.group);
        rename_in(&mut self.nodes, at, place.slot, leaf);
        true
    }

    // Two leaves in the place of one: the left with a bound, the right with the bound that was there.
    pub fn split(&mut self, place: Place, left: Entry, right: usize) -> bool
        ensures answer { result ≡ splits (grouped self.old) place }
        ensures groups { grouped self.new ≡ (if splits (grouped self.old) place then split_groups (grouped self.old) place left.to left.bound right else grouped self.old) }
        ensures list { listed self.new ≡ (if splits (grouped self.old) place then parted (listed self.old) (position (grouped self.old) place) left.to left.bound right else listed self.old) }
        ensures ascends { AscendsWith (listed self.old) (position (grouped self.old) place) left.bound (listed self.new) }
    {
        if !self.can_split(place) {
            return false;
        }
        self.split_leaf(place, left, right);
        true
    }

    // One leaf in the place of the one at a place and the one after it, with the bound of the second.
    pub fn merge(&mut self, place: Place, leaf: usize) -> bool
        ensures answer { result ≡ merges (grouped self.old) place }
        ensures groups { grouped self.new ≡ (if merges (grouped self.old) place then merged (grouped self.old) place leaf else grouped self.old) }
        ensures list { listed self.new ≡ (if merges (grouped self.old) place then joined (listed self.old) (position (grouped self.old) place) leaf else listed self.old) }
        ensures ascends { AscendsStill (listed self.old) (listed self.new) }
    {
        let Some(next) = self.after(place) else {
            return false;
        };
        self.merge_leaves(place, next, leaf);
        true
    }

    // Fills the caller's record with node i.
    pub fn node(&self, i: usize, out: &mut NodeRecord) -> Result<(), Refusal>
        ensures answer { result ≡ (if nat_lt 90 i then Err Outside else Ok tt) }
        ensures kept { 90 < i → out.new ≡ out.old }
        ensures filled { told out.new ≡ (if nat_lt 90 i then told out.old else node_told (grouped self.now) i) }
    {
        if i > 90 {
            return Err(Refusal::Outside);
        }
        self.show_node(i, out);
        Ok(())
    }
}

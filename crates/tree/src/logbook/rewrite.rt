// Rewrites: split, merge and replacement.
ghost use Rattle.std.specs.Prelude.{◌≡◌, ℕ, ◌+◌, ◌∷◌, ◌++◌, ◌≤◌, length, take, Some, Ok, MatchResult};
ghost use Rattle.refusal.specs.declared.Refusal.TheVariants.{Outside};
ghost use Rattle.fixed_vec.specs.Items.{items};
ghost use Rattle.keys.specs.InWords.{in_words};
ghost use Rattle.memory.specs.Meaning.{read_answer, size_of};
ghost use Rattle.rewrites.specs.Bounds.{last_key};
ghost use Rattle.plans.specs.Plan.{taken};
ghost use Rattle.plans.specs.declared.deed.Call.TheVariants.{Remove};
ghost use Rattle.plans.specs.declared.decision.Decision.TheVariants.{Merge as Merged, Replace as Replaced, Split as SplitInto};
ghost use Rattle.index.specs.declared.table.Index.{Index as AnIndex};
ghost use Rattle.index.specs.Meaning.{grouped, listed};
ghost use Rattle.index.specs.Nodes.{numbers};
ghost use Rattle.index.specs.Places.{place_after, place_before};
ghost use Rattle.tree.specs.declared.logbook.State.TheVariants.{Open};
ghost use Rattle.tree.specs.Anywhere.{Answered};
ghost use Rattle.tree.specs.Shape.{shape_of};
ghost use Rattle.tree.specs.Turning.{HasNew, Links, MergesWith, Takes, Taking, Working, count_next, decided_ending, ending, has_leaf, leaf_in, rewrite_ending};
ghost use Rattle.tree.specs.Walk.{leaf_of, past_of};

use super::Logbook;
use super::adopt::Regroup;
use super::carry::Halt;
use super::free::next_free;
use super::place::{Home, leaf_at};
use index::node::Entry;
use index::table::{Index, Place};
use keys::Key;
use leaves::leaf::ask::{count_in, elements_in};
use leaves::leaf::change::{both, pairs_of};
use leaves::leaf::{Pair, Run};
use memory::Memory;
use plans::decision::{Decision, decide};
use plans::deed::Call;
use refusal::Refusal;
use rewrites::{rewrite_one, rewrite_two};

// The word that links the leaf at a place.
fn link_word(index: &Index, place: Place) -> usize
    ensures { Links (leaf_of (grouped index.now) (place_before (grouped index.now) place)) result }
{
    match leaf_at(index, index.before(place)) {
        None => 2,
        Some(leaf) => leaf.saturating_sub(1).saturating_mul(72).saturating_add(8),
    }
}

// The leaf after the one after a place, if there is one.
fn leaf_past(index: &Index, place: Place) -> Option<usize>
    ensures { result ≡ past_of (grouped index.now) (place_after (grouped index.now) place) }
{
    leaf_at(index, index.after(index.after(place)?))
}

// The greatest key of so many of the smallest pairs.
fn greatest(pairs: &[Pair], share: usize) -> (u64, u64)
    ensures { 1 ≤ share → share ≤ length pairs.now → result ≡ last_key (take share pairs.now) }
{
    match pairs.get(share.saturating_sub(1)) {
        Some(pair) => pair.key,
        None => (0, 0),
    }
}

// Whether a memory of so many words has a leaf of this number.
fn has_leaf(size: usize, leaf: usize) -> bool
    ensures { result ≡ has_leaf size leaf }
{
    (1..=64).contains(&leaf) && 8 + 72 * leaf <= size
}

// A new leaf, and what it is taken for: how many leaves there are and are linked, and the word that will link it.
#[derive(Clone, Copy)]
pub(crate) struct New {
    leaves: usize,
    linked: usize,
    leaf: usize,
    at: usize,
}

impl<K: Key, M: Memory> Logbook<K, M> {
    // How many leaves the memory has, by its word 3.
    fn leaves(&mut self) -> Result<usize, Refusal>
        ensures same { M.Memory.meaning self.new.memory ≡ M.Memory.meaning self.old.memory }
        ensures state { self.new.state ≡ self.old.state }
        ensures taken { self.new.taken ≡ self.old.taken }
        ensures value { result ≡ read_answer (M.Memory.meaning self.old.memory) 3 }
    {
        Ok(self.memory.read(3)? as usize)
    }

    // The free leaf that is taken next, to be linked in the place of one; refused where the memory does not have it, or the word that will
    // link it.
    fn new_leaf(&mut self, place: Place) -> Result<New, Refusal>
        ensures same { M.Memory.meaning self.new.memory ≡ M.Memory.meaning self.old.memory }
        ensures state { self.new.state ≡ self.old.state }
        ensures taken { self.new.taken ≡ self.old.taken }
        ensures leaf { (x : AnIndex) → self.old.state ≡ Open x → MatchResult result (λ new. Taking (M.Memory.meaning self.old.memory).live x self.old.taken place new × HasNew (size_of (M.Memory.meaning self.old.memory)) new) (λ refusal. (refusal ≡ Outside) × (Takes (M.Memory.meaning self.old.memory) x self.old.taken place → ⊥)) }
    {
        let leaves = self.leaves()?;
        let index = self.index()?;
        let leaf = next_free(index, &[], leaves, self.taken).unwrap_or(0);
        let at = link_word(index, place);
        let size = self.memory.size();
        if !has_leaf(size, leaf) || size <= at {
            return Err(Refusal::Outside);
        }
        Ok(New {
            leaves,
            linked: index.len(),
            leaf,
            at,
        })
    }

    // The free leaf that is taken after a new one; refused where the memory does not have it.
    fn second_leaf(&self, new: &New) -> Result<usize, Refusal>
        ensures { (x : AnIndex) → self.now.state ≡ Open x → result ≡ leaf_in (size_of (M.Memory.meaning self.now.memory)) (taken new.now.leaves (new.now.leaf ∷ numbers (listed x)) (Some new.now.leaf)) }
    {
        let index = self.index()?;
        let second = next_free(index, &[new.leaf], new.leaves, Some(new.leaf)).unwrap_or(0);
        if !has_leaf(self.memory.size(), second) {
            return Err(Refusal::Outside);
        }
        Ok(second)
    }

    // Two new leaves in the place of the key's; refused where two free ones are not to be had.
    fn split(&mut self, home: Home, pairs: &Run, share: usize) -> Result<usize, Halt>
        ensures done { (x : AnIndex) (w : ℕ × ℕ) → self.old.state ≡ Open x → Working (in_words K.Key.kind) (M.Memory.meaning self.old.memory).live x w home → 1 ≤ share → share ≤ 16 → share ≤ length (items pairs.now) → length (items pairs.now) ≤ share + 16 → ending result (M.Memory.meaning self.new.memory) (shape_of self.new.state) self.new.taken ≡ decided_ending (in_words K.Key.kind) (M.Memory.meaning self.old.memory) x self.old.taken w (items pairs.now) (SplitInto share) }
        ensures any { (x : AnIndex) → self.old.state ≡ Open x → 1 ≤ share → share ≤ 16 → share ≤ length (items pairs.now) → length (items pairs.now) ≤ share + 16 → Answered (M.Memory.meaning self.old.memory) self.old.state self.old.taken (ending result (M.Memory.meaning self.new.memory) (shape_of self.new.state) self.new.taken) }
    {
        let new = self.new_leaf(home.place)?;
        if new.leaves.saturating_sub(new.linked) < 2 {
            return Err(Refusal::NoRoom.into());
        }
        let right = self.second_leaf(&new)?;
        let bound = greatest(pairs.as_slice(), share);
        let next = home.next.unwrap_or(0);
        let mut steps = 0;
        let written = rewrite_two(
            &mut self.memory,
            &mut steps,
            new.at,
            new.leaf,
            right,
            next,
            pairs.as_slice(),
            share,
        );
        let left = Entry {
            to: new.leaf,
            bound,
        };
        self.conclude(written, steps, home.place, Regroup::Split { left, right })
    }

    // One new leaf in the place of the key's and the next one.
    fn merge(&mut self, home: Home, pairs: &Run) -> Result<usize, Halt>
        ensures done { (x : AnIndex) (w : ℕ × ℕ) → self.old.state ≡ Open x → Working (in_words K.Key.kind) (M.Memory.meaning self.old.memory).live x w home → MergesWith (in_words K.Key.kind) (M.Memory.meaning self.old.memory).live home.next (length (items pairs.now)) → ending result (M.Memory.meaning self.new.memory) (shape_of self.new.state) self.new.taken ≡ decided_ending (in_words K.Key.kind) (M.Memory.meaning self.old.memory) x self.old.taken w (items pairs.now) Merged }
        ensures any { (x : AnIndex) → self.old.state ≡ Open x → MergesWith (in_words K.Key.kind) (M.Memory.meaning self.old.memory).live home.next (length (items pairs.now)) → Answered (M.Memory.meaning self.old.memory) self.old.state self.old.taken (ending result (M.Memory.meaning self.new.memory) (shape_of self.new.state) self.new.taken) }
    {
        let merged = home.next.ok_or(Refusal::Outside)?;
        let elements = elements_in(&mut self.memory, merged)?;
        let all = both(pairs, &pairs_of::<K>(&elements));
        let new = self.new_leaf(home.place)?;
        let next = leaf_past(self.index()?, home.place).unwrap_or(0);
        let mut steps = 0;
        let written = rewrite_one(
            &mut self.memory,
            &mut steps,
            new.at,
            new.leaf,
            next,
            all.as_slice(),
        );
        self.conclude(
            written,
            steps,
            home.place,
            Regroup::Merge { leaf: new.leaf },
        )
    }

    // One new leaf in the place of the key's.
    fn replace(&mut self, home: Home, pairs: &Run) -> Result<usize, Halt>
        ensures done { (x : AnIndex) (w : ℕ × ℕ) → self.old.state ≡ Open x → Working (in_words K.Key.kind) (M.Memory.meaning self.old.memory).live x w home → length (items pairs.now) ≤ 16 → ending result (M.Memory.meaning self.new.memory) (shape_of self.new.state) self.new.taken ≡ decided_ending (in_words K.Key.kind) (M.Memory.meaning self.old.memory) x self.old.taken w (items pairs.now) Replaced }
        ensures any { (x : AnIndex) → self.old.state ≡ Open x → length (items pairs.now) ≤ 16 → Answered (M.Memory.meaning self.old.memory) self.old.state self.old.taken (ending result (M.Memory.meaning self.new.memory) (shape_of self.new.state) self.new.taken) }
    {
        let new = self.new_leaf(home.place)?;
        let next = home.next.unwrap_or(0);
        let mut steps = 0;
        let written = rewrite_one(
            &mut self.memory,
            &mut steps,
            new.at,
            new.leaf,
            next,
            pairs.as_slice(),
        );
        self.conclude(
            written,
            steps,
            home.place,
            Regroup::Replace { leaf: new.leaf },
        )
    }

    // How many elements the next leaf counts, if there is one.
    fn next_count(&mut self, next: Option<usize>) -> Result<Option<usize>, Refusal>
        ensures same { M.Memory.meaning self.new.memory ≡ M.Memory.meaning self.old.memory }
        ensures state { self.new.state ≡ self.old.state }
        ensures taken { self.new.taken ≡ self.old.taken }
        ensures value { result ≡ count_next (M.Memory.meaning self.old.memory).live next }
    {
        match next {
            None => Ok(None),
            Some(leaf) => Ok(Some(count_in(&mut self.memory, leaf)?)),
        }
    }

    // Writes a key's leaf anew, with its pairs after the call.
    pub(crate) fn rewrite(&mut self, home: Home, pairs: &Run, call: Call) -> Result<usize, Halt>
        ensures done { (x : AnIndex) (w : ℕ × ℕ) → self.old.state ≡ Open x → Working (in_words K.Key.kind) (M.Memory.meaning self.old.memory).live x w home → (call ≡ Remove → length (items pairs.now) ≤ 16) → ending result (M.Memory.meaning self.new.memory) (shape_of self.new.state) self.new.taken ≡ rewrite_ending (in_words K.Key.kind) (M.Memory.meaning self.old.memory) x self.old.taken w call (items pairs.now) }
        ensures any { (x : AnIndex) → self.old.state ≡ Open x → (call ≡ Remove → length (items pairs.now) ≤ 16) → Answered (M.Memory.meaning self.old.memory) self.old.state self.old.taken (ending result (M.Memory.meaning self.new.memory) (shape_of self.new.state) self.new.taken) }
    {
        let count = self.next_count(home.next)?;
        match decide(call.may_split(), pairs.len(), count) {
            Decision::Split { left } => self.split(home, pairs, left),
            Decision::Merge => self.merge(home, pairs),
            Decision::Replace => self.replace(home, pairs),
        }
    }
}

// What the index of an open logbook tells of places and leaves.
ghost use Rattle.std.specs.Prelude.{◌≡◌, slice_index_or, Err, MatchResult};
ghost use Rattle.index.specs.Meaning.{grouped, listed};
ghost use Rattle.index.specs.Nodes.{bounds, entry};
ghost use Rattle.index.specs.Search.{Ascending, front, search};
ghost use Rattle.keys.specs.InWords.{in_words};
ghost use Rattle.tree.specs.Telling.{Rising, indexed, leaf_for_key};
ghost use Rattle.tree.specs.Walk.{First, Located, HomeIn, leaf_of, stepped};
ghost use Rattle.tree.specs.declared.logbook.State.TheVariants.{Open};

use super::{Logbook, State};
use index::table::{Index, Place};
use keys::Key;
use memory::Memory;
use refusal::Refusal;

// The leaf that the index locates for a key.
fn located<K: Key>(index: &Index, key: &K) -> usize
    ensures { Ascending (in_words K.Key.kind) (front (bounds (listed index.now))) → result ≡ (slice_index_or (listed index.now) (search (in_words K.Key.kind) (K.Key.kind.form key.now) (bounds (listed index.now))) (entry 0 (0, 0))).to }
{
    let place = index.locate::<K>(key);
    index.entry(place).unwrap().to
}

// Where a key belongs: the place of its leaf, the leaf, and the next leaf, if there is one.
#[derive(Clone, Copy)]
pub(crate) struct Home {
    pub(crate) place: Place,
    pub(crate) leaf: usize,
    pub(crate) next: Option<usize>,
}

// The leaf that a place holds, if there is a place.
pub(crate) fn leaf_at(index: &Index, place: Option<Place>) -> Option<usize>
    ensures { result ≡ leaf_of (grouped index.now) place }
{
    index.entry(place?).map(|entry| entry.to)
}

impl<K: Key, M: Memory> Logbook<K, M> {
    // The index of an open logbook; refused unless it is open.
    pub(crate) fn index(&self) -> Result<&Index, Refusal>
        ensures { MatchResult result (λ index. self.now.state ≡ Open index.now) (λ refusal. indexed self.now.state ≡ Err refusal) }
    {
        match &self.state {
            State::Blank => Err(Refusal::Blank),
            State::Dark => Err(Refusal::NoPower),
            State::Open(index) => Ok(index),
        }
    }

    // The leaf where a key belongs; refused unless the logbook is open.
    pub(crate) fn leaf_for(&self, key: &K) -> Result<usize, Refusal>
        ensures { Rising (in_words K.Key.kind) self.now.state → result ≡ leaf_for_key (in_words K.Key.kind) self.now.state (K.Key.kind.form key.now) }
    {
        let index = self.index()?;
        Ok(located::<K>(index, key))
    }

    // The place where a key belongs; refused unless the logbook is open.
    pub(crate) fn place_for(&self, key: &K) -> Result<Place, Refusal>
        ensures { MatchResult result (λ place. Located (in_words K.Key.kind) self.now.state (K.Key.kind.form key.now) place) (λ refusal. indexed self.now.state ≡ Err refusal) }
    {
        let index = self.index()?;
        Ok(index.locate::<K>(key))
    }

    // Where a key belongs; refused unless the logbook is open.
    pub(crate) fn home(&self, key: &K) -> Result<Home, Refusal>
        ensures { MatchResult result (λ home. HomeIn (in_words K.Key.kind) self.now.state (K.Key.kind.form key.now) home) (λ refusal. indexed self.now.state ≡ Err refusal) }
    {
        let index = self.index()?;
        let place = index.locate::<K>(key);
        Ok(Home {
            place,
            leaf: index.entry(place).unwrap().to,
            next: leaf_at(index, index.after(place)),
        })
    }

    // The place of the first leaf; refused unless the logbook is open.
    pub(crate) fn first(&self) -> Result<Place, Refusal>
        ensures { MatchResult result (λ place. First self.now.state place) (λ refusal. indexed self.now.state ≡ Err refusal) }
    {
        let index = self.index()?;
        Ok(index.first())
    }

    // The leaf at a place, and the place after it.
    pub(crate) fn step(&self, place: Place) -> Result<(usize, Option<Place>), Refusal>
        ensures { result ≡ stepped self.now.state place }
    {
        let index = self.index()?;
        let entry = index.entry(place).ok_or(Refusal::Outside)?;
        Ok((entry.to, index.after(place)))
    }
}

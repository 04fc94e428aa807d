// What a fixed list does.
ghost use Rattle.std.specs.Prelude.{◌≡◌, ◌≤◌, ◌<◌, [], ◌∷◌, length, slice_get, slice_set};
ghost use Rattle.std.specs.List.{remove};
ghost use Rattle.fixed_vec.specs.Items.{inserted, items, joined, room};

use crate::FixedVec;

// There is no room.
#[derive(Clone, Copy, PartialEq, Eq, Debug)]
pub struct Full;

impl<T: Copy, const N: usize> FixedVec<T, N> {
    // No items; every slot holds the blank.
    pub fn new(blank: T) -> Self
        ensures { items result ≡ [] }
    {
        FixedVec {
            slots: [blank; N],
            len: 0,
        }
    }

    // Takes all items out.
    pub fn clear(&mut self)
        ensures { items self.new ≡ [] }
    {
        self.len = 0;
    }

    pub fn len(&self) -> usize
        ensures value { result ≡ length (items self.now) }
        ensures fits { result ≤ N }
    {
        self.as_slice().len()
    }

    pub fn as_slice(&self) -> &[T]
        ensures value { result.now ≡ items self.now }
        ensures fits { length result.now ≤ N }
    {
        let slots = &self.slots[..];
        &slots[..self.len]
    }

    // One item more; refused where there is no room.
    pub fn push(&mut self, item: T) -> Result<(), Full>
        ensures answer { result ≡ room N (items self.old) (item ∷ []) }
        ensures list { items self.new ≡ joined N (items self.old) (item ∷ []) }
    {
        if self.len >= N {
            return Err(Full);
        }
        self.slots[self.len] = item;
        self.len += 1;
        Ok(())
    }

    // Many items more; refused where there is no room for all.
    pub fn extend_from_slice(&mut self, more: &[T]) -> Result<(), Full>
        ensures answer { result ≡ room N (items self.old) more.now }
        ensures list { items self.new ≡ joined N (items self.old) more.now }
    {
        if more.len() > N - self.len {
            return Err(Full);
        }
        let end = self.len + more.len();
        let slots = &mut self.slots[..];
        slots[self.len..end].copy_from_slice(more);
        self.len = end;
        Ok(())
    }

    // One item more, before the one at a place, or after all where there is none; refused where there is no room.
    pub fn insert(&mut self, at: usize, item: T) -> Result<(), Full>
        ensures answer { result ≡ room N (items self.old) (item ∷ []) }
        ensures list { items self.new ≡ inserted N (items self.old) at item }
    {
        if self.len >= N {
            return Err(Full);
        }
        let len = self.len;
        let place = at.min(len);
        let slots = &mut self.slots[..];
        slots.copy_within(place..len, place + 1);
        slots[place] = item;
        self.len = len + 1;
        Ok(())
    }

    // Takes the item at a place out; nothing where there is none.
    pub fn remove(&mut self, at: usize)
        ensures { items self.new ≡ remove (items self.old) at }
    {
        let len = self.len;
        if at >= len {
            return;
        }
        let slots = &mut self.slots[..];
        slots.copy_within(at + 1..len, at);
        self.len = len - 1;
    }

    // Another item in the place of one, which is answered; nothing where there is none.
    pub fn replace(&mut self, at: usize, item: T) -> Option<T>
        ensures answer { result ≡ slice_get (items self.old) at }
        ensures list { items self.new ≡ slice_set (items self.old) at item }
    {
        if at >= self.len {
            return None;
        }
        let old = self.slots[at];
        self.slots[at] = item;
        Some(old)
    }
}

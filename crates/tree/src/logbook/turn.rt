// Put, change and remove.
ghost use Rattle.std.specs.Prelude.{◌≡◌, ◌≤◌, [], length, IfOk};
ghost use Rattle.fixed_vec.specs.Items.{items};
ghost use Rattle.keys.specs.InWords.{in_words};
ghost use Rattle.leaves.specs.Layout.{Within, count_of};
ghost use Rattle.leaves.specs.Pairs.{folded, lookup};
ghost use Rattle.books.specs.Footprint.{book};
ghost use Rattle.plans.specs.Deeds.{call_of, done, key_of};
ghost use Rattle.plans.specs.declared.deed.Call.TheVariants.{Remove as RemoveCall};
ghost use Rattle.plans.specs.declared.deed.Deed.TheVariants.{Change, Put, Remove};
ghost use Rattle.plans.specs.Plan.{pairs_of, wish as wish_of};
ghost use Rattle.index.specs.declared.table.Index.{Index};
ghost use Rattle.tree.specs.declared.logbook.State.TheVariants.{Open};
ghost use Rattle.tree.specs.Anywhere.{Answered, removed_steps};
ghost use Rattle.tree.specs.Shape.{shape_of};
ghost use Rattle.tree.specs.Sound.{Sound};
ghost use Rattle.tree.specs.Turning.{Working, call_ending, changed, ending, rewrite_ending, RemovalEnds, told, wished};

use super::Logbook;
use super::carry::Halt;
use super::place::Home;
use fixed_vec::FixedVec;
use keys::Key;
use leaves::leaf::ask::{elements_in, look_in};
use leaves::leaf::change::{change_in, put_into, remove_from};
use leaves::leaf::{Elements, Pair, Run};
use memory::Memory;
use plans::deed::Deed;
use refusal::Refusal;

// What a granted call tells: the reading that its key had, and its steps.
#[derive(Clone, Copy)]
pub struct Done {
    pub held: Option<u64>,
    pub steps: usize,
}

// A pair taken out: its reading, and the steps.
#[derive(Clone, Copy, PartialEq, Eq, Debug)]
pub struct Removed {
    pub reading: u64,
    pub steps: usize,
}

// Signs and readings that a call puts to its key; none where there is nothing to do.
type Changes = FixedVec<(u64, u64), 2>;

fn changes(list: &[(u64, u64)]) -> Changes
    requires { length list.now ≤ 2 }
    ensures { items result ≡ list.now }
{
    let mut out = Changes::new((0, 0));
    out.extend_from_slice(list).unwrap();
    out
}

// What a call comes to by the reading that its key has.
fn wish(deed: Deed, held: Option<u64>) -> Result<Changes, Refusal>
    ensures { wished result ≡ wish_of deed held }
{
    match (deed, held) {
        (Deed::Put { reading, .. }, None) => Ok(changes(&[(1, reading)])),
        (Deed::Put { .. }, Some(_)) => Err(Refusal::Present),
        (Deed::Change { reading, .. }, Some(old)) if old == reading => Ok(changes(&[])),
        (Deed::Change { reading, .. }, Some(old)) => Ok(changes(&[(2, old), (1, reading)])),
        (Deed::Remove { .. }, Some(old)) => Ok(changes(&[(2, old)])),
        (_, None) => Err(Refusal::Absent),
    }
}

// The pairs of a leaf after a call.
fn pairs_after<K: Key>(elements: &Elements, deed: Deed) -> Run
    ensures value { items result ≡ done (in_words K.Key.kind) deed (folded (in_words K.Key.kind) [] (items elements.now)) }
    ensures fits { call_of deed ≡ RemoveCall → length (items result) ≤ 16 }
{
    match deed {
        Deed::Put { key, reading } => put_into::<K>(elements, Pair { key, reading }),
        Deed::Change { key, reading } => change_in::<K>(elements, Pair { key, reading }),
        Deed::Remove { key } => remove_from::<K>(elements, key),
    }
}

impl<K: Key, M: Memory> Logbook<K, M> {
    // Carries a call out: by an append where its changes fit into the leaf, else by a rewrite.
    fn carry(
        &mut self,
        home: Home,
        count: usize,
        deed: Deed,
        list: &[(u64, u64)],
    ) -> Result<usize, Halt>
        ensures done { (x : Index) → self.old.state ≡ Open x → Working (in_words K.Key.kind) (M.Memory.meaning self.old.memory).live x (key_of deed) home → count ≡ count_of (M.Memory.meaning self.old.memory).live home.leaf → changed list.now ≡ wish_of deed (lookup (key_of deed) (pairs_of (in_words K.Key.kind) (M.Memory.meaning self.old.memory).live home.leaf)) → ending result (M.Memory.meaning self.new.memory) (shape_of self.new.state) self.new.taken ≡ call_ending (in_words K.Key.kind) (M.Memory.meaning self.old.memory) (Open x) self.old.taken deed }
        ensures any { (x : Index) → self.old.state ≡ Open x → Within (M.Memory.meaning self.old.memory).live home.leaf → Answered (M.Memory.meaning self.old.memory) self.old.state self.old.taken (ending result (M.Memory.meaning self.new.memory) (shape_of self.new.state) self.new.taken) }
    {
        if list.is_empty() {
            return Ok(0);
        }
        if count.saturating_add(list.len()) <= 16 {
            return self.append(home.leaf, count, deed.key(), list);
        }
        self.carry_anew(home, deed)
    }

    // Carries a call out by a rewrite. It stands apart from the others so that an append does not pay for the room that it takes.
    #[inline(never)]
    fn carry_anew(&mut self, home: Home, deed: Deed) -> Result<usize, Halt>
        ensures done { (x : Index) → self.old.state ≡ Open x → Working (in_words K.Key.kind) (M.Memory.meaning self.old.memory).live x (key_of deed) home → ending result (M.Memory.meaning self.new.memory) (shape_of self.new.state) self.new.taken ≡ rewrite_ending (in_words K.Key.kind) (M.Memory.meaning self.old.memory) x self.old.taken (key_of deed) (call_of deed) (done (in_words K.Key.kind) deed (pairs_of (in_words K.Key.kind) (M.Memory.meaning self.old.memory).live home.leaf)) }
        ensures any { (x : Index) → self.old.state ≡ Open x → Answered (M.Memory.meaning self.old.memory) self.old.state self.old.taken (ending result (M.Memory.meaning self.new.memory) (shape_of self.new.state) self.new.taken) }
    {
        let elements = elements_in(&mut self.memory, home.leaf)?;
        self.rewrite(home, &pairs_after::<K>(&elements, deed), deed.call())
    }

    // A call of any of the three, which puts a key to use as the deed has it.
    fn turn(&mut self, key: &K, deed: Deed) -> Result<Done, Halt>
        requires { key_of deed ≡ K.Key.kind.form key.now }
        ensures ending { Sound (in_words K.Key.kind) (M.Memory.meaning self.old.memory).live self.old.state → ending (told result) (M.Memory.meaning self.new.memory) (shape_of self.new.state) self.new.taken ≡ call_ending (in_words K.Key.kind) (M.Memory.meaning self.old.memory) self.old.state self.old.taken deed }
        ensures held { Sound (in_words K.Key.kind) (M.Memory.meaning self.old.memory).live self.old.state → IfOk result (λ done. done.held ≡ lookup (key_of deed) (book (in_words K.Key.kind) (M.Memory.meaning self.old.memory).live)) }
        ensures any { Answered (M.Memory.meaning self.old.memory) self.old.state self.old.taken (ending (told result) (M.Memory.meaning self.new.memory) (shape_of self.new.state) self.new.taken) }
    {
        let home = self.home(key)?;
        let seen = look_in(&mut self.memory, home.leaf, deed.key())?;
        let list = wish(deed, seen.held)?;
        let steps = self.carry(home, seen.count, deed, list.as_slice())?;
        Ok(Done {
            held: seen.held,
            steps,
        })
    }

    // Adds a pair; refused where the key is in the book. Told: the steps. Here and in the next two, `any` holds of every memory, also of one
    // whose words were changed past the logbook.
    pub fn put(&mut self, key: &K, reading: u64) -> Result<usize, Halt>
        ensures ending { Sound (in_words K.Key.kind) (M.Memory.meaning self.old.memory).live self.old.state → ending result (M.Memory.meaning self.new.memory) (shape_of self.new.state) self.new.taken ≡ call_ending (in_words K.Key.kind) (M.Memory.meaning self.old.memory) self.old.state self.old.taken (Put (K.Key.kind.form key.now) reading) }
        ensures sound { Sound (in_words K.Key.kind) (M.Memory.meaning self.old.memory).live self.old.state → Sound (in_words K.Key.kind) (M.Memory.meaning self.new.memory).live self.new.state }
        ensures any { Answered (M.Memory.meaning self.old.memory) self.old.state self.old.taken (ending result (M.Memory.meaning self.new.memory) (shape_of self.new.state) self.new.taken) }
    {
        let words = key.pack();
        let deed = Deed::Put {
            key: words,
            reading,
        };
        Ok(self.turn(key, deed)?.steps)
    }

    // Gives a key another reading; refused where the key is not in the book. Told: the steps, none for the reading that it has.
    pub fn change(&mut self, key: &K, reading: u64) -> Result<usize, Halt>
        ensures ending { Sound (in_words K.Key.kind) (M.Memory.meaning self.old.memory).live self.old.state → ending result (M.Memory.meaning self.new.memory) (shape_of self.new.state) self.new.taken ≡ call_ending (in_words K.Key.kind) (M.Memory.meaning self.old.memory) self.old.state self.old.taken (Change (K.Key.kind.form key.now) reading) }
        ensures sound { Sound (in_words K.Key.kind) (M.Memory.meaning self.old.memory).live self.old.state → Sound (in_words K.Key.kind) (M.Memory.meaning self.new.memory).live self.new.state }
        ensures any { Answered (M.Memory.meaning self.old.memory) self.old.state self.old.taken (ending result (M.Memory.meaning self.new.memory) (shape_of self.new.state) self.new.taken) }
    {
        let words = key.pack();
        let deed = Deed::Change {
            key: words,
            reading,
        };
        Ok(self.turn(key, deed)?.steps)
    }

    // Takes a pair out; refused where the key is not in the book. Told: its reading, and the steps.
    pub fn remove(&mut self, key: &K) -> Result<Removed, Halt>
        ensures ending { Sound (in_words K.Key.kind) (M.Memory.meaning self.old.memory).live self.old.state → RemovalEnds (M.Memory.meaning self.new.memory) (shape_of self.new.state) self.new.taken result (lookup (K.Key.kind.form key.now) (book (in_words K.Key.kind) (M.Memory.meaning self.old.memory).live)) (call_ending (in_words K.Key.kind) (M.Memory.meaning self.old.memory) self.old.state self.old.taken (Remove (K.Key.kind.form key.now))) }
        ensures sound { Sound (in_words K.Key.kind) (M.Memory.meaning self.old.memory).live self.old.state → Sound (in_words K.Key.kind) (M.Memory.meaning self.new.memory).live self.new.state }
        ensures any { Answered (M.Memory.meaning self.old.memory) self.old.state self.old.taken (ending (removed_steps result) (M.Memory.meaning self.new.memory) (shape_of self.new.state) self.new.taken) }
    {
        let words = key.pack();
        let done = self.turn(key, Deed::Remove { key: words })?;
        Ok(Removed {
            reading: done.held.unwrap_or(0),
            steps: done.steps,
        })
    }
}

// What a rewrite does to the index, once its line writes are granted.
ghost use Rattle.std.specs.Prelude.{◌≡◌, Some};
ghost use Rattle.index.specs.declared.table.Index.{Index as AnIndex};
ghost use Rattle.index.specs.Meaning.{grouped};
ghost use Rattle.tree.specs.declared.logbook.State.TheVariants.{Open};
ghost use Rattle.tree.specs.Shape.{groups, shape_of};
ghost use Rattle.tree.specs.Turning.{ending, last_taken, regroup_to, wrote};

use super::carry::Halt;
use super::{Logbook, State};
use index::node::Entry;
use index::table::{Index, Place};
use keys::Key;
use memory::Memory;
use refusal::Refusal;

// The new leaves: two in the place of one, the left with its bound; one in the place of two; one in the place of one.
#[derive(Clone, Copy)]
pub enum Regroup {
    Split { left: Entry, right: usize },
    Merge { leaf: usize },
    Replace { leaf: usize },
}

// The new leaf that was taken last.
fn last(change: Regroup) -> usize
    ensures { result ≡ last_taken change }
{
    match change {
        Regroup::Split { right, .. } => right,
        Regroup::Merge { leaf } | Regroup::Replace { leaf } => leaf,
    }
}

fn apply(index: &mut Index, place: Place, change: Regroup)
    ensures { grouped index.new ≡ regroup_to (grouped index.old) place change }
{
    let _ = match change {
        Regroup::Split { left, right } => index.split(place, left, right),
        Regroup::Merge { leaf } => index.merge(place, leaf),
        Regroup::Replace { leaf } => index.replace(place, leaf),
    };
}

impl<K: Key, M: Memory> Logbook<K, M> {
    // Ends a rewrite: a refusal of the memory makes the logbook dark; granted, the index takes the change.
    pub(crate) fn conclude(
        &mut self,
        written: Result<(), Refusal>,
        steps: usize,
        place: Place,
        change: Regroup,
    ) -> Result<usize, Halt>
        ensures memory { self.new.memory ≡ self.old.memory }
        ensures ending { (x : AnIndex) → self.old.state ≡ Open x → ending result (M.Memory.meaning self.new.memory) (shape_of self.new.state) self.new.taken ≡ wrote (M.Memory.meaning self.old.memory) steps written (groups (regroup_to (grouped x) place change)) self.old.taken (Some (last_taken change)) }
    {
        let steps = self.close(written, steps)?;
        if let State::Open(index) = &mut self.state {
            apply(index, place, change);
        }
        self.taken = Some(last(change));
        Ok(steps)
    }
}

// Where a fault of opening lies.
ghost use Rattle.std.specs.Prelude.{◌≡◌, ◌≤◌, ◌+◌, ◌-◌, ◌==◌, cond};
ghost use Rattle.leaves.specs.Layout.{leaf_at, slot_at};
ghost use Rattle.opened.specs.Places.{from, stumbled};

use leaves::open::Fault;
use refusal::Refusal;

// Words one after the other: the first of them, and how many.
#[derive(Clone, Copy)]
pub struct Place {
    pub first: usize,
    pub many: usize,
}

fn words_at(first: usize, many: usize) -> Place
    ensures { result ≡ from first many }
{
    Place { first, many }
}

// The first word of a leaf, by its number from 1.
fn leaf_start(leaf: usize) -> usize
    ensures { leaf ≤ 64 → result ≡ leaf_at leaf }
{
    leaf.saturating_sub(1).saturating_mul(72).saturating_add(8)
}

// The link that the leaf holds, word 2 for none.
fn link(leaf: usize) -> Place
    ensures { leaf ≤ 64 → result ≡ from (cond (leaf == 0) 2 (leaf_at leaf)) 1 }
{
    if leaf == 0 {
        return words_at(2, 1);
    }
    words_at(leaf_start(leaf), 1)
}

// The leaf's count and form, or the words of a slot, counted from 1.
fn in_leaf(leaf: usize, slot: usize) -> Place
    ensures { leaf ≤ 64 → slot ≤ 16 → result ≡ cond (slot == 0) (from (leaf_at leaf + 1) 2) (from (slot_at leaf (slot - 1)) 4) }
{
    let start = leaf_start(leaf);
    if slot == 0 {
        return words_at(start.saturating_add(1), 2);
    }
    let before = (slot - 1).saturating_mul(4);
    words_at(start.saturating_add(8).saturating_add(before), 4)
}

// The words that opening stumbled over; none where there are too few of them.
pub fn place_of(fault: Fault) -> Option<Place>
    ensures { fault.leaf ≤ 64 → fault.slot ≤ 16 → result ≡ stumbled fault.refusal fault.leaf fault.slot }
{
    match fault.refusal {
        Refusal::WrongMark => Some(words_at(0, 1)),
        Refusal::OtherKind => Some(words_at(1, 1)),
        Refusal::LeafCount => Some(words_at(3, 1)),
        Refusal::BadLink => Some(link(fault.leaf)),
        Refusal::BadLeaf => Some(in_leaf(fault.leaf, fault.slot)),
        _ => None,
    }
}

//! Rewrites: leaves of the book written anew into free ones, and then one word that links them in place of the old. How they turn the
//! book, what they cost, and the code that writes them.
#![tactic(auto)]

ghost use Rattle.std.specs.Prelude.{◌≡◌, ◌+◌, ◌*◌, ◌/◌, ◌^◌, ◌<◌, ◌≤◌, true, false, ◌⊎◌, ◌∷◌, ◌++◌, [], length, take, drop, flat_map, Err};
ghost use Rattle.refusal.specs.declared.Refusal.TheVariants.{Outside};
ghost use Rattle.writes.specs.Writes.{lines_for, onward, outcome, perform, row, rows, single};
ghost use Rattle.rewrites.specs.Bounds.{RewriteBounds};
ghost use Rattle.rewrites.specs.Shares.{shared};
ghost use Rattle.rewrites.specs.Example.{Example};
ghost use Rattle.rewrites.specs.Parity.{NeverEmpty};
ghost use Rattle.rewrites.specs.Rewrite.{CostsFew, LeafCost, Replacements, RewriteCost, Rewritings, leaf_lines, leaf_steps, pair_words};

use leaves::leaf::Pair;
use memory::Memory;
use refusal::Refusal;
use writes::write_row;

// Writes one or two pairs from a line's first word on, and flushes the line.
fn write_two<M: Memory>(
    memory: &mut M,
    steps: &mut usize,
    at: usize,
    pairs: &[Pair],
) -> Result<(), Refusal>
    requires { length pairs.now ≤ 2 }
    ensures done { at + 4 * length pairs.now < 2 ^ 64 → steps.old + 4 * length pairs.now + 1 < 2 ^ 64 → outcome (M.Memory.meaning memory.new) steps.new result ≡ onward steps.old (perform (M.Memory.meaning memory.old) (row at (flat_map pair_words pairs.now) ∷ [])) }
    ensures few { steps.new ≤ steps.old + 4 * length pairs.now + 1 }
{
    match pairs {
        [a, b] => write_row(
            memory,
            steps,
            at,
            &[
                1, a.key.0, a.key.1, a.reading, 1, b.key.0, b.key.1, b.reading,
            ],
        ),
        [a] => write_row(memory, steps, at, &[1, a.key.0, a.key.1, a.reading]),
        _ => write_row(memory, steps, at, &[]),
    }
}

// Writes pairs from a line's first word on, two to a line, until the first refusal. Granted steps are counted.
fn write_pairs<M: Memory>(
    memory: &mut M,
    steps: &mut usize,
    first: usize,
    pairs: &[Pair],
) -> Result<(), Refusal>
    ensures done { first + 4 * length pairs.now < 2 ^ 64 → steps.old + 4 * length pairs.now + lines_for (4 * length pairs.now) < 2 ^ 64 → outcome (M.Memory.meaning memory.new) steps.new result ≡ onward steps.old (perform (M.Memory.meaning memory.old) (rows (lines_for (length (flat_map pair_words pairs.now))) first (flat_map pair_words pairs.now))) }
    ensures few { steps.new ≤ steps.old + 4 * length pairs.now + lines_for (4 * length pairs.now) }
{
    let mut at = first;
    for two in pairs.chunks(2) {
        write_two(memory, steps, at, two)?;
        at = at.saturating_add(8);
    }
    Ok(())
}

// Writes a new leaf, which nothing links yet: its pairs from slot 0 on, and then its next, its count and form 0, until the first refusal.
// Granted steps are counted. Refused without a step where there is no such leaf, or for more pairs than it has slots.
pub fn write_leaf<M: Memory>(
    memory: &mut M,
    steps: &mut usize,
    leaf: usize,
    next: usize,
    pairs: &[Pair],
) -> Result<(), Refusal>
    ensures done { 1 ≤ leaf → leaf ≤ 64 → length pairs.now ≤ 16 → steps.old + leaf_steps (length pairs.now) < 2 ^ 64 → outcome (M.Memory.meaning memory.new) steps.new result ≡ onward steps.old (perform (M.Memory.meaning memory.old) (leaf_lines next (record { leaf = leaf; content = pairs.now }))) }
    ensures few { steps.new ≤ steps.old + leaf_steps (length pairs.now) }
    ensures outside { (leaf < 1) ⊎ (64 < leaf) ⊎ (16 < length pairs.now) → outcome (M.Memory.meaning memory.new) steps.new result ≡ outcome (M.Memory.meaning memory.old) steps.old (Err Outside) }
{
    if !(1..=64).contains(&leaf) || pairs.len() > 16 {
        return Err(Refusal::Outside);
    }
    let start = 8 + 72 * (leaf - 1);
    write_pairs(memory, steps, start + 8, pairs)?;
    write_row(memory, steps, start, &[next as u64, pairs.len() as u64, 0])
}

// Makes one word link a leaf: the commit of a rewrite. Granted steps are counted. The place is not checked here: the memory refuses
// one that is outside.
pub fn link<M: Memory>(
    memory: &mut M,
    steps: &mut usize,
    at: usize,
    leaf: usize,
) -> Result<(), Refusal>
    ensures done { at + 1 < 2 ^ 64 → steps.old + 2 < 2 ^ 64 → outcome (M.Memory.meaning memory.new) steps.new result ≡ onward steps.old (perform (M.Memory.meaning memory.old) (single (record { at = at; word = leaf }) ∷ [])) }
    ensures few { steps.new ≤ steps.old + 2 }
{
    write_row(memory, steps, at, &[leaf as u64])
}

// Writes one new leaf, and then the word that links it, until the first refusal: a merge and a replacement. Granted steps are counted.
// Refused without a step where there is no such leaf, or for more pairs than it has slots.
pub fn rewrite_one<M: Memory>(
    memory: &mut M,
    steps: &mut usize,
    at: usize,
    leaf: usize,
    next: usize,
    pairs: &[Pair],
) -> Result<(), Refusal>
    ensures done { 1 ≤ leaf → leaf ≤ 64 → length pairs.now ≤ 16 → at + 1 < 2 ^ 64 → steps.old + 87 < 2 ^ 64 → outcome (M.Memory.meaning memory.new) steps.new result ≡ onward steps.old (perform (M.Memory.meaning memory.old) (leaf_lines next (record { leaf = leaf; content = pairs.now }) ++ (single (record { at = at; word = leaf }) ∷ []))) }
    ensures few { steps.new ≤ steps.old + 87 }
    ensures outside { (leaf < 1) ⊎ (64 < leaf) ⊎ (16 < length pairs.now) → outcome (M.Memory.meaning memory.new) steps.new result ≡ outcome (M.Memory.meaning memory.old) steps.old (Err Outside) }
{
    write_leaf(memory, steps, leaf, next, pairs)?;
    link(memory, steps, at, leaf)
}

// Whether both leaves are there and have room for their shares of at most 17 pairs in all.
fn can_share(left: usize, right: usize, pairs: &[Pair], share: usize) -> bool
    ensures { result ≡ shared left right (length pairs.now) share }
{
    let leaves = 1..=64;
    leaves.contains(&left)
        && leaves.contains(&right)
        && pairs.len() <= 17
        && share <= pairs.len()
        && share <= 16
        && pairs.len() - share <= 16
}

// Writes two new leaves, the first so many pairs into the left one and the others into the right one, and then the word that links
// the left one, until the first refusal: a split. Granted steps are counted. Refused without a step where one of the leaves is not
// there or has no room for its share, or for more than 17 pairs.
pub fn rewrite_two<M: Memory>(
    memory: &mut M,
    steps: &mut usize,
    at: usize,
    left: usize,
    right: usize,
    next: usize,
    pairs: &[Pair],
    share: usize,
) -> Result<(), Refusal>
    ensures done { shared left right (length pairs.now) share ≡ true → at + 1 < 2 ^ 64 → steps.old + 87 < 2 ^ 64 → outcome (M.Memory.meaning memory.new) steps.new result ≡ onward steps.old (perform (M.Memory.meaning memory.old) (leaf_lines right (record { leaf = left; content = take share pairs.now }) ++ (leaf_lines next (record { leaf = right; content = drop share pairs.now }) ++ (single (record { at = at; word = left }) ∷ [])))) }
    ensures few { steps.new ≤ steps.old + 87 }
    ensures outside { shared left right (length pairs.now) share ≡ false → outcome (M.Memory.meaning memory.new) steps.new result ≡ outcome (M.Memory.meaning memory.old) steps.old (Err Outside) }
{
    if !can_share(left, right, pairs, share) {
        return Err(Refusal::Outside);
    }
    let (first, others) = pairs.split_at(share);
    write_leaf(memory, steps, left, right, first)?;
    write_leaf(memory, steps, right, next, others)?;
    link(memory, steps, at, left)
}

// A rewrite is a turn, whatever leaves it replaces and whatever content takes their place; one that carries a call's elements keeps the
// bounds.
pub fn rewrites_stand()
    ensures turns { Rewritings }
    ensures replaces { Replacements }
    ensures bounds { RewriteBounds }
{}

// The steps of a rewrite, and that 87 suffice for one or two leaves of 17 pairs in all.
pub fn costs_stand()
    ensures leaf { LeafCost }
    ensures rewrite { RewriteCost }
    ensures few { CostsFew }
{}

// A removal never makes an empty leaf.
pub fn removals_stand()
    ensures { NeverEmpty }
{}

// What the laws of appends and of rewrites ask for can be met.
pub fn example_stands()
    ensures { Example }
{}

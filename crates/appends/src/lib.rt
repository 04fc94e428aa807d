//! Appends: elements of one key written after a leaf's own, and then the leaf's count. How they turn the book, and the code that writes them.
#![tactic(auto)]

ghost use Rattle.std.specs.Prelude.{◌≡◌, ◌+◌, ◌*◌, ◌^◌, ◌<◌, ◌≤◌, ◌⊎◌, length, Err};
ghost use Rattle.refusal.specs.declared.Refusal.TheVariants.{Outside};
ghost use Rattle.leaves.specs.Layout.{leaf_at};
ghost use Rattle.writes.specs.Writes.{onward, outcome, perform};
ghost use Rattle.appends.specs.Append.{AppendBounds, AppendCost, Appends, append_lines, slot_lines};
ghost use Rattle.appends.specs.Calls.{CallsAre, CallsFit};
ghost use Rattle.appends.specs.Parity.{Alternates};

use memory::Memory;
use refusal::Refusal;
use writes::write_row;

// The word that a leaf begins at.
fn start_of(leaf: usize) -> usize
    requires { (1 ≤ leaf) × (leaf ≤ 64) }
    ensures { result ≡ leaf_at leaf }
{
    8 + 72 * (leaf - 1)
}

// Writes elements of a key into a leaf from a slot on, a line for each, until the first refusal. Granted steps are counted.
fn write_elements<M: Memory>(
    memory: &mut M,
    steps: &mut usize,
    leaf: usize,
    slot: usize,
    key: (u64, u64),
    elements: &[(u64, u64)],
) -> Result<(), Refusal>
    requires { (1 ≤ leaf) × (leaf ≤ 64) × (slot + length elements.now ≤ 16) }
    ensures done { steps.old + 5 * length elements.now < 2 ^ 64 → outcome (M.Memory.meaning memory.new) steps.new result ≡ onward steps.old (perform (M.Memory.meaning memory.old) (slot_lines leaf slot key elements.now)) }
    ensures few { steps.new ≤ steps.old + 5 * length elements.now }
{
    let first = start_of(leaf) + 8 + 4 * slot;
    for (i, (sign, reading)) in elements.iter().enumerate() {
        write_row(
            memory,
            steps,
            first + 4 * i,
            &[*sign, key.0, key.1, *reading],
        )?;
    }
    Ok(())
}

// Writes elements of a key after the `count` elements of a leaf, and then the leaf's count, until the first refusal. Granted steps
// are counted. Refused without a step where there is no such leaf, or no room in it.
pub fn append<M: Memory>(
    memory: &mut M,
    steps: &mut usize,
    leaf: usize,
    count: usize,
    key: (u64, u64),
    elements: &[(u64, u64)],
) -> Result<(), Refusal>
    ensures done { 1 ≤ leaf → leaf ≤ 64 → count + length elements.now ≤ 16 → steps.old + 5 * length elements.now + 2 < 2 ^ 64 → outcome (M.Memory.meaning memory.new) steps.new result ≡ onward steps.old (perform (M.Memory.meaning memory.old) (append_lines leaf count key elements.now)) }
    ensures outside { (leaf < 1) ⊎ (64 < leaf) ⊎ (16 < count + length elements.now) → outcome (M.Memory.meaning memory.new) steps.new result ≡ outcome (M.Memory.meaning memory.old) steps.old (Err Outside) }
    ensures few { steps.new ≤ steps.old + 5 * length elements.now + 2 }
{
    if !(1..=64).contains(&leaf) || 16 < count.saturating_add(elements.len()) {
        return Err(Refusal::Outside);
    }
    write_elements(memory, steps, leaf, count, key, elements)?;
    let raised = (count + elements.len()) as u64;
    write_row(memory, steps, start_of(leaf) + 1, &[raised])
}

// An append is a turn that keeps the bounds, and what it costs.
pub fn appends_stand()
    ensures turns { Appends }
    ensures bounds { AppendBounds }
    ensures cost { AppendCost }
{}

// What put, remove and change append, and that the leaf of their key takes it.
pub fn calls_stand()
    ensures are { CallsAre }
    ensures fit { CallsFit }
{}

// A leaf without fault has an odd number of pairs where it has an odd number of elements.
pub fn parity_stands()
    ensures { Alternates }
{}

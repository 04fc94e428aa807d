// Where the words of a logbook lie.
ghost use Rattle.std.specs.Prelude.{◌≡◌, ◌+◌, ◌-◌, ◌*◌, ◌≤◌, ◌<◌};

pub const MARK: u64 = 30_366;

// The words that a logbook of so many leaves needs.
pub fn needed(leaves: usize) -> usize
    ensures { leaves ≤ 64 → result ≡ 8 + 72 * leaves }
{
    leaves.saturating_mul(72).saturating_add(8)
}

// A word of a leaf; leaves are counted from 1.
pub fn leaf_word(leaf: usize, word: usize) -> usize
    ensures { leaf ≤ 64 → word < 72 → result ≡ 8 + 72 * (leaf - 1) + word }
{
    needed(leaf.saturating_sub(1)).saturating_add(word)
}

// A word of a slot: sign, first and second word of the key, reading.
pub fn slot_word(leaf: usize, slot: usize, word: usize) -> usize
    ensures { leaf ≤ 64 → slot < 16 → word < 4 → result ≡ 8 + 72 * (leaf - 1) + (8 + 4 * slot + word) }
{
    let in_leaf = slot.saturating_mul(4).saturating_add(8);
    leaf_word(leaf, in_leaf.saturating_add(word))
}

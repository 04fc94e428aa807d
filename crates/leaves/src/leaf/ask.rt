// What one leaf of a memory holds, asked from outside: refused where the leaf is not within the memory or counts too many slots.
ghost use Rattle.std.specs.Prelude.{◌≡◌, length};
ghost use Rattle.keys.specs.InWords.{in_words};
ghost use Rattle.leaves.specs.Opening.{greatest as greatest_of};
ghost use Rattle.leaves.specs.Asking.{count_answer, counted, elements_told, seen};
ghost use Rattle.leaves.specs.Layout.{elements as elements_of};
ghost use Rattle.leaves.specs.Pairs.{first_after, lookup, pairs};

use super::{Elements, Pair, Seen};
use crate::leaf::read::{elements, find_by_reads, greatest_by_reads, start_of, word_at};
use crate::leaf::sorted::{load, next};
use keys::Key;
use memory::Memory;
use refusal::Refusal;

// How many slots of the leaf are counted.
pub fn count_in<M: Memory>(memory: &mut M, leaf: usize) -> Result<usize, Refusal>
    ensures same { M.Memory.meaning memory.new ≡ M.Memory.meaning memory.old }
    ensures value { result ≡ count_answer (M.Memory.meaning memory.old).live leaf }
{
    if leaf < 1 || leaf > 64 || memory.size() < 8 + 72 * leaf {
        return Err(Refusal::Outside);
    }
    let count = word_at(memory, start_of(leaf) + 1);
    if count > 16 {
        return Err(Refusal::BadLeaf);
    }
    Ok(count as usize)
}

// The counted elements of the leaf, each of their words read once.
pub fn elements_in<M: Memory>(memory: &mut M, leaf: usize) -> Result<Elements, Refusal>
    ensures same { M.Memory.meaning memory.new ≡ M.Memory.meaning memory.old }
    ensures value { elements_told result ≡ counted (M.Memory.meaning memory.old).live leaf (elements_of (M.Memory.meaning memory.old).live leaf) }
{
    let count = count_in(memory, leaf)?;
    Ok(elements(memory, leaf, count))
}

// What a leaf counts, and the reading that its counted elements leave a key with; no word is read twice.
pub fn look_in<M: Memory>(memory: &mut M, leaf: usize, key: (u64, u64)) -> Result<Seen, Refusal>
    ensures same { M.Memory.meaning memory.new ≡ M.Memory.meaning memory.old }
    ensures value { result ≡ counted (M.Memory.meaning memory.old).live leaf (seen (M.Memory.meaning memory.old).live leaf key) }
{
    let count = count_in(memory, leaf)?;
    let held = find_by_reads(memory, leaf, count, key);
    Ok(Seen { count, held })
}

// The reading of a key, if the leaf has its pair.
pub fn find_in<K: Key, M: Memory>(
    memory: &mut M,
    leaf: usize,
    key: (u64, u64),
) -> Result<Option<u64>, Refusal>
    ensures same { M.Memory.meaning memory.new ≡ M.Memory.meaning memory.old }
    ensures value { result ≡ counted (M.Memory.meaning memory.old).live leaf (λ n. lookup key (pairs (in_words K.Key.kind) (M.Memory.meaning memory.old).live leaf n)) }
{
    let count = count_in(memory, leaf)?;
    Ok(find_by_reads(memory, leaf, count, key))
}

// The pair of the smallest key of the leaf that is after the given one, if there is one.
pub fn next_in<K: Key, M: Memory>(
    memory: &mut M,
    leaf: usize,
    key: (u64, u64),
) -> Result<Option<Pair>, Refusal>
    ensures same { M.Memory.meaning memory.new ≡ M.Memory.meaning memory.old }
    ensures value { result ≡ counted (M.Memory.meaning memory.old).live leaf (λ n. first_after (in_words K.Key.kind) key (pairs (in_words K.Key.kind) (M.Memory.meaning memory.old).live leaf n)) }
{
    let elements = elements_in(memory, leaf)?;
    Ok(next::<K>(elements.as_slice(), key))
}

// How many pairs the leaf has.
pub fn pairs_in<K: Key, M: Memory>(memory: &mut M, leaf: usize) -> Result<usize, Refusal>
    ensures same { M.Memory.meaning memory.new ≡ M.Memory.meaning memory.old }
    ensures value { result ≡ counted (M.Memory.meaning memory.old).live leaf (λ n. length (pairs (in_words K.Key.kind) (M.Memory.meaning memory.old).live leaf n)) }
{
    let count = count_in(memory, leaf)?;
    // An empty leaf has no pairs, and no list is made to count them.
    if count == 0 {
        return Ok(0);
    }
    let elements = elements(memory, leaf, count);
    let run = load::<K>(&elements);
    Ok(run.len())
}

// The greatest key that the leaf counts, if it counts one.
pub fn greatest_in<K: Key, M: Memory>(
    memory: &mut M,
    leaf: usize,
) -> Result<Option<(u64, u64)>, Refusal>
    ensures same { M.Memory.meaning memory.new ≡ M.Memory.meaning memory.old }
    ensures value { result ≡ counted (M.Memory.meaning memory.old).live leaf (greatest_of (in_words K.Key.kind) (M.Memory.meaning memory.old).live leaf) }
{
    let count = count_in(memory, leaf)?;
    Ok(greatest_by_reads::<K, M>(memory, leaf, count))
}

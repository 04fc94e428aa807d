// Opening reads the head, then walks along the chain, for every content of the memory.
ghost use Rattle.std.specs.Prelude.{◌≡◌, ◌+◌, ◌-◌, ◌*◌, ◌≤◌, [], length, IfOk, None};
ghost use Rattle.keys.specs.InWords.{in_words};
ghost use Rattle.leaves.specs.Ascent.{Ascending, all_pairs, chain};
ghost use Rattle.leaves.specs.Layout.{word};
ghost use Rattle.leaves.specs.Opening.{leaves_of, walk as walk_answer, told, head_answer, open_answer};

use super::{Chain, Fault};
use crate::leaf::check::check;
use crate::leaf::read::{start_of, word_at};
use keys::Key;
use memory::Memory;
use refusal::Refusal;

// Walks from the first link along the chain, each link before the leaf that it names.
fn walk<K: Key, M: Memory>(memory: &mut M, leaves: usize, first: u64) -> Result<Chain, Fault>
    requires { (leaves ≡ word (M.Memory.meaning memory.old).live 3) × ((2 ≤ leaves) × ((leaves ≤ 64) × (8 + 72 * leaves ≤ length (M.Memory.meaning memory.old).live))) }
    ensures same { M.Memory.meaning memory.new ≡ M.Memory.meaning memory.old }
    ensures value { told result ≡ walk_answer (in_words K.Key.kind) (M.Memory.meaning memory.old).live (leaves - 1) [] None 0 first }
{
    let mut chain = Chain::new(0);
    let mut from = 0;
    let mut bound = None;
    let mut link = first;
    // 0 is the format's own end of a chain, and the linking leaf that is told for the head.
    while link != 0 {
        let leaf = link as usize;
        if chain.len() + 1 >= leaves || leaf > leaves || chain.as_slice().contains(&leaf) {
            return Err(Fault {
                refusal: Refusal::BadLink,
                leaf: from,
                slot: 0,
            });
        }
        let next = word_at(memory, start_of(leaf));
        let alone = (from, next) == (0, 0);
        bound = check::<K, M>(memory, leaf, bound, alone)?;
        // there is room, since one of at most 64 leaves stays free
        chain.push(leaf).unwrap();
        from = leaf;
        link = next;
    }
    if from == 0 {
        return Err(Refusal::BadLink.into());
    }
    Ok(chain)
}

// The number of leaves and the first link.
fn head<K: Key, M: Memory>(memory: &mut M) -> Result<(usize, u64), Refusal>
    ensures same { M.Memory.meaning memory.new ≡ M.Memory.meaning memory.old }
    ensures value { result ≡ head_answer (in_words K.Key.kind) (M.Memory.meaning memory.old).live }
{
    let size = memory.size();
    if size < 152 {
        return Err(Refusal::WrongLength);
    }
    if word_at(memory, 0) != 30_366 {
        return Err(Refusal::WrongMark);
    }
    if word_at(memory, 1) != K::code() {
        return Err(Refusal::OtherKind);
    }
    let leaves = word_at(memory, 3) as usize;
    if leaves < 2 || leaves > 64 {
        return Err(Refusal::LeafCount);
    }
    if size < 8 + 72 * leaves {
        return Err(Refusal::WrongLength);
    }
    Ok((leaves, word_at(memory, 2)))
}

fn read_all<K: Key, M: Memory>(memory: &mut M) -> Result<Chain, Fault>
    ensures same { M.Memory.meaning memory.new ≡ M.Memory.meaning memory.old }
    ensures value { told result ≡ open_answer (in_words K.Key.kind) (M.Memory.meaning memory.old).live }
{
    let (leaves, first) = head::<K, M>(memory)?;
    walk::<K, M>(memory, leaves, first)
}

// The linked leaves, or why there is no book; the pairs of a book ascend from leaf to leaf.
pub fn open<K: Key, M: Memory>(memory: &mut M) -> Result<Chain, Fault>
    ensures same { M.Memory.meaning memory.new ≡ M.Memory.meaning memory.old }
    ensures value { told result ≡ open_answer (in_words K.Key.kind) (M.Memory.meaning memory.old).live }
    ensures chain { IfOk result (λ c. leaves_of c ≡ chain (M.Memory.meaning memory.old).live (word (M.Memory.meaning memory.old).live 3 - 1) (word (M.Memory.meaning memory.old).live 2)) }
    ensures ascends { IfOk result (λ chain. Ascending (in_words K.Key.kind) (all_pairs (in_words K.Key.kind) (M.Memory.meaning memory.old).live (leaves_of chain))) }
{
    read_all::<K, M>(memory)
}

// What opening answers to a memory's words, and the book that they hold.
ghost use Rattle.std.specs.Prelude.{◌≡◌, ◌↔◌, ◌++◌, IfOk, IsTrue, OnOk, Ok};
ghost use Rattle.keys.specs.InWords.{in_words};
ghost use Rattle.leaves.specs.Ascent.{all_pairs};
ghost use Rattle.leaves.specs.Layout.{count_of};
ghost use Rattle.leaves.specs.Opening.{open_answer};
ghost use Rattle.leaves.specs.Pairs.{pairs as pairs_in};
ghost use Rattle.memory.specs.Meaning.{after_settle, settle_answer};
ghost use Rattle.opened.specs.Openings.{IsCounted, IsOpened, Same};

use keys::Key;
use leaves::leaf::Pair;
use leaves::leaf::ask::elements_in;
use leaves::leaf::change::pairs_of;
use leaves::open::Fault;
use leaves::open::walk::open;
use memory::{Memory, Settle};
use std::alloc::{AllocError, Global};
use tree::logbook::Logbook;

// The fault that opening tells, if it is refused, and the pairs of the book, none where it is refused.
#[derive(Drop)]
pub struct Opened {
    pub fault: Option<Fault>,
    pub pairs: Vec<Pair>,
}

// The pairs of one leaf after those that there are; none of a leaf that cannot be read.
fn push_leaf<K: Key, M: Memory>(
    memory: &mut M,
    leaf: usize,
    pairs: &mut Vec<Pair>,
) -> Result<(), AllocError>
    ensures same { M.Memory.meaning memory.new ≡ M.Memory.meaning memory.old }
    ensures pairs { IsCounted (M.Memory.meaning memory.old).live leaf → OnOk result (pairs.new.items ≡ pairs.old.items ++ pairs_in (in_words K.Key.kind) (M.Memory.meaning memory.old).live leaf (count_of (M.Memory.meaning memory.old).live leaf)) }
{
    let Ok(elements) = elements_in(memory, leaf) else {
        return Ok(());
    };
    let run = pairs_of::<K>(&elements);
    pairs.extend_from_slice(run.as_slice())
}

// The pairs of the leaves that opening has found.
fn pairs_of_leaves<K: Key, M: Memory>(
    alloc: Global,
    memory: &mut M,
    leaves: &[usize],
) -> Result<Vec<Pair>, AllocError>
    requires { open_answer (in_words K.Key.kind) (M.Memory.meaning memory.old).live ≡ Ok leaves.now }
    ensures same { M.Memory.meaning memory.new ≡ M.Memory.meaning memory.old }
    ensures pairs { IfOk result (λ pairs. pairs.items ≡ all_pairs (in_words K.Key.kind) (M.Memory.meaning memory.old).live leaves.now) }
{
    let mut pairs = Vec::new(alloc);
    for leaf in leaves {
        push_leaf::<K, M>(memory, *leaf, &mut pairs)?;
    }
    Ok(pairs)
}

// What opening answers, by reads alone, and the book.
pub fn read_book<K: Key, M: Memory>(alloc: Global, memory: &mut M) -> Result<Opened, AllocError>
    ensures same { M.Memory.meaning memory.new ≡ M.Memory.meaning memory.old }
    ensures opened { IfOk result (IsOpened (in_words K.Key.kind) (M.Memory.meaning memory.old).live) }
{
    match open::<K, M>(memory) {
        Err(fault) => Ok(Opened {
            fault: Some(fault),
            pairs: Vec::new(alloc),
        }),
        Ok(chain) => Ok(Opened {
            fault: None,
            pairs: pairs_of_leaves::<K, M>(alloc, memory, chain.as_slice())?,
        }),
    }
}

// What the opening after a cut of the supply answers, and the book that it finds.
pub fn cut<K: Key, M: Settle + Drop>(
    alloc: Global,
    memory: M,
    choice: &[u64],
) -> Result<Opened, AllocError>
    ensures { settle_answer (M.Memory.meaning memory) choice.now ≡ Ok tt → IfOk result (IsOpened (in_words K.Key.kind) (after_settle (M.Memory.meaning memory) choice.now 0).live) }
{
    let mut book = Logbook::<K, M>::new(memory);
    match book.cut(choice, 0) {
        Ok(Ok(())) => read_book::<K, M>(alloc, book.memory_mut()),
        Ok(Err(fault)) => Ok(Opened {
            fault: Some(fault),
            pairs: Vec::new(alloc),
        }),
        Err(refusal) => Ok(Opened {
            fault: Some(refusal.into()),
            pairs: Vec::new(alloc),
        }),
    }
}

fn same_pair(one: Pair, other: Pair) -> bool
    ensures { IsTrue result ↔ (one ≡ other) }
{
    one.key == other.key && one.reading == other.reading
}

// Whether two lists have the same pairs in the same order.
pub fn same_pairs(one: &[Pair], other: &[Pair]) -> bool
    ensures { IsTrue result ↔ (one.now ≡ other.now) }
{
    if one.len() != other.len() {
        return false;
    }
    for (i, pair) in one.iter().enumerate() {
        if !same_pair(*pair, other[i]) {
            return false;
        }
    }
    true
}

// Whether opening answers the same, and the books are the same.
pub fn same(one: &Opened, other: &Opened) -> bool
    ensures { IsTrue result ↔ Same one.now other.now }
{
    one.fault == other.fault && same_pairs(one.pairs.as_slice(), other.pairs.as_slice())
}

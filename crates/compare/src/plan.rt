// What a put, change or remove writes, and the chain after it, by the rules.
use crate::book::{Book, Pair};
use crate::chain::{Leaf, Tree};
use crate::kinds::{Kind, Words};
use crate::layout::{leaf_word, slot_word};
use crate::words::Step;
use std::alloc::{AllocError, Global};

#[derive(Clone, Copy, PartialEq, Eq)]
pub enum Sort {
    Append,
    Split,
    Merge,
    Replacement,
}

// The steps, as a list and as the number that the rules' tables have; the commit word, its place and its new content; the tree
// after the call.
#[derive(Drop)]
pub struct Plan {
    pub sort: Sort,
    pub steps: Vec<Step>,
    pub cost: usize,
    pub commit: (usize, u64),
    pub tree: Tree,
}

// A call that has passed the checks of its key: its elements (sign and reading), and the book with the call done.
#[derive(Clone, Copy)]
pub struct Deed<'a> {
    pub kind: Kind,
    pub key: Words,
    pub elements: &'a [(u64, u64)],
    pub after: &'a Book,
    pub removes: bool,
}

// A leaf to be written: its number, the next leaf, its pairs, and its bound.
#[derive(Clone, Copy)]
struct NewLeaf<'a> {
    number: usize,
    next: usize,
    pairs: &'a [Pair],
    bound: Words,
}

fn store_row(steps: &mut Vec<Step>, at: usize, row: &[u64]) -> Result<(), AllocError> {
    for (i, word) in row.iter().enumerate() {
        steps.push(Step::Store {
            at: at.saturating_add(i),
            word: *word,
        })?;
    }
    Ok(())
}

fn flush(steps: &mut Vec<Step>, at: usize) -> Result<(), AllocError> {
    steps.push(Step::Flush { line: at / 8 })?;
    Ok(())
}

fn store_and_flush(steps: &mut Vec<Step>, at: usize, word: u64) -> Result<(), AllocError> {
    steps.push(Step::Store { at, word })?;
    flush(steps, at)
}

// The twelve steps of a format.
pub fn format_steps(alloc: Global, code: u64, leaves: usize) -> Result<Vec<Step>, AllocError> {
    let mut steps = Vec::new(alloc);
    store_and_flush(&mut steps, 0, 0)?;
    store_row(&mut steps, 8, &[0, 0, 0])?;
    flush(&mut steps, 8)?;
    store_row(&mut steps, 1, &[code, 1, leaves as u64])?;
    flush(&mut steps, 1)?;
    store_and_flush(&mut steps, 0, crate::layout::MARK)?;
    Ok(steps)
}

// The tree as it is.
fn copied(tree: &Tree) -> Result<Tree, AllocError> {
    Ok(Tree {
        alloc: tree.alloc,
        leaves: tree.leaves,
        chain: tree.chain.clone()?,
        groups: tree.groups.clone()?,
        taken: tree.taken,
    })
}

fn append(tree: &Tree, deed: &Deed<'_>, place: usize, leaf: Leaf) -> Result<Plan, AllocError> {
    let mut steps = Vec::new(tree.alloc);
    let mut count = leaf.count;
    for (sign, reading) in deed.elements {
        let at = slot_word(leaf.number, count, 0);
        store_row(&mut steps, at, &[*sign, deed.key.0, deed.key.1, *reading])?;
        flush(&mut steps, at)?;
        count = count.saturating_add(1);
    }
    let commit = (leaf_word(leaf.number, 1), count as u64);
    store_and_flush(&mut steps, commit.0, commit.1)?;
    let mut after = copied(tree)?;
    if let Some(leaf) = after.chain.get_mut(place) {
        leaf.count = count;
    }
    Ok(Plan {
        sort: Sort::Append,
        steps,
        cost: if deed.elements.len() == 1 { 7 } else { 12 },
        commit,
        tree: after,
    })
}

fn write_leaf(steps: &mut Vec<Step>, leaf: &NewLeaf<'_>) -> Result<(), AllocError> {
    for (slot, pair) in leaf.pairs.iter().enumerate() {
        let at = slot_word(leaf.number, slot, 0);
        store_row(steps, at, &[1, pair.key.0, pair.key.1, pair.reading])?;
        if slot % 2 == 1 || slot.saturating_add(1) == leaf.pairs.len() {
            flush(steps, at)?;
        }
    }
    let head = leaf_word(leaf.number, 0);
    store_row(steps, head, &[leaf.next as u64, leaf.pairs.len() as u64, 0])?;
    flush(steps, head)
}

// The steps of a new leaf of so many pairs.
fn leaf_cost(pairs: usize) -> usize {
    pairs
        .saturating_mul(4)
        .saturating_add(pairs.div_ceil(2))
        .saturating_add(4)
}

// The chain with new leaves in the place of some.
fn relinked(
    tree: &Tree,
    place: usize,
    old: usize,
    new: &[NewLeaf<'_>],
) -> Result<Vec<Leaf>, AllocError> {
    let mut chain = Vec::new(tree.alloc);
    for leaf in tree.chain.iter().take(place) {
        chain.push(*leaf)?;
    }
    for leaf in new {
        chain.push(Leaf {
            number: leaf.number,
            count: leaf.pairs.len(),
            bound: leaf.bound,
        })?;
    }
    for leaf in tree.chain.iter().skip(place.saturating_add(old)) {
        chain.push(*leaf)?;
    }
    Ok(chain)
}

// How many leaves each lowest node holds after a rewrite.
fn regrouped(
    tree: &Tree,
    sort: Sort,
    place: usize,
    leaves: usize,
) -> Result<Vec<usize>, AllocError> {
    let mut groups = tree.groups.clone()?;
    if sort == Sort::Replacement {
        return Ok(groups);
    }
    if sort == Sort::Split {
        if let Some(size) = groups.get_mut(tree.group_of(place)) {
            if *size < 5 {
                *size = size.saturating_add(1);
                return Ok(groups);
            }
        }
    }
    vec![in tree.alloc; 1; leaves]
}

// A rewrite of one leaf, or of two, into new ones.
fn rewrite(
    tree: &Tree,
    sort: Sort,
    place: usize,
    old: usize,
    new: &[NewLeaf<'_>],
) -> Result<Plan, AllocError> {
    let mut steps = Vec::new(tree.alloc);
    let mut cost = 2_usize;
    let mut taken = tree.taken;
    for leaf in new {
        write_leaf(&mut steps, leaf)?;
        cost = cost.saturating_add(leaf_cost(leaf.pairs.len()));
        taken = leaf.number;
    }
    let link = match place {
        0 => 2,
        _ => leaf_word(tree.number(place.saturating_sub(1)), 0),
    };
    let first = new.first().map_or(0, |leaf| leaf.number);
    let commit = (link, first as u64);
    store_and_flush(&mut steps, commit.0, commit.1)?;
    let chain = relinked(tree, place, old, new)?;
    let groups = regrouped(tree, sort, place, chain.len())?;
    Ok(Plan {
        sort,
        steps,
        cost,
        commit,
        tree: Tree {
            alloc: tree.alloc,
            leaves: tree.leaves,
            chain,
            groups,
            taken,
        },
    })
}

// The pairs of one leaf of the chain, or of some, told by their bounds.
fn pairs_of<'a>(tree: &Tree, book: &'a Book, place: usize, leaves: usize) -> &'a [Pair] {
    let from = match place {
        0 => 0,
        _ => book.up_to(bound(tree, place.saturating_sub(1))),
    };
    let end = place.saturating_add(leaves);
    let to = if end >= tree.chain.len() {
        book.pairs().len()
    } else {
        book.up_to(bound(tree, end.saturating_sub(1)))
    };
    book.pairs().get(from..to).unwrap_or(&[])
}

fn bound(tree: &Tree, place: usize) -> Words {
    tree.leaf(place).map_or((0, 0), |leaf| leaf.bound)
}

fn split(tree: &Tree, place: usize, pairs: &[Pair]) -> Result<Plan, AllocError> {
    let half = pairs.len() / 2;
    let (small, great) = pairs.split_at(half);
    let left = tree.free_after(tree.taken);
    let right = tree.free_after(left);
    let new = [
        NewLeaf {
            number: left,
            next: right,
            pairs: small,
            bound: small.last().map_or((0, 0), |pair| pair.key),
        },
        NewLeaf {
            number: right,
            next: tree.number(place.saturating_add(1)),
            pairs: great,
            bound: bound(tree, place),
        },
    ];
    rewrite(tree, Sort::Split, place, 1, &new)
}

fn into_one(
    tree: &Tree,
    sort: Sort,
    place: usize,
    old: usize,
    pairs: &[Pair],
) -> Result<Plan, AllocError> {
    let next = place.saturating_add(old);
    let new = [NewLeaf {
        number: tree.free_after(tree.taken),
        next: tree.number(next),
        pairs,
        bound: bound(tree, next.saturating_sub(1)),
    }];
    rewrite(tree, sort, place, old, &new)
}

// What a call writes; nothing where a split lacks two free leaves.
pub fn plan_of(tree: &Tree, deed: &Deed<'_>) -> Result<Option<Plan>, AllocError> {
    let place = tree.locate(deed.kind, deed.key);
    let Some(leaf) = tree.leaf(place) else {
        return Ok(None);
    };
    if leaf.count.saturating_add(deed.elements.len()) <= 16 {
        return Ok(Some(append(tree, deed, place, leaf)?));
    }
    let pairs = pairs_of(tree, deed.after, place, 1);
    if pairs.len() > 8 && !deed.removes {
        if tree.free() < 2 {
            return Ok(None);
        }
        return Ok(Some(split(tree, place, pairs)?));
    }
    let next = tree.leaf(place.saturating_add(1));
    match next {
        Some(next) if pairs.len() <= 8 && next.count <= 8 => {
            let both = pairs_of(tree, deed.after, place, 2);
            Ok(Some(into_one(tree, Sort::Merge, place, 2, both)?))
        }
        _ => Ok(Some(into_one(tree, Sort::Replacement, place, 1, pairs)?)),
    }
}

// Building the index anew: each node from the list of leaves and bounds.
ghost use Rattle.std.specs.Prelude.{◌≡◌, ℕ, ◌*◌, ◌<◌, ◌≤◌, [], map, length, take, drop, slice_index_or};
ghost use Rattle.index.specs.Nodes.{items, bounds};
ghost use Rattle.index.specs.Search.{last};
ghost use Rattle.index.specs.Shape.{numbered, rows, singles, table as table_node, lowest as lowest_of};
ghost use Rattle.index.specs.Meaning.{grouped};

use super::Index;
use crate::node::fill::empty;
use crate::node::{Entry, Node};

// Children numbered from `first` on, with the bounds of the entries.
fn put_children(node: &mut Node, first: usize, entries: &[Entry])
    requires { (length entries.now ≤ 9) × (first < 91) }
    ensures { items node.new ≡ numbered first (bounds entries.now) }
{
    node.entries.clear();
    for (i, e) in entries.iter().enumerate() {
        let child = Entry {
            to: first + i,
            bound: e.bound,
        };
        node.entries.push(child).unwrap();
    }
}

// Row q of nine entries.
fn row(entries: &[Entry], q: usize) -> &[Entry]
    ensures { result.now ≡ take 9 (drop (9 * q) entries.now) }
{
    entries.chunks(9).nth(q).unwrap_or(&[])
}

// The root over rows of nine entries.
fn put_root(node: &mut Node, entries: &[Entry])
    requires { length entries.now ≤ 81 }
    ensures { items node.new ≡ numbered 1 (map last (rows 9 (bounds entries.now))) }
{
    node.entries.clear();
    for (q, row) in entries.chunks(9).enumerate() {
        let child = Entry {
            to: 1 + q,
            bound: row[row.len() - 1].bound,
        };
        node.entries.push(child).unwrap();
    }
}

// Leaf i alone; no leaf past the last.
fn put_single(node: &mut Node, entries: &[Entry], i: usize)
    ensures { items node.new ≡ slice_index_or (singles entries.now) i [] }
{
    node.entries.clear();
    if let Some(e) = entries.get(i) {
        node.entries.push(*e).unwrap();
    }
}

pub(crate) fn lowest(used: usize) -> usize
    ensures { result ≡ lowest_of used }
{
    if used <= 1 {
        0
    } else if used <= 9 {
        1
    } else {
        10
    }
}

// Makes a node the node i of an index of one leaf to a group.
fn put_node(node: &mut Node, entries: &[Entry], i: usize)
    requires { length entries.now ≤ 81 }
    ensures { items node.new ≡ table_node (singles entries.now) i }
{
    let n = entries.len();
    let low = lowest(n);
    if i >= low {
        put_single(node, entries, i - low);
    } else if n <= 9 {
        put_children(node, 1, entries);
    } else if i == 0 {
        put_root(node, entries);
    } else {
        put_children(node, 9 * i + 1, row(entries, i - 1));
    }
}

// Makes all nodes those of an index of one leaf to a group.
pub(crate) fn put_nodes(nodes: &mut [Node], entries: &[Entry])
    requires { (length nodes.old ≡ 91) × (length entries.now ≤ 81) }
    ensures long { length nodes.new ≡ 91 }
    ensures each { (i : ℕ) → i < 91 → slice_index_or (map items nodes.new) i [] ≡ table_node (singles entries.now) i }
{
    for i in 0..nodes.len() {
        let node = &mut nodes[i];
        put_node(node, entries, i);
    }
}

impl Index {
    // Builds the index anew, one leaf in each node of the lowest level.
    pub(crate) fn fill(&mut self, entries: &[Entry])
        requires { (1 ≤ length entries.now) × (length entries.now ≤ 64) }
        ensures { grouped self.new ≡ singles entries.now }
    {
        put_nodes(&mut self.nodes, entries);
        self.leaves = entries.len();
        self.used = entries.len();
    }
}

// One leaf in each node of the lowest level.
pub(crate) fn built(entries: &[Entry]) -> Index
    requires { (1 ≤ length entries.now) × (length entries.now ≤ 64) }
    ensures { grouped result ≡ singles entries.now }
{
    let mut nodes = [Node { entries: empty() }; 91];
    put_nodes(&mut nodes, entries);
    Index {
        leaves: entries.len(),
        used: entries.len(),
        nodes,
    }
}

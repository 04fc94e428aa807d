// The linked leaves and the nodes over them, by the rules.
use crate::answer::{Holds, Node};
use crate::kinds::{Kind, Words};
use std::alloc::{AllocError, Global};

// The bound of the last leaf of a chain means nothing.
#[derive(Clone, Copy)]
pub struct Leaf {
    pub number: usize,
    pub count: usize,
    pub bound: Words,
}

// The chain, how many leaves each lowest node holds, and the leaf taken last, 0 where none was.
#[derive(Drop)]
pub struct Tree {
    pub alloc: Global,
    pub leaves: usize,
    pub chain: Vec<Leaf>,
    pub groups: Vec<usize>,
    pub taken: usize,
}

// A node's level, and the first node of that level.
fn level_of(node: usize) -> (usize, usize) {
    match node {
        0 => (0, 0),
        1..=9 => (1, 1),
        _ => (2, 10),
    }
}

// How many nodes of a level lie under one that is so many levels above it.
fn span(levels: usize) -> usize {
    match levels {
        0 => 1,
        1 => 9,
        _ => 81,
    }
}

impl Tree {
    // A chain with a lowest node for each leaf, and no leaf taken.
    pub fn built(alloc: Global, leaves: usize, chain: Vec<Leaf>) -> Result<Self, AllocError> {
        let groups = vec![in alloc; 1; chain.len()]?;
        Ok(Tree {
            alloc,
            leaves,
            chain,
            groups,
            taken: 0,
        })
    }

    pub fn leaf(&self, place: usize) -> Option<Leaf> {
        self.chain.get(place).copied()
    }

    // The number of a leaf of the chain, 0 past its end.
    pub fn number(&self, place: usize) -> usize {
        self.leaf(place).map_or(0, |leaf| leaf.number)
    }

    // The first leaf whose bound is not before the key, otherwise the last.
    pub fn locate(&self, kind: Kind, key: Words) -> usize {
        let last = self.chain.len().saturating_sub(1);
        for (place, leaf) in self.chain.iter().enumerate() {
            if place == last || !kind.before(leaf.bound, key) {
                return place;
            }
        }
        last
    }

    pub fn free(&self) -> usize {
        self.leaves.saturating_sub(self.chain.len())
    }

    // The first free leaf up from one and round, but not that one itself.
    pub fn free_after(&self, taken: usize) -> usize {
        for number in taken.saturating_add(1)..self.leaves.saturating_add(1) {
            if self.is_free(number) {
                return number;
            }
        }
        for number in 1..taken {
            if self.is_free(number) {
                return number;
            }
        }
        taken
    }

    fn is_free(&self, number: usize) -> bool {
        for leaf in self.chain.iter() {
            if leaf.number == number {
                return false;
            }
        }
        true
    }

    // The leaves in the lowest nodes before one.
    fn leaves_before(&self, group: usize) -> usize {
        let mut many = 0_usize;
        for size in self.groups.iter().take(group) {
            many = many.saturating_add(*size);
        }
        many
    }

    // The lowest node that holds a leaf of the chain.
    pub fn group_of(&self, place: usize) -> usize {
        for group in 0..self.groups.len() {
            if place < self.leaves_before(group.saturating_add(1)) {
                return group;
            }
        }
        0
    }

    // The bound between a lowest node and the one before it.
    fn bound_before(&self, place: usize) -> Words {
        self.leaf(place.saturating_sub(1))
            .map_or((0, 0), |leaf| leaf.bound)
    }

    fn lowest(&self) -> usize {
        match self.groups.len() {
            0 | 1 => 0,
            2..=9 => 1,
            _ => 2,
        }
    }

    pub fn node(&self, number: usize) -> Node {
        let (level, first) = level_of(number);
        let lowest = self.lowest();
        let span = span(lowest.saturating_sub(level));
        let from = number.saturating_sub(first).saturating_mul(span);
        if level > lowest || from >= self.groups.len() {
            return Node::new(Holds::Nothing);
        }
        if level == lowest {
            self.lowest_node(from)
        } else {
            self.upper_node(number, from, span / 9)
        }
    }

    fn lowest_node(&self, group: usize) -> Node {
        let mut node = Node::new(Holds::Leaves);
        let start = self.leaves_before(group);
        let end = self.leaves_before(group.saturating_add(1));
        for place in start..end {
            if place > start {
                node.bound(self.bound_before(place));
            }
            node.number(self.number(place));
        }
        node
    }

    // A node above, whose first child begins with a lowest node, each child with so many of them.
    fn upper_node(&self, number: usize, from: usize, span: usize) -> Node {
        let mut node = Node::new(Holds::Children);
        for child in 0..9usize {
            let group = child.saturating_mul(span).saturating_add(from);
            if group >= self.groups.len() {
                break;
            }
            if child > 0 {
                node.bound(self.bound_before(self.leaves_before(group)));
            }
            let first = number.saturating_mul(9).saturating_add(1);
            node.number(first.saturating_add(child));
        }
        node
    }
}

// The choice of free leaves.
ghost use Rattle.std.specs.Prelude.{◌≡◌, ◌++◌, not};
ghost use Rattle.std.specs.List.{find};
ghost use Rattle.index.specs.Meaning.{listed};
ghost use Rattle.index.specs.Nodes.{numbers};
ghost use Rattle.leaves.specs.Opening.{member};
ghost use Rattle.plans.specs.Free.{free_leaf, leaves_after};

use index::table::Index;

// Whether a leaf is one of those taken already, or of the index.
fn is_used(index: &Index, also: &[usize], leaf: usize) -> bool
    ensures { result ≡ member leaf (also.now ++ numbers (listed index.now)) }
{
    also.contains(&leaf) || index.holds(leaf)
}

// The first leaf after `low`, up to `high`, that is not used.
fn first_free(index: &Index, also: &[usize], low: usize, high: usize) -> Option<usize>
    ensures { result ≡ find (λ k. not (member k (also.now ++ numbers (listed index.now)))) (leaves_after low high) }
{
    for below in low..high {
        let leaf = below + 1;
        if !is_used(index, also, leaf) {
            return Some(leaf);
        }
    }
    None
}

// The next leaf to take of so many, where those of the index and some others are used: counting up and round from the one taken last.
pub(super) fn next_free(
    index: &Index,
    also: &[usize],
    leaves: usize,
    last: Option<usize>,
) -> Option<usize>
    ensures { result ≡ free_leaf leaves (also.now ++ numbers (listed index.now)) last }
{
    let last = last.unwrap_or(0);
    match first_free(index, also, last, leaves) {
        None => first_free(index, also, 0, last.min(leaves)),
        found => found,
    }
}

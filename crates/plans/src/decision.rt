// How the leaf of a call is rewritten.
ghost use Rattle.std.specs.Prelude.{◌≡◌};
ghost use Rattle.plans.specs.Decisions.{decision};

// Split: so many of the smallest pairs to a left leaf, the others to a right one. Merge: with the pairs of the next leaf to one leaf.
// Replace: to one leaf.
#[derive(Clone, Copy, PartialEq, Eq, Debug)]
pub enum Decision {
    Split { left: usize },
    Merge,
    Replace,
}

// By the pairs that the leaf will have, and the count of the next leaf, if there is one.
pub fn decide(may_split: bool, pairs: usize, next: Option<usize>) -> Decision
    ensures { result ≡ decision may_split pairs next }
{
    if may_split && pairs > 8 {
        Decision::Split { left: pairs / 2 }
    } else if pairs <= 8 && next.is_some_and(|count| count <= 8) {
        Decision::Merge
    } else {
        Decision::Replace
    }
}

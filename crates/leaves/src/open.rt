// Opening a memory as a book.
ghost use Rattle.std.specs.Prelude.{◌≡◌};
ghost use Rattle.leaves.specs.Opening.{plain};

pub mod walk;

use fixed_vec::FixedVec;
use refusal::Refusal;

// Why a memory does not open, with what is told beside the refusal: the linking leaf of a bad link, the leaf and the slot of a bad
// leaf; both are 0 where nothing is told.
#[derive(Clone, Copy, PartialEq, Eq, Debug)]
pub struct Fault {
    pub refusal: Refusal,
    pub leaf: usize,
    pub slot: usize,
}

// A refusal beside which nothing is told.
impl From<Refusal> for Fault {
    ghost from_gives = { λ refusal fault. fault ≡ plain refusal };

    fn from(refusal: Refusal) -> Self {
        Fault {
            refusal,
            leaf: 0,
            slot: 0,
        }
    }
}

// The linked leaves in their order.
pub type Chain = FixedVec<usize, 64>;

//! Lists in an array of fixed size: no heap, and as many items as there is room for.
#![tactic(auto)]

ghost use Rattle.std.specs.Prelude.{◌≡◌, ◌≤◌, length, ⊤};

pub mod list;

use std::alloc::AllocError;

// The first `len` slots hold the items; what stands past them means nothing.
pub struct FixedVec<T, const N: usize> {
    slots: [T; N],
    len: usize,
    ghost within: { (len ≤ N) × (length slots ≡ N) },
}

impl<T: Copy, const N: usize> Copy for FixedVec<T, N> {}

impl<T: Copy, const N: usize> Clone for FixedVec<T, N> {
    ghost is_clone = { λ v w. w ≡ v };

    ghost is_infallible = { λ _. ⊤ };

    fn clone(&self) -> Result<Self, AllocError> {
        Ok(*self)
    }
}

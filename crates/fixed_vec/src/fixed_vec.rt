//! A vector with a fixed number of places, which lie in the value itself.
ghost use Rattle.std.specs.Prelude.{⊤, ◌≡◌, ◌≤◌, ◌<◌, [], ◌∷◌, ◌++◌, length, Ok, Err};

use std::alloc::AllocError;
use std::ops::DerefSlice;

/// At most N items, in the first `len` places.
pub struct FixedVec<T, const N: usize> {
    places: [T; N],
    len: usize,
    ghost whole: { length places ≡ N },
    ghost bounded: { len ≤ N },
}

impl<T: Copy + Default, const N: usize> FixedVec<T, N> {
    ghost use Rattle.fixed_vec.specs.Items.{items};

    /// A vector with no items.
    pub fn new() -> FixedVec<T, N>
        ensures empty { items result ≡ [] }
    {
        FixedVec {
            places: [T::default(); N],
            len: 0,
        }
    }
}

impl<T: Copy, const N: usize> FixedVec<T, N> {
    ghost use Rattle.fixed_vec.specs.Items.{items};

    /// The items, in their order.
    pub fn as_slice(&self) -> &[T]
        ensures items { result.now ≡ items self.now }
        ensures bounded { length result.now ≤ N }
    {
        &self.places[..self.len]
    }

    /// How many items it holds: at most N.
    pub fn len(&self) -> usize
        ensures len { result ≡ length (items self.now) }
        ensures bounded { result ≤ N }
    {
        self.as_slice().len()
    }

    /// Adds an item at the end. Where no place is free, the item is handed back.
    pub fn push(&mut self, item: T) -> Result<(), T>
        ensures room { length (items self.old) < N
            → (result ≡ Ok tt) × (items self.new ≡ items self.old ++ item ∷ []) }
        ensures full { N ≤ length (items self.old)
            → (result ≡ Err item) × (self.new ≡ self.old) }
    {
        if self.len == N {
            return Err(item);
        }
        self.places[self.len] = item;
        self.len += 1;
        Ok(())
    }
}

impl<T: Copy, const N: usize> DerefSlice for FixedVec<T, N> {
    ghost use Rattle.fixed_vec.specs.Items.{items};

    type Elem = T;

    ghost deref_gives = { λ v xs. (xs ≡ items v) × (length xs ≤ N) };

    fn deref(&self) -> &[T] {
        FixedVec::as_slice(self)
    }
}

impl<T: Copy, const N: usize> Copy for FixedVec<T, N> {}

impl<T: Copy, const N: usize> Clone for FixedVec<T, N> {
    ghost is_clone = { λ v w. w ≡ v };

    ghost is_infallible = { λ _. ⊤ };

    fn clone(&self) -> Result<FixedVec<T, N>, AllocError> {
        Ok(*self)
    }
}

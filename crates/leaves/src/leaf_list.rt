//! What takes leaves.
ghost use Rattle.std.specs.Prelude.{◌≡◌, ℕ, ◌<◌, List, [], ◌∷◌, Ok, Err};
ghost use Rattle.std.specs.Borrow.{GName};
ghost use Rattle.leaves.specs.Leaves.{LeafFields};
ghost use Rattle.leaves.specs.Adding.{Grown};

use crate::leaf::Leaf;
use errors::Denial;

/// Takes the leaves of the tree, in their order.
pub trait LeafList {
    // its leaves, and how many more it can take
    ghost leaves: { Self → List LeafFields };

    ghost free: { Self → ℕ };

    // The memory behind the leaves, and how much of it a leaf takes.
    ghost Place: { Type 0 };

    ghost rest: { Self → List Place };

    ghost size: { ℕ };

    // The loan of the memory. While it stays the same, the lender finds in its memory what the list
    // has there.
    ghost lent: { Self → GName };

    /// How many leaves it can still take.
    fn free(&self) -> usize
        ensures { result ≡ free self.now };

    /// Takes one leaf more. Denied with `NoLeafFree` if no place is free, and then nothing changes.
    fn add(&mut self, leaf: Leaf) -> Result<(), Denial>
        ensures room { 0 < free self.old →
            (result ≡ Ok tt) × Grown leaves free rest size self.old (leaf ∷ []) self.new }
        ensures full { free self.old ≡ 0 →
            (result ≡ Err Denial.NoLeafFree) × (self.new ≡ self.old) }
        ensures same_memory { lent self.new ≡ lent self.old };
}

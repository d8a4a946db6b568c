//! A table of leaves.
ghost use Rattle.std.specs.Prelude.{length};
ghost use Rattle.fixed_vec.specs.Lists.{listed, spare};
ghost use Rattle.leaves.specs.Leaves.{LeafFields};

use crate::leaf::Leaf;
use crate::leaf_list::LeafList;
use errors::Denial;
use fixed_vec::BoundedList;

/// Leaves in lent memory, one in each place.
pub type LeafTable<'a> = BoundedList<'a, Leaf>;

impl<'a> LeafList for LeafTable<'a> {
    ghost leaves = { listed };

    ghost free = { λ t. length (spare t) };

    ghost Place = { LeafFields };

    ghost rest = { spare };

    ghost size = { 1 };

    ghost lent = { λ t. t.slots.ghost_name };

    fn free(&self) -> usize {
        BoundedList::free(self)
    }

    fn add(&mut self, leaf: Leaf) -> Result<(), Denial> {
        self.push(leaf).map_err(|_| Denial::NoLeafFree)
    }
}

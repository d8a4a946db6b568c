//! A writer of leaves as lines of text.
ghost use Rattle.std.specs.Prelude.{◌≡◌, ℕ, ◌≤◌, ◌/◌, [], length, take};
ghost use Rattle.std.specs.List.{flat_map};
ghost use Rattle.leaves.specs.LeafLines.{leaf_line, Written};
ghost use Rattle.leaves.specs.Single.{written_prop};

use crate::leaf::Leaf;
use crate::leaf_list::LeafList;
use crate::lines::{LINE_LENGTH, write_line};
use errors::Denial;

/// Leaves as lines of text: the first `len` bytes of the memory hold the lines.
#[derive(Drop)]
pub struct LeafWriter<'a> {
    memory: &'a mut [u8],
    len: usize,
    ghost bounded: { len ≤ length memory.now },
    ghost written: { Written (take len memory.now) } by { written_prop (take len memory.now) },
}

impl<'a> LeafWriter<'a> {
    ghost use Rattle.leaves.specs.Writers.{unwritten, leaves_written};

    /// A writer that has written nothing.
    pub fn new(memory: &'a mut [u8]) -> LeafWriter<'a>
        ensures same_memory { result.memory.ghost_name ≡ memory.entry.ghost_name }
        ensures empty { leaves_written result ≡ [] }
        ensures untouched { unwritten result ≡ memory.old }
    {
        LeafWriter { memory, len: 0 }
    }

    /// The lines.
    pub fn as_bytes(&self) -> &[u8]
        ensures { result.now ≡ flat_map leaf_line (leaves_written self.now) }
    {
        &self.memory[..self.len]
    }
}

impl<'a> LeafList for LeafWriter<'a> {
    ghost use Rattle.leaves.specs.declared.lines.TheConstants.{LINE_LENGTH};
    ghost use Rattle.leaves.specs.Writers.{unwritten, leaves_written};

    ghost leaves = { leaves_written };

    ghost free = { λ w. length (unwritten w) / LINE_LENGTH };

    ghost Place = { ℕ };

    ghost rest = { unwritten };

    ghost size = { LINE_LENGTH };

    ghost lent = { λ w. w.memory.ghost_name };

    fn free(&self) -> usize {
        (self.memory.len() - self.len) / LINE_LENGTH
    }

    fn add(&mut self, leaf: Leaf) -> Result<(), Denial> {
        if LeafList::free(self) == 0 {
            return Err(Denial::NoLeafFree);
        }
        let end = self.len + LINE_LENGTH;
        write_line(&mut self.memory[self.len..end], leaf);
        self.len = end;
        Ok(())
    }
}

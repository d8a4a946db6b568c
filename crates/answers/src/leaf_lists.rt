//! The two leaf lists of a script.
ghost use Rattle.std.specs.Prelude.{◌≡◌, ◌-◌, ◌/◌, IfOk, OnErr, OnOk, length, min};
ghost use Rattle.fixed_vec.specs.Lists.{spare};
ghost use Rattle.leaves.specs.Writers.{unwritten};
ghost use Rattle.answers.specs.Leaves.{LeafAnswer, room};

use errors::Denial;
use leaves::{LINE_LENGTH, Leaf, LeafKind, LeafList, LeafTable, LeafWriter};
use std::alloc::{AllocError, Global};
use token::TokenType;

/// A leaf as each list has it last.
#[derive(Drop)]
pub struct AddedLeaf {
    pub leaf: Leaf,
    pub line: Vec<u8>,
}

/// A table of leaves and a writer of their lines, with room for equally many.
#[derive(Drop)]
pub struct LeafLists<'a> {
    pub(crate) table: LeafTable<'a>,
    writer: LeafWriter<'a>,
    ghost equal: { length (unwritten writer) / 57 ≡ length (spare table) },
}

// What lies in the memory of a table before there is a leaf.
pub(crate) fn no_leaf() -> Leaf {
    Leaf::new(LeafKind::Terminal, 1, 0, TokenType::Eof, None, (0, 0)).unwrap()
}

impl<'a> LeafLists<'a> {
    /// Empty ones. Memory beyond what both can use stays unused.
    pub fn new(leaves: &'a mut [Leaf], text: &'a mut [u8]) -> LeafLists<'a>
        ensures { room result.table ≡ min (length leaves.old) (length text.old / 57) }
    {
        let places = leaves.len().min(text.len() / LINE_LENGTH);
        LeafLists {
            table: LeafTable::new(&mut leaves[..places]),
            writer: LeafWriter::new(&mut text[..places * LINE_LENGTH]),
        }
    }

    /// How many more leaves there is room for.
    pub fn free(&self) -> usize
        ensures { result ≡ room self.now.table }
    {
        self.table.free()
    }

    /// Adds the leaf to both, unless there is no room. Where memory runs out, neither has it.
    pub fn add(&mut self, heap: Global, leaf: Leaf) -> Result<Result<AddedLeaf, Denial>, AllocError>
        ensures answer { IfOk result (LeafAnswer (room self.old.table) leaf) }
        ensures one_fewer { OnOk result (room self.new.table ≡ room self.old.table - 1) }
        ensures unchanged { OnErr result
            ((self.new.table ≡ self.old.table) × (self.new.writer ≡ self.old.writer)) }
    {
        add_leaf(heap, &mut self.table, &mut self.writer, leaf)
    }
}

// Adds the leaf to both.
fn add_leaf(
    heap: Global,
    table: &mut LeafTable<'_>,
    writer: &mut LeafWriter<'_>,
    leaf: Leaf,
) -> Result<Result<AddedLeaf, Denial>, AllocError>
    requires { length (unwritten writer.old) / 57 ≡ room table.old }
    ensures equal { length (unwritten writer.new) / 57 ≡ room table.new }
    ensures answer { IfOk result (LeafAnswer (room table.old) leaf) }
    ensures one_fewer { OnOk result (room table.new ≡ room table.old - 1) }
    ensures unchanged { OnErr result ((table.new ≡ table.old) × (writer.new ≡ writer.old)) }
{
    if table.free() == 0 {
        return Ok(Err(Denial::NoLeafFree));
    }
    let mut line = vec![in heap; 0u8; LINE_LENGTH]?;
    // both have room
    let _ = table.add(leaf);
    let _ = writer.add(leaf);
    let text = writer.as_bytes();
    line.copy_from_slice(&text[text.len() - LINE_LENGTH..]);
    let last = table.as_slice()[table.len() - 1];
    Ok(Ok(AddedLeaf { leaf: last, line }))
}

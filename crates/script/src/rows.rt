//! A table of a script.
ghost use Rattle.std.specs.Prelude.{◌≡◌, ◌==◌, ◌≤◌, List, [], length, vec_len};
ghost use Rattle.script.specs.Rows.{RowAdded, full};

use crate::faults::Fault;
use crate::scripts::MAX_ROWS;
use std::alloc::Global;
use std::marker::Model;

// A table: rows in their order, at most as many as a table may have.
#[derive(Drop)]
pub(crate) struct Rows<T> {
    rows: Vec<T>,
}

impl<T> Model for Rows<T> {
    ghost Value = { List T };

    ghost view = { λ r. r.rows.items };

    ghost invariant = { λ r. vec_len r.rows ≤ full };
}

impl<T: Drop> Rows<T> {
    pub(crate) fn new(heap: Global) -> Rows<T>
        ensures { result ≡ [] }
    {
        Rows {
            rows: Vec::new(heap),
        }
    }

    // Puts the row at the table's end, unless the table is full.
    pub(crate) fn push(&mut self, row: T) -> Result<(), Fault>
        ensures { RowAdded self.old row result self.new }
    {
        if self.rows.len() == MAX_ROWS {
            return Err(Fault::FullTable);
        }
        self.rows.push(row)?;
        Ok(())
    }

    pub(crate) fn len(&self) -> usize
        ensures value { result ≡ length self.now }
        ensures bounded { result ≤ full }
    {
        self.rows.len()
    }

    pub(crate) fn is_empty(&self) -> bool
        ensures { result ≡ (length self.now == 0) }
    {
        self.rows.is_empty()
    }

    pub(crate) fn as_slice(&self) -> &[T]
        ensures { result.now ≡ self.now }
    {
        self.rows.as_slice()
    }
}

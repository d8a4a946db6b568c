#![tactic(auto)]
//! The leaves of the tree, and what takes them: a table of leaves, and a writer of their lines.

mod leaf;
mod leaf_list;
mod leaf_table;
mod leaf_writer;
mod lines;

pub use leaf::{Leaf, LeafKind, MAX_DEPTH, MAX_INDEX, MAX_RULE};
pub use leaf_list::LeafList;
pub use leaf_table::LeafTable;
pub use leaf_writer::LeafWriter;
pub use lines::LINE_LENGTH;

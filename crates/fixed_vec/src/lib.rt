#![tactic(auto)]
//! Lists of bounded length that allocate nothing: one whose places lie in the value itself, and one
//! in lent memory.

mod bounded_list;
mod fixed_vec;

pub use bounded_list::{BoundedList, Full};
pub use fixed_vec::FixedVec;

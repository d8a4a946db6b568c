#![tactic(auto)]
//! Sets of the numbers -2 to 255, as rising intervals: token types, EOF (-1) and EPSILON (-2).

mod interval;
mod set;
mod theorems;

pub use interval::{EPSILON, Interval, MAX_TYPE};
pub use set::IntervalSet;
pub use theorems::sets_are_canonical;

#![tactic(auto)]
//! Scripts: what the lines of a text make, one taken in after the other: the tables of a net, the rows of a
//! tape, and what is asked about them.

mod faults;
mod rows;
mod scripts;

pub use faults::{Fault, ScriptError};
pub use scripts::{MAX_ROWS, Script};

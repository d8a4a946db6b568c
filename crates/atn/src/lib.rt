#![tactic(auto)]
//! The checked net: no rule of it is left-recursive, and each edge's label is a set of token types.
//! What states reach and which states are nullable is found here too.

mod atn;
mod label;
mod nullable;
mod recursion;
mod visits;

pub use atn::Atn;
pub use nullable::NullableStates;
pub use visits::Visits;

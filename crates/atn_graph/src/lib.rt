#![tactic(auto)]
//! The graph of a net: the tables that an owner writes, what they write down, and the rules of a
//! net but for left recursion.

mod atn_state;
mod graph;
mod limits;
mod lists;
mod read;
mod tables;
mod transition;

pub use atn_state::{AtnState, StateKind};
pub use graph::Graph;
pub use limits::{MAX_EDGES, MAX_INTERVALS, MAX_RULES, MAX_STATES, is_outside, is_short};
pub use lists::{Lists, Rule};
pub use tables::{Counts, EdgeRow, RuleRow, StateRow, Tables};
pub use transition::{Move, Transition, TransitionKind};

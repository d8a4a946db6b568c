#![tactic(auto)]
//! A worked example: the pass net, and the sets of its states.

mod pass;
mod rows;
#[cfg(test)]
mod tests;

pub use pass::{pass_net, pass_next_tokens};

#![tactic(auto)]
//! Worked examples of the parser's recovery, in the pass net and in the list net, and faulty steps that
//! break the tape law.

pub mod faulty;
pub mod list_run;
mod sample;
#[cfg(test)]
mod sizes;

pub use sample::Sample;

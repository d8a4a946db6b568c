#![tactic(auto)]
//! Examples of leaves, reports and what takes them.

mod eof_watch;
#[cfg(test)]
mod leaf_limits;
#[cfg(test)]
mod lines;
#[cfg(test)]
mod listeners;
#[cfg(test)]
mod made;
mod owners;
#[cfg(test)]
mod report_of_a_set;
#[cfg(test)]
mod tables;

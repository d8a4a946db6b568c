//! What the text of a script means, on examples.
#![tactic(auto)]

#[cfg(test)]
mod damaged;
#[cfg(test)]
mod leaf_rows;
#[cfg(test)]
mod many;
#[cfg(test)]
mod questions;
#[cfg(test)]
mod tapes;
#[cfg(test)]
mod valid;

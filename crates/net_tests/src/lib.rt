#![tactic(auto)]
//! Examples of sets, nets, labels and denials.

#[cfg(test)]
mod denials;
#[cfg(test)]
mod labels;
#[cfg(test)]
mod nets;
#[cfg(test)]
mod sets;

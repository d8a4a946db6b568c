#![tactic(auto)]
//! Examples of tokens, tapes and streams.

#[cfg(test)]
mod ends;
#[cfg(test)]
mod filters;
#[cfg(test)]
mod made;
#[cfg(test)]
mod tables;
#[cfg(test)]
mod tapes;
#[cfg(test)]
mod words;

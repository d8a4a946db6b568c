#![tactic(auto)]
//! Why a call is denied: one enum for every layer.

mod denial;

pub use denial::Denial;

#![tactic(auto)]
//! What one line of a script says: its words, the numbers among them, and the row, option or question
//! that they make.

mod directives;
mod faults;
mod keywords;
mod leaf_rows;
mod numbers;
mod options;
mod questions;
mod token_rows;

pub use directives::Directive;
pub use faults::LineFault;
pub use keywords::Keyword;
pub use numbers::{clamp, read_number};
pub use options::{LookaheadKind, Show};
pub use questions::{Ask, Question, state_number};
pub use token_rows::{LaneRow, TokenRow, WordRow};

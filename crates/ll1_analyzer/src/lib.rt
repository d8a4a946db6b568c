#![tactic(auto)]
//! What may come next: lookaheads over a checked net, and the four sets of token types.

mod analyzer;
mod cache;
mod chain;
mod lookahead;
mod sets;
mod table;

pub use analyzer::LL1Analyzer;
pub use cache::{Cache, SLOTS, Slot};
pub use chain::{FollowStates, MAX_CHAIN, RuleTransition, follow_list};
pub use lookahead::{EOF, EPSILON, Lookahead};
pub use sets::{get_error_recovery_set, get_expected_tokens, next_tokens, next_tokens_in_ctx};
pub use table::Table;

#![tactic(auto)]
//! The parser as a model: its calls, what each answers and does, and theorems about runs of calls.

mod answer;
mod call;
mod event;
mod law;
mod open_rule;
mod strategy_state;

pub use answer::{Answer, Chain, Mismatch};
pub use call::Call;
pub use event::Event;
pub use law::{denials_are_first, leaves_fit, sets_exist, tape_law, views_cohere};
pub use open_rule::OpenRule;
pub use strategy_state::{Mode, NextTokens, StrategyState};

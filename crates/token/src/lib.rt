#![tactic(auto)]
//! Tokens, what a token says of itself, and the factories that make tokens.

mod common_token;
mod lane;
mod token;
mod token_fields;
mod token_type;
mod word;

pub use common_token::{CommonToken, KeptSpan};
pub use lane::{LaneFactory, LaneToken};
pub use token::{MAX_POSITION, Token, TokenFactory};
pub use token_fields::TokenFields;
pub use token_type::{Span, TokenType};
pub use word::{WordFactory, WordToken};

#![tactic(auto)]
//! Tapes of tokens, and the streams that a parser reads: tables of a tape's tokens, and filters.

mod filter;
mod stream;
mod table;
mod tape;

pub use filter::{Cursor, Filter};
pub use stream::{IntStream, TokenStream};
pub use table::TokenTable;
pub use tape::MAX_TOKENS;

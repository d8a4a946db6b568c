//! Words of a text.
ghost use Rattle.std.specs.Prelude.{true, Some};

use crate::common_token::{CommonToken, KeptSpan};
use crate::token::TokenFactory;
use crate::token_type::{Span, TokenType};

/// A word, which keeps its span.
pub type WordToken = CommonToken<Span>;

/// Makes words.
#[derive(Clone, Copy, PartialEq, Eq, Debug)]
pub struct WordFactory;

impl KeptSpan for Span {
    ghost kept = { Some };

    ghost has_span = { true };

    fn kept(&self) -> Option<Span> {
        Some(*self)
    }
}

impl TokenFactory for WordFactory {
    type Tok = WordToken;

    fn create(
        &self,
        token_type: TokenType,
        channel: u8,
        index: Option<u16>,
        position: (u32, u32),
        span: Span,
    ) -> WordToken {
        let (line, column) = position;
        WordToken {
            token_type,
            channel,
            index,
            line,
            column,
            span,
        }
    }
}

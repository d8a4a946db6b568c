//! What is asked of tokens of every kind, and of what makes them.
ghost use Rattle.std.specs.Prelude.{◌≡◌, Bool, is_some};
ghost use Rattle.token.specs.Tokens.{Fields, kept_span, token_of};

use crate::token_type::{Span, TokenType};

/// The largest line, and the largest column, of a token of a tape and of a leaf.
pub const MAX_POSITION: u32 = 1_000_000;

/// A token.
pub trait Token {
    ghost fields: { Self → Fields };

    // Whether tokens of the kind have a start and a stop.
    ghost has_span: { Bool };

    fn token_type(&self) -> TokenType
        ensures { result ≡ (fields self.now).typ };

    fn channel(&self) -> u8
        ensures { result ≡ (fields self.now).channel };

    /// The token index: the token's place in its tape. None if the token was made up.
    fn token_index(&self) -> Option<u16>
        ensures { result ≡ (fields self.now).index };

    /// Line and column.
    fn position(&self) -> (u32, u32)
        ensures { result ≡ (fields self.now).position };

    /// Start and stop, if the kind has them.
    fn span(&self) -> Option<Span>
        ensures span { result ≡ (fields self.now).span }
        ensures of_its_kind { is_some result ≡ has_span };
}

/// Makes tokens of one kind.
pub trait TokenFactory {
    type Tok: Token + Drop;

    /// The token that says this of itself; of the span it keeps what its kind keeps. With no index
    /// the token is made up.
    fn create(
        &self,
        token_type: TokenType,
        channel: u8,
        index: Option<u16>,
        position: (u32, u32),
        span: Span,
    ) -> Self::Tok
        ensures { Self.Tok.fields result ≡
            token_of «token_type» channel index position (kept_span Self.Tok.has_span span) };
}

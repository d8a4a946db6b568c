//! Tokens that differ only in what their kind keeps of a span.
ghost use Rattle.std.specs.Prelude.{◌≡◌, Bool, Option, is_some};
ghost use Rattle.token.specs.declared.token_type.Span.{Span};
ghost use Rattle.token.specs.Kinds.{common_fields};

use crate::token::Token;
use crate::token_type::{Span, TokenType};

/// What tokens of a kind keep of the span asked for.
pub trait KeptSpan {
    ghost kept: { Self → Option Span };

    // Whether tokens of the kind have a start and a stop.
    ghost has_span: { Bool };

    /// The span, if tokens of the kind have one.
    fn kept(&self) -> Option<Span>
        ensures kept { result ≡ kept self.now }
        ensures of_its_kind { is_some result ≡ has_span };
}

/// A token of a word or of an event.
#[derive(Clone, Copy, PartialEq, Eq, Debug)]
pub struct CommonToken<S> {
    pub token_type: TokenType,
    pub channel: u8,
    /// The token index, none if the token was made up.
    pub index: Option<u16>,
    pub line: u32,
    pub column: u32,
    pub span: S,
}

impl<S: KeptSpan> Token for CommonToken<S> {
    ghost fields = { common_fields S.kept };

    ghost has_span = { S.has_span };

    fn token_type(&self) -> TokenType {
        self.token_type
    }

    fn channel(&self) -> u8 {
        self.channel
    }

    fn token_index(&self) -> Option<u16> {
        self.index
    }

    fn position(&self) -> (u32, u32) {
        (self.line, self.column)
    }

    fn span(&self) -> Option<Span> {
        self.span.kept()
    }
}

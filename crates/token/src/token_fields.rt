//! What a token says of itself, of whatever kind it is.
ghost use Rattle.std.specs.Prelude.{◌≡◌};

use crate::token::Token;
use crate::token_type::{Span, TokenType};
use std::fmt;
use std::marker::Model;

/// All that a token says of itself.
#[derive(Clone, Copy, PartialEq, Eq, Debug)]
pub struct TokenFields {
    pub token_type: TokenType,
    pub channel: u8,
    /// The token index, none if the token was made up.
    pub index: Option<u16>,
    /// Line and column.
    pub position: (u32, u32),
    /// Start and stop, if the token's kind has them.
    pub span: Option<Span>,
}

impl Model for TokenFields {
    ghost use Rattle.token.specs.Tokens.{Fields, token_of};

    ghost Value = { Fields };

    ghost view = { λ t. token_of t.token_type t.channel t.index t.position t.span };

    ghost inverse = { λ f. record {
      token_type = f.typ;
      channel = f.channel;
      index = f.index;
      position = f.position;
      span = f.span;
    } };
}

impl TokenFields {
    /// What this token says.
    pub fn of<T: Token>(token: &T) -> TokenFields
        ensures { result ≡ T.fields token.now }
    {
        TokenFields {
            token_type: token.token_type(),
            channel: token.channel(),
            index: token.token_index(),
            position: token.position(),
            span: token.span(),
        }
    }
}

/// The token index, and the token's row as a script gives it.
impl fmt::Display for TokenFields {
    fn fmt<W: fmt::Write>(&self, f: &mut fmt::Formatter<W>) -> fmt::Result {
        let index = self.index.map_or(-1, i32::from);
        let token_type = i32::from(self.token_type);
        let (line, column) = self.position;
        match self.span {
            Some(span) => write!(
                f,
                "{index}: word {token_type} {} {line} {column} {} {}",
                self.channel, span.start, span.stop
            ),
            None => write!(
                f,
                "{index}: lane {token_type} {} {line} {column}",
                self.channel
            ),
        }
    }
}

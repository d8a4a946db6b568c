//! Tokens of the tape as their rows give them.
ghost use Rattle.std.specs.Prelude.{◌≡◌, Some, IfSome};
ghost use Rattle.script_lines.specs.TokenRows.{TokenRead, TypeRead};

use token::{CommonToken, KeptSpan, Span, TokenType};

/// A token as its row gives it, by numbers that need not be a token's.
#[derive(Clone, Copy, PartialEq, Eq, Debug)]
pub struct TokenRow<S> {
    pub token_type: i32,
    pub channel: i32,
    pub line: i32,
    pub column: i32,
    pub span: S,
}

/// The row of a word of a text.
pub type WordRow = TokenRow<Span>;

/// The row of an event of a lane.
pub type LaneRow = TokenRow<()>;

// The type with that number.
pub(crate) fn token_type(n: i32) -> Option<TokenType>
    ensures { TypeRead n result }
{
    match n {
        -1 => Some(TokenType::Eof),
        _ => Some(TokenType::Of(u8::try_from(n).ok()?)),
    }
}

impl<S: KeptSpan + Copy> TokenRow<S> {
    /// The token that the row writes, with that token index.
    pub fn token(&self, index: u16) -> Option<CommonToken<S>>
        ensures written { TokenRead S.kept self.now result }
        ensures index { IfSome result (λ t. t.index ≡ Some index) }
    {
        Some(CommonToken {
            token_type: token_type(self.token_type)?,
            channel: u8::try_from(self.channel).ok()?,
            index: Some(index),
            line: u32::try_from(self.line).ok()?,
            column: u32::try_from(self.column).ok()?,
            span: self.span,
        })
    }
}

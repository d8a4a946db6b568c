//! Types of tokens, and places in a text.
ghost use Rattle.std.specs.Prelude.{◌≡◌};
ghost use Rattle.token.specs.Tokens.{type_number, is_eof};

/// The type of a token: the end of the input, or one of the types 0 to 255.
#[derive(Clone, Copy, PartialEq, Eq, Debug)]
pub enum TokenType {
    Eof,
    Of(u8),
}

/// The number of a type: -1 for EOF.
impl From<TokenType> for i32 {
    ghost from_gives = { λ t n. n ≡ type_number t };

    fn from(t: TokenType) -> i32 {
        match t {
            TokenType::Eof => -1,
            TokenType::Of(n) => i32::from(n),
        }
    }
}

impl TokenType {
    /// Whether this is the type of the end of the input.
    pub fn is_eof(self) -> bool
        ensures { result ≡ is_eof self }
    {
        matches!(self, TokenType::Eof)
    }
}

/// The first and the last place of a token in its text, as they are given.
#[derive(Clone, Copy, PartialEq, Eq, Debug)]
pub struct Span {
    pub start: i32,
    pub stop: i32,
}

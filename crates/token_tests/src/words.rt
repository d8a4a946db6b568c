//! Tokens that the tests use, and what a stream of them shows.
use std::process::Abort;
use std::test::*;
use token::{Span, Token, TokenType, WordToken};
use token_stream::TokenStream;

pub(crate) const NOWHERE: Span = Span {
    start: -1,
    stop: -1,
};

fn at(token_type: TokenType, channel: u8, index: u16) -> WordToken {
    WordToken {
        token_type,
        channel,
        index: Some(index),
        line: 1,
        column: u32::from(index),
        span: Span {
            start: i32::from(index),
            stop: i32::from(index),
        },
    }
}

pub(crate) fn word(n: u8, index: u16) -> WordToken {
    at(TokenType::Of(n), 0, index)
}

pub(crate) fn hidden(n: u8, index: u16) -> WordToken {
    at(TokenType::Of(n), 1, index)
}

pub(crate) fn eof(index: u16) -> WordToken {
    at(TokenType::Eof, 0, index)
}

pub(crate) fn eof_on_channel_1(index: u16) -> WordToken {
    at(TokenType::Eof, 1, index)
}

// The types ahead and the token indexes of the tokens, of which the last stays.
pub(crate) fn shows<'a, S: TokenStream<'a>>(rt: &impl Abort, s: &mut S, want: &[(i32, u16)]) {
    for (k, (number, index)) in (1..).zip(want.iter().chain(want.last())) {
        assert_eq!(rt; i32::from(s.la(k)), *number, "at {k}");
        assert_eq!(rt; i32::from(s.lt(k).token_type()), *number, "at {k}");
        assert_eq!(rt; s.lt(k).token_index(), Some(*index), "at {k}");
    }
    assert!(rt; s.la(i32::MAX).is_eof());
}

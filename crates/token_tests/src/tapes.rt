//! Tapes that are accepted, and tapes that are denied.
use crate::words::*;
use errors::Denial;
use std::test::*;
use token::{LaneFactory, LaneToken, Token, TokenType, WordToken};
use token_stream::TokenTable;

const FAULTY: Result<(), u8> = Err(6);

// Whether the tape is accepted, or else the number of the denial.
fn verdict<T: Token>(tokens: &[T]) -> Result<(), u8> {
    TokenTable::check(tokens, LaneFactory)
        .map(drop)
        .map_err(Denial::number)
}

// An EOF alone at this place, as an event.
fn event_at(index: Option<u16>, lane: u32, count: u32) -> LaneToken {
    LaneToken {
        token_type: TokenType::Eof,
        channel: 0,
        index,
        line: lane,
        column: count,
        span: (),
    }
}

#[test]
fn where_eof_stands(rt: HostRuntime) {
    let none: [WordToken; 0] = [];
    assert_eq!(rt; verdict(&none), FAULTY);
    assert_eq!(rt; verdict(&[eof(0)]), Ok(()));
    assert_eq!(rt; verdict(&[word(1, 0), hidden(2, 1), eof(2)]), Ok(()));
    assert_eq!(rt; verdict(&[eof_on_channel_1(0)]), Ok(()));
    assert_eq!(rt; verdict(&[word(1, 0)]), FAULTY);
    assert_eq!(rt; verdict(&[eof(0), eof(1)]), FAULTY);
    assert_eq!(rt; verdict(&[eof(0), word(1, 1)]), FAULTY);
    assert_eq!(rt; verdict(&[word(1, 0), eof(1), word(1, 2), eof(3)]), FAULTY);
}

#[test]
fn token_indexes(rt: HostRuntime) {
    assert_eq!(rt; verdict(&[eof(1)]), FAULTY);
    assert_eq!(rt; verdict(&[word(1, 0), word(1, 0), eof(2)]), FAULTY);
    assert_eq!(rt; verdict(&[word(1, 1), word(1, 2), eof(3)]), FAULTY);
    assert_eq!(rt; verdict(&[event_at(None, 1, 1)]), FAULTY);
}

#[test]
fn lines_and_columns(rt: HostRuntime) {
    for (line, column, want) in [
        (0, 0, Ok(())),
        (1_000_000, 1_000_000, Ok(())),
        (1_000_001, 0, FAULTY),
        (0, 1_000_001, FAULTY),
        (u32::MAX, 0, FAULTY),
    ] {
        assert_eq!(rt; verdict(&[event_at(Some(0), line, column)]), want);
    }
}

// The longest tape, and one token more.
#[test]
fn lengths(rt: HostRuntime) -> Result<(), Fail> {
    for (last, want) in [(65_534, Ok(())), (65_535, FAULTY)] {
        let mut tokens = Vec::new(rt.alloc());
        for i in 0..last {
            tokens.push(word(1, i))?;
        }
        tokens.push(eof(last))?;
        assert_eq!(rt; verdict(&tokens), want);
    }
    Ok(())
}

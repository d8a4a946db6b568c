//! A table as a stream.
use crate::words::*;
use std::test::*;
use token::{LaneFactory, Token, TokenFactory, TokenType, WordFactory};
use token_stream::{IntStream, TokenStream, TokenTable};

#[test]
fn what_is_ahead(rt: HostRuntime) -> Result<(), Fail> {
    let tape = [word(5, 0), hidden(6, 1), word(7, 2), eof(3)];
    let mut s = TokenTable::check(&tape, WordFactory)?;
    shows(&rt, &mut s, &[(5, 0), (6, 1), (7, 2), (-1, 3)]);
    for k in [i32::MIN, -1, 0, 1] {
        assert_eq!(rt; i32::from(s.la(k)), 5);
        assert_eq!(rt; s.lt(k).token_index(), Some(0));
    }
    s.consume();
    shows(&rt, &mut s, &[(6, 1), (7, 2), (-1, 3)]);
    assert_eq!(rt; i32::from(s.la(0)), 6);
    Ok(())
}

// A tape of events, whose token index each answers, until EOF stays.
#[test]
fn consuming_stops_at_eof(rt: HostRuntime) -> Result<(), Fail> {
    let make = |token_type, i| LaneFactory.create(token_type, 0, Some(i), (0, 0), NOWHERE);
    let tape = [
        make(TokenType::Of(5), 0),
        make(TokenType::Of(6), 1),
        make(TokenType::Eof, 2),
    ];
    let mut s = TokenTable::check(&tape, LaneFactory)?;
    for index in [0, 1, 2, 2, 2] {
        assert_eq!(rt; s.index(), index);
        s.consume();
    }
    assert_eq!(rt; i32::from(s.la(1)), -1);
    Ok(())
}

// The tape stays whole, however much of it is consumed.
#[test]
fn tokens_of_the_tape(rt: HostRuntime) -> Result<(), Fail> {
    let tape = [word(5, 0), word(6, 1), eof(2)];
    let mut s = TokenTable::check(&tape, WordFactory)?;
    s.consume();
    for (i, want) in [
        (i32::MIN, 2),
        (-1, 2),
        (0, 0),
        (1, 1),
        (2, 2),
        (3, 2),
        (i32::MAX, 2),
    ] {
        assert_eq!(rt; s.get(i).token_index(), Some(want), "at {i}");
    }
    Ok(())
}

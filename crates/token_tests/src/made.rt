//! What the factories make.
use crate::words::*;
use std::test::*;
use token::{LaneFactory, Span, Token, TokenFactory, TokenType, WordFactory};

#[test]
fn a_word(rt: HostRuntime) {
    let given = Span {
        start: 10,
        stop: 12,
    };
    let t = WordFactory.create(TokenType::Of(7), 1, Some(3), (4, 5), given);
    assert_eq!(rt; i32::from(t.token_type()), 7);
    assert_eq!(rt; t.channel(), 1);
    assert_eq!(rt; t.token_index(), Some(3));
    assert_eq!(rt; t.position(), (4, 5));
    assert_eq!(rt; t.span(), Some(given));
}

#[test]
fn a_made_up_word(rt: HostRuntime) {
    let t = WordFactory.create(TokenType::Of(255), 0, None, (4, 5), NOWHERE);
    assert_eq!(rt; i32::from(t.token_type()), 255);
    assert_eq!(rt; t.token_index(), None);
    assert_eq!(rt; t.span(), Some(NOWHERE));
}

// An event keeps its lane and its count, and no span.
#[test]
fn an_event(rt: HostRuntime) {
    let given = Span {
        start: 10,
        stop: 12,
    };
    let t = LaneFactory.create(TokenType::Of(7), 1, Some(3), (4, 5), given);
    assert_eq!(rt; i32::from(t.token_type()), 7);
    assert_eq!(rt; t.channel(), 1);
    assert_eq!(rt; t.token_index(), Some(3));
    assert_eq!(rt; t.position(), (4, 5));
    assert_eq!(rt; t.span(), None);
}

#[test]
fn a_made_up_event(rt: HostRuntime) {
    let t = LaneFactory.create(TokenType::Eof, 0, None, (4, 5), NOWHERE);
    assert_eq!(rt; i32::from(t.token_type()), -1);
    assert_eq!(rt; t.token_index(), None);
    assert_eq!(rt; t.span(), None);
}

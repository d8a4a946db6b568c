//! What is asked beyond the ends of a stream: of a table, and of a filter over it.
use crate::words::*;
use std::process::Abort;
use std::test::*;
use token::{Token, WordFactory, WordToken};
use token_stream::{Filter, IntStream, TokenStream, TokenTable};

const FAR: [i32; 3] = [4, 5, i32::MAX];

// A word, a hidden word, a word, and EOF.
fn tape() -> [WordToken; 4] {
    [word(5, 0), hidden(6, 1), word(7, 2), eof(3)]
}

// Below 1 is the first token that is shown, of this type and token index.
fn first_below_1<'a, S: TokenStream<'a>>(rt: &impl Abort, s: &mut S, first: (i32, u16)) {
    let (number, index) = first;
    for k in [i32::MIN, -1, 0, 1] {
        assert_eq!(rt; i32::from(s.la(k)), number, "at {k}");
        assert_eq!(rt; s.lt(k).token_index(), Some(index), "at {k}");
    }
}

#[test]
fn la_and_lt_below_1_count_as_1(rt: HostRuntime) -> Result<(), Fail> {
    let tape = tape();
    let mut s = TokenTable::check(&tape, WordFactory)?;
    first_below_1(&rt, &mut s, (5, 0));
    s.consume();
    first_below_1(&rt, &mut s, (6, 1));
    let mut f = Filter::new(TokenTable::check(&tape, WordFactory)?);
    first_below_1(&rt, &mut f, (5, 0));
    f.consume();
    first_below_1(&rt, &mut f, (7, 2));
    Ok(())
}

fn eof_from<'a, S: TokenStream<'a>>(rt: &impl Abort, s: &mut S, far: &[i32]) {
    for k in far {
        assert!(rt; s.la(*k).is_eof(), "at {k}");
        assert!(rt; s.lt(*k).token_type().is_eof(), "at {k}");
        assert_eq!(rt; s.lt(*k).token_index(), Some(3), "at {k}");
    }
}

#[test]
fn la_and_lt_past_the_end_are_eof(rt: HostRuntime) -> Result<(), Fail> {
    let tape = tape();
    let mut s = TokenTable::check(&tape, WordFactory)?;
    eof_from(&rt, &mut s, &FAR);
    let mut f = Filter::new(TokenTable::check(&tape, WordFactory)?);
    eof_from(&rt, &mut f, &[3]);
    eof_from(&rt, &mut f, &FAR);
    let alone = [eof(0)];
    let mut s = TokenTable::check(&alone, WordFactory)?;
    shows(&rt, &mut s, &[(-1, 0)]);
    let mut f = Filter::new(s);
    shows(&rt, &mut f, &[(-1, 0)]);
    Ok(())
}

fn eof_outside<'a, S: TokenStream<'a>>(rt: &impl Abort, s: &S) {
    for i in [i32::MIN, -1, 4, i32::MAX] {
        assert!(rt; s.get(i).token_type().is_eof(), "at {i}");
        assert_eq!(rt; s.get(i).token_index(), Some(3), "at {i}");
    }
}

#[test]
fn get_outside_the_tape_is_eof(rt: HostRuntime) -> Result<(), Fail> {
    let tape = tape();
    let mut s = TokenTable::check(&tape, WordFactory)?;
    eof_outside(&rt, &s);
    s.consume();
    eof_outside(&rt, &s);
    let mut f = Filter::new(TokenTable::check(&tape, WordFactory)?);
    eof_outside(&rt, &f);
    f.consume();
    eof_outside(&rt, &f);
    Ok(())
}

// Consumes the words, and then EOF again and again.
fn stays_at_eof<'a, S: TokenStream<'a>>(rt: &impl Abort, s: &mut S, words: u16) {
    for _ in 0..words {
        assert!(rt; !s.la(1).is_eof());
        s.consume();
    }
    for _ in 0..3 {
        shows(rt, s, &[(-1, 3)]);
        assert_eq!(rt; s.index(), 3);
        s.consume();
    }
}

#[test]
fn consuming_eof_changes_nothing(rt: HostRuntime) -> Result<(), Fail> {
    let tape = tape();
    let mut s = TokenTable::check(&tape, WordFactory)?;
    stays_at_eof(&rt, &mut s, 3);
    let mut f = Filter::new(TokenTable::check(&tape, WordFactory)?);
    stays_at_eof(&rt, &mut f, 2);
    Ok(())
}

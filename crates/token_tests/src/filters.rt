//! What filters show.
use crate::words::*;
use std::process::Abort;
use std::test::*;
use token::{Token, WordFactory};
use token_stream::{Filter, IntStream, TokenStream, TokenTable};

#[test]
fn hidden_at_the_start(rt: HostRuntime) -> Result<(), Fail> {
    let tape = [hidden(1, 0), hidden(2, 1), word(3, 2), eof(3)];
    let mut f = Filter::new(TokenTable::check(&tape, WordFactory)?);
    shows(&rt, &mut f, &[(3, 2), (-1, 3)]);
    assert_eq!(rt; f.index(), 2);
    f.consume();
    assert_eq!(rt; f.index(), 3);
    f.consume();
    assert_eq!(rt; f.index(), 3);
    Ok(())
}

#[test]
fn hidden_before_eof(rt: HostRuntime) -> Result<(), Fail> {
    let tape = [word(3, 0), hidden(1, 1), hidden(2, 2), eof(3)];
    let mut f = Filter::new(TokenTable::check(&tape, WordFactory)?);
    shows(&rt, &mut f, &[(3, 0), (-1, 3)]);
    f.consume();
    shows(&rt, &mut f, &[(-1, 3)]);
    assert_eq!(rt; f.index(), 3);
    Ok(())
}

#[test]
fn all_hidden_but_eof(rt: HostRuntime) -> Result<(), Fail> {
    let tape = [hidden(1, 0), hidden(2, 1), eof(2)];
    let mut f = Filter::new(TokenTable::check(&tape, WordFactory)?);
    f.consume();
    shows(&rt, &mut f, &[(-1, 2)]);
    assert_eq!(rt; f.index(), 2);
    Ok(())
}

// EOF is shown on any channel.
#[test]
fn eof_is_never_hidden(rt: HostRuntime) -> Result<(), Fail> {
    let tape = [word(3, 0), eof_on_channel_1(1)];
    let mut f = Filter::new(TokenTable::check(&tape, WordFactory)?);
    shows(&rt, &mut f, &[(3, 0), (-1, 1)]);
    f.consume();
    f.consume();
    shows(&rt, &mut f, &[(-1, 1)]);
    Ok(())
}

// Looking back after looking far ahead, and after a consume; the tape itself is not filtered.
#[test]
fn looking_back(rt: HostRuntime) -> Result<(), Fail> {
    let tape = [
        word(3, 0),
        hidden(1, 1),
        word(4, 2),
        word(5, 3),
        hidden(2, 4),
        eof(5),
    ];
    let mut f = Filter::new(TokenTable::check(&tape, WordFactory)?);
    for (k, want) in [
        (1, 3),
        (2, 4),
        (4, -1),
        (1, 3),
        (3, 5),
        (0, 3),
        (2, 4),
        (-9, 3),
    ] {
        assert_eq!(rt; i32::from(f.la(k)), want, "at {k}");
    }
    f.consume();
    for (k, want) in [(2, 5), (1, 4), (3, -1), (1, 4)] {
        assert_eq!(rt; i32::from(f.la(k)), want, "at {k}");
    }
    assert_eq!(rt; i32::from(f.get(1).token_type()), 1);
    assert_eq!(rt; f.get(-1).token_index(), Some(5));
    Ok(())
}

// Looks back and consumes through a filter over this stream.
fn through_a_filter<'a, S: TokenStream<'a> + Drop>(
    rt: &impl Abort,
    below: S,
    want: &[(i32, i32, u16)],
) {
    let mut f = Filter::new(below);
    for (first, second, index) in want {
        assert_eq!(rt; i32::from(f.la(1)), *first);
        assert_eq!(rt; i32::from(f.la(2)), *second);
        assert_eq!(rt; i32::from(f.la(1)), *first);
        assert_eq!(rt; f.index(), *index);
        f.consume();
    }
}

// A filter over a filter shows the same as one.
#[test]
fn twice_filtered(rt: HostRuntime) -> Result<(), Fail> {
    let tape = [hidden(1, 0), word(3, 1), hidden(2, 2), word(4, 3), eof(4)];
    let once = Filter::new(TokenTable::check(&tape, WordFactory)?);
    through_a_filter(
        &rt,
        once,
        &[(3, 4, 1), (4, -1, 3), (-1, -1, 4), (-1, -1, 4)],
    );
    Ok(())
}

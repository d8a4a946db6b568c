//! The limits of a leaf.
use leaves::{Leaf, LeafKind};
use std::test::*;
use token::TokenType;

// A leaf's depth, rule, token index, line and column.
type Fields = (u8, u8, Option<u16>, u32, u32);

fn made(f: Fields) -> Option<Leaf> {
    let (depth, rule, index, line, column) = f;
    Leaf::new(
        LeafKind::Error,
        depth,
        rule,
        TokenType::Of(255),
        index,
        (line, column),
    )
}

#[test]
fn at_the_limits(rt: HostRuntime) -> Result<(), Fail> {
    let l = made((64, 63, Some(65_534), 1_000_000, 1_000_000)).ok_or("no leaf")?;
    assert_eq!(rt; l.kind().number(), 2);
    assert_eq!(rt; l.depth(), 64);
    assert_eq!(rt; l.rule(), 63);
    assert_eq!(rt; l.token_type(), TokenType::Of(255));
    assert_eq!(rt; l.index(), Some(65_534));
    assert_eq!(rt; l.position(), (1_000_000, 1_000_000));
    assert!(rt; made((1, 0, None, 0, 0)).is_some());
    Ok(())
}

#[test]
fn past_the_limits(rt: HostRuntime) {
    for f in [
        (0, 0, None, 0, 0),
        (65, 0, None, 0, 0),
        (1, 64, None, 0, 0),
        (1, 0, Some(65_535), 0, 0),
        (1, 0, None, 1_000_001, 0),
        (1, 0, None, 0, 1_000_001),
    ] {
        assert_eq!(rt; made(f), None);
    }
}

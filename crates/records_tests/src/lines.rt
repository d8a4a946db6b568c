//! The text that a writer of leaves writes.
use crate::owners::add_two;
use errors::Denial;
use leaves::{Leaf, LeafKind, LeafList, LeafWriter};
use std::test::*;
use token::TokenType;

const FIRST: &[u8] = b"       1       1       0      -1      -1       0       0\n";

const LAST: &[u8] = b"       2      64      63     255   65534 1000000 1000000\n";

// The two lines, and dots behind them.
fn is_written(memory: &[u8]) -> bool {
    let lines = FIRST.iter().chain(LAST.iter());
    memory.iter().zip(lines).all(|(got, want)| got == want)
        && memory.iter().skip(114).all(|b| *b == b'.')
}

#[test]
fn two_lines_and_what_lies_behind_them(rt: HostRuntime) -> Result<(), Fail> {
    let made_up = Leaf::new(LeafKind::Terminal, 1, 0, TokenType::Eof, None, (0, 0));
    let largest = Leaf::new(
        LeafKind::Error,
        64,
        63,
        TokenType::Of(255),
        Some(65_534),
        (1_000_000, 1_000_000),
    );
    let (made_up, largest) = (made_up.ok_or("no leaf")?, largest.ok_or("no leaf")?);
    let mut memory = [b'.'; 170];
    let mut w = LeafWriter::new(&mut memory);
    assert_eq!(rt; LeafList::free(&w), 2);
    add_two(&mut w, made_up, largest);
    assert_eq!(rt; LeafList::free(&w), 0);
    assert_eq!(rt; w.add(made_up), Err(Denial::NoLeafFree));
    assert_eq!(rt; w.as_bytes().len(), 114);
    assert!(rt; is_written(&memory));
    Ok(())
}

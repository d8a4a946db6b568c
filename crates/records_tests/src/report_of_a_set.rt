//! What a report says of the types that were expected.
use interval_set::IntervalSet;
use reports::{Report, ReportKind};
use std::test::*;
use token::TokenType;

fn of(expected: &IntervalSet) -> (u16, TokenType) {
    let r = Report::new(ReportKind::MissingToken, None, (7, 8), expected);
    (r.expected, r.smallest)
}

#[test]
fn counted_and_the_smallest(rt: HostRuntime) -> Result<(), Fail> {
    let mut set = IntervalSet::new();
    assert_eq!(rt; of(&set), (0, TokenType::Of(0)));
    set.add_one(-2)?;
    assert_eq!(rt; of(&set), (0, TokenType::Of(0)));
    set.add_range(9, 11)?;
    assert_eq!(rt; of(&set), (3, TokenType::Of(9)));
    set.add_range(-1, 255)?;
    assert_eq!(rt; of(&set), (257, TokenType::Eof));
    Ok(())
}

#[test]
fn of_a_token(rt: HostRuntime) {
    let r = Report::new(
        ReportKind::UnwantedToken,
        Some(6),
        (7, 8),
        &IntervalSet::new(),
    );
    assert_eq!(rt; r.kind.number(), 4);
    assert_eq!(rt; r.index, Some(6));
    assert_eq!(rt; (r.line, r.column), (7, 8));
}

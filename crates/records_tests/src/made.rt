//! Leaves and reports that the tests use.
use interval_set::IntervalSet;
use leaves::{Leaf, LeafKind};
use reports::{Report, ReportKind};
use std::test::*;
use token::TokenType;

// The first leaf that there may be, at a column.
pub(crate) fn leaf(column: u32) -> Result<Leaf, Fail> {
    let l = Leaf::new(
        LeafKind::Terminal,
        1,
        0,
        TokenType::Of(5),
        Some(0),
        (1, column),
    );
    Ok(l.ok_or("no leaf")?)
}

pub(crate) fn report(line: u32) -> Report {
    Report::new(
        ReportKind::InputMismatch,
        Some(3),
        (line, 4),
        &IntervalSet::new(),
    )
}

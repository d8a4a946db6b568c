//! What listeners are told of a fault.
use crate::made::report;
use crate::owners::eof_at_either;
use interval_set::IntervalSet;
use reports::{Counter, Recorder, Report, ReportKind, notify_error_listeners};
use std::test::*;

#[test]
fn the_report_of_the_set(rt: HostRuntime) -> Result<(), Fail> {
    let mut expected = IntervalSet::new();
    expected.add_range(-2, 7)?;
    let (kind, index, position) = (ReportKind::UnwantedToken, Some(6), (7, 8));
    let want = Report::new(kind, index, position, &expected);
    let mut c = Counter::new();
    notify_error_listeners(&mut c, kind, index, position, &expected);
    assert_eq!(rt; c.heard(), 1);
    assert_eq!(rt; c.latest(), Some(want));
    let mut memory = [report(1); 2];
    let mut r = Recorder::new(&mut memory);
    notify_error_listeners(&mut r, kind, index, position, &expected);
    assert!(rt; r.reports() == [want].as_slice());
    Ok(())
}

#[test]
fn the_set_itself(rt: HostRuntime) -> Result<(), Fail> {
    let (mut epsilon, mut eof) = (IntervalSet::new(), IntervalSet::new());
    epsilon.add_one(-2)?;
    eof.add_range(-1, 3)?;
    for (first, second, want) in [
        (&epsilon, &epsilon, false),
        (&epsilon, &eof, true),
        (&eof, &epsilon, true),
        (&eof, &eof, true),
    ] {
        assert_eq!(rt; eof_at_either(first, second), want);
    }
    Ok(())
}

//! Tables of leaves and of reports, filled to their last place.
use crate::made::{leaf, report};
use crate::owners::{add_two, report_two};
use errors::Denial;
use fixed_vec::BoundedList;
use interval_set::IntervalSet;
use leaves::{LeafList, LeafTable};
use reports::{Counter, Listener, Recorder};
use std::test::*;

#[test]
fn leaves_until_no_place_is_free(rt: HostRuntime) -> Result<(), Fail> {
    let (first, second, third) = (leaf(1)?, leaf(2)?, leaf(3)?);
    let mut memory = [third; 3];
    let mut t: LeafTable = BoundedList::new(&mut memory[..2]);
    assert_eq!(rt; LeafList::free(&t), 2);
    add_two(&mut t, first, second);
    assert_eq!(rt; LeafList::free(&t), 0);
    assert_eq!(rt; t.add(third), Err(Denial::NoLeafFree));
    assert_eq!(rt; t.len(), 2);
    assert!(rt; t.as_slice() == [first, second].as_slice());
    assert!(rt; memory == [first, second, third]);
    Ok(())
}

#[test]
fn reports_past_the_last_place(rt: HostRuntime) {
    let (first, second, third) = (report(1), report(2), report(3));
    let none = IntervalSet::new();
    let mut memory = [third; 2];
    let mut r = Recorder::new(&mut memory[..1]);
    assert_eq!(rt; r.latest(), None);
    report_two(&mut r, first, second, &none);
    r.report(third, &none);
    assert_eq!(rt; r.heard(), 3);
    assert_eq!(rt; r.latest(), Some(third));
    assert!(rt; r.reports() == [first].as_slice());
    assert!(rt; memory == [first, third]);
}

#[test]
fn counted(rt: HostRuntime) {
    let mut c = Counter::new();
    assert_eq!(rt; c.latest(), None);
    report_two(&mut c, report(1), report(2), &IntervalSet::new());
    assert_eq!(rt; c.heard(), 2);
    assert_eq!(rt; c.latest(), Some(report(2)));
}

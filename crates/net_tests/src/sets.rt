//! Sets of numbers, on the inputs on which the crate that this is modelled on goes wrong, and at
//! the limits.
use errors::Denial;
use interval_set::{Interval, IntervalSet};
use std::process::Abort;
use std::test::Fail;

// Whether the set is the numbers from low to high, in one interval.
fn is_range(rt: &impl Abort, set: &IntervalSet, low: i32, high: i32) {
    assert_eq!(rt; set.intervals(), [Interval { a: low, b: high }].as_slice());
}

fn with_ones(numbers: &[i32]) -> Result<IntervalSet, Denial> {
    let mut set = IntervalSet::new();
    for v in numbers {
        set.add_one(*v)?;
    }
    Ok(set)
}

// The crate leaves 1..5 and 5..5, and counts six numbers.
#[test]
fn a_range_over_three_numbers(rt: HostRuntime) -> Result<(), Fail> {
    let mut set = with_ones(&[1, 3, 5])?;
    set.add_range(1, 5)?;
    is_range(&rt, &set, 1, 5);
    assert_eq!(rt; set.length(), 5);
    Ok(())
}

// The crate leaves 1..6 and 5..5, and does not find 6.
#[test]
fn a_range_past_three_numbers(rt: HostRuntime) -> Result<(), Fail> {
    let mut set = with_ones(&[1, 3, 5])?;
    set.add_range(1, 6)?;
    is_range(&rt, &set, 1, 6);
    assert!(rt; set.contains(6));
    Ok(())
}

// The crate loses 10.
#[test]
fn no_number_is_lost(rt: HostRuntime) -> Result<(), Fail> {
    let mut set = with_ones(&[5, 7, 9])?;
    set.add_range(5, 10)?;
    set.add_one(1)?;
    set.add_one(3)?;
    set.add_range(1, 9)?;
    is_range(&rt, &set, 1, 10);
    Ok(())
}

#[test]
fn values_outside_are_denied(rt: HostRuntime) -> Result<(), Fail> {
    let mut set = IntervalSet::new();
    for v in [-3, 256] {
        assert_eq!(rt; set.add_one(v), Err(Denial::SetValue));
    }
    assert_eq!(rt; set.add_range(0, 256), Err(Denial::SetValue));
    assert_eq!(rt; set.length(), 0);
    set.add_range(300, -300)?;
    assert_eq!(rt; set.length(), 0);
    set.add_range(-2, 255)?;
    assert_eq!(rt; set.length(), 258);
    Ok(())
}

// Every second number: as many intervals as there can be.
#[test]
fn the_fullest_set(rt: HostRuntime) -> Result<(), Fail> {
    let mut set = IntervalSet::new();
    for i in 0..129u8 {
        set.add_one(2 * i32::from(i) - 2)?;
    }
    assert_eq!(rt; set.intervals().len(), 129);
    assert_eq!(rt; set.length(), 129);
    let rest = set.complement(-2, 255)?;
    assert_eq!(rt; rest.length(), 129);
    assert_eq!(rt; rest.get_min(), Some(-1));
    set.add_set(&rest);
    is_range(&rt, &set, -2, 255);
    Ok(())
}

#[test]
fn a_number_is_removed(rt: HostRuntime) -> Result<(), Fail> {
    let mut set = IntervalSet::new();
    set.add_range(-2, 3)?;
    set.remove_one(-2);
    set.remove_one(1);
    set.remove_one(9);
    assert!(rt; set == with_ones(&[2, 3, 0, -1])?);
    assert!(rt; set != with_ones(&[2, 3, 0])?);
    Ok(())
}

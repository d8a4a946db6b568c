// The sets of the pass net, as intervals.
use crate::pass::pass_next_tokens;
use errors::Denial;
use interval_set::Interval;
use std::process::Abort;
use std::test::Fail;

fn has(rt: &impl Abort, s: usize, intervals: &[Interval]) -> Result<(), Fail> {
    let set = pass_next_tokens(s)?;
    assert_eq!(rt; set.intervals(), intervals);
    Ok(())
}

#[test]
fn the_sets_of_the_pass_net(rt: HostRuntime) -> Result<(), Fail> {
    let end_or_one = [Interval { a: -1, b: -1 }, Interval { a: 1, b: 1 }];
    has(&rt, 1, &end_or_one)?;
    has(&rt, 3, &end_or_one)?;
    has(&rt, 8, &[Interval { a: 2, b: 2 }])?;
    has(&rt, 10, &[Interval { a: -2, b: -2 }])?;
    assert!(rt; matches!(pass_next_tokens(11), Err(Denial::StateOutside)));
    Ok(())
}

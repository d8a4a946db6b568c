//! Nets that the tests use.
use atn::Atn;
use atn_graph::{Counts, EdgeRow, RuleRow, StateKind, StateRow, Tables, is_outside, is_short};
use errors::Denial;
use interval_set::Interval;
use std::test::Fail;

pub(crate) fn rule(start: i32, stop: i32) -> RuleRow {
    RuleRow { start, stop }
}

pub(crate) fn state(rule: i32, kind: i32, edges: i32) -> StateRow {
    StateRow { rule, kind, edges }
}

pub(crate) fn edge(kind: i32, target: i32, a: i32, b: i32) -> EdgeRow {
    EdgeRow { kind, target, a, b }
}

pub(crate) fn counts(rules: i32, states: i32, edges: i32, intervals: i32) -> Counts {
    Counts {
        rules,
        states,
        edges,
        intervals,
    }
}

// Whether the net is accepted; if not, the number of the denial.
pub(crate) fn verdict(t: &Tables<'_>) -> Result<(), u8> {
    Atn::check(t).map(drop).map_err(Denial::number)
}

pub(crate) fn verdict_of<'a>(
    max_token_type: i32,
    counts: Counts,
    rules: &'a [RuleRow],
    states: &'a [StateRow],
    edges: &'a [EdgeRow],
) -> Result<(), u8> {
    verdict(&Tables {
        max_token_type,
        counts,
        rules,
        states,
        edges,
        intervals: &[],
    })
}

// A net of one rule with two states, start and stop, and one edge between them.
pub(crate) fn two_states(edge: EdgeRow, intervals: &[Interval]) -> Result<(), u8> {
    let n = i32::from(!intervals.is_empty());
    verdict(&Tables {
        max_token_type: 3,
        counts: counts(1, 2, 1, n),
        rules: &[rule(0, 1)],
        states: &[state(0, 2, 1), state(0, 7, 0)],
        edges: &[edge],
        intervals,
    })
}

#[test]
fn the_pass_net_is_accepted(rt: HostRuntime) -> Result<(), Fail> {
    let rules = [rule(0, 5), rule(6, 10)];
    let states = [
        state(0, 2, 1),
        state(0, 10, 2),
        state(0, 1, 1),
        state(0, 9, 1),
        state(0, 1, 1),
        state(0, 7, 0),
        state(1, 2, 1),
        state(1, 1, 1),
        state(1, 1, 1),
        state(1, 1, 1),
        state(1, 7, 0),
    ];
    let edges = [
        edge(1, 1, 0, 0),
        edge(1, 2, 0, 0),
        edge(1, 4, 0, 0),
        edge(3, 6, 1, 3),
        edge(1, 1, 0, 0),
        edge(5, 5, -1, 0),
        edge(1, 7, 0, 0),
        edge(5, 8, 1, 0),
        edge(5, 9, 2, 0),
        edge(5, 10, 3, 0),
    ];
    let net = Atn::check(&Tables {
        max_token_type: 3,
        counts: counts(2, 11, 10, 0),
        rules: &rules,
        states: &states,
        edges: &edges,
        intervals: &[],
    })?;
    assert_eq!(rt; net.max_token_type(), 3);
    assert_eq!(rt; net.rule_count(), 2);
    assert_eq!(rt; net.state_count(), 11);
    assert_eq!(rt; net.edge_count(), 10);
    assert_eq!(rt; net.interval_count(), 0);
    assert_eq!(rt; net.rule(1).ok_or("no rule 1")?.stop, 10);
    assert!(rt; net.rule(2).is_none());
    assert_eq!(rt; net.state(1).ok_or("no state 1")?.end, 3);
    assert!(rt; net.state(11).is_none());
    assert_eq!(rt; net.edge(3).ok_or("no edge 3")?.target, 6);
    assert!(rt; net.edge(10).is_none());
    Ok(())
}

// A table longer than its count is fine: what lies past the count is not looked at.
#[test]
fn longer_tables_are_accepted(rt: HostRuntime) {
    assert_eq!(rt;
        verdict(&Tables {
            max_token_type: 1,
            counts: counts(1, 2, 1, 0),
            rules: &[rule(0, 1), rule(-7, 99)],
            states: &[state(0, 2, 1), state(0, 7, 0), state(9, 6, -1)],
            edges: &[edge(5, 1, -1, 77), edge(0, 0, 0, 0)],
            intervals: &[Interval { a: 9, b: -9 }],
        }),
        Ok(())
    );
}

#[test]
fn a_clone_is_the_same_net(rt: HostRuntime) -> Result<(), Fail> {
    let net = Atn::check(&Tables {
        max_token_type: 1,
        counts: counts(1, 2, 1, 0),
        rules: &[rule(0, 1)],
        states: &[state(0, 2, 1), state(0, 7, 0)],
        edges: &[edge(5, 1, -1, 0)],
        intervals: &[],
    })?;
    let twin = net.clone()?;
    assert_eq!(rt; twin.max_token_type(), 1);
    assert_eq!(rt; twin.rule(0).ok_or("no rule 0")?.stop, 1);
    assert_eq!(rt; twin.state_count(), 2);
    assert_eq!(rt; twin.edge(0).ok_or("no edge 0")?.target, 1);
    assert_eq!(rt; twin.interval_count(), 0);
    Ok(())
}

// A table can be too short and a count outside its limits at once.
#[test]
fn short_and_outside(rt: HostRuntime) {
    let tables = Tables {
        max_token_type: 256,
        counts: counts(1, 2, 0, 0),
        rules: &[],
        states: &[],
        edges: &[],
        intervals: &[],
    };
    assert!(rt; is_short(&tables));
    assert!(rt; is_outside(&tables));
}

#[test]
fn kinds_have_their_numbers(rt: HostRuntime) -> Result<(), Fail> {
    assert_eq!(rt; StateKind::BlockEnd.number(), 8);
    assert_eq!(rt; StateKind::try_from(12)?.number(), 12);
    Ok(())
}

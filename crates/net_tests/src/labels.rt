//! The types that edges take.
use crate::nets::*;
use atn::Atn;
use atn_graph::Tables;
use interval_set::Interval;
use std::process::Abort;
use std::test::Fail;

fn has(rt: &impl Abort, net: &Atn, j: usize, types: &[i32]) -> Result<(), Fail> {
    let label = net.label(j).ok_or("no such edge")?;
    assert_eq!(rt; label.length(), types.len());
    for t in types {
        assert!(rt; label.contains(*t));
    }
    Ok(())
}

// One edge of each kind that takes tokens, and one that takes none; the largest type is 4.
#[test]
fn each_kind_has_its_label(rt: HostRuntime) -> Result<(), Fail> {
    let net = Atn::check(&Tables {
        max_token_type: 4,
        counts: counts(1, 2, 7, 3),
        rules: &[rule(0, 1)],
        states: &[state(0, 2, 7), state(0, 7, 0)],
        edges: &[
            edge(5, 1, -1, 0),
            edge(5, 1, 4, 0),
            edge(2, 1, 2, 4),
            edge(7, 1, 0, 3),
            edge(8, 1, 0, 3),
            edge(9, 1, 0, 0),
            edge(4, 1, 0, 0),
        ],
        intervals: &[
            Interval { a: 3, b: 4 },
            Interval { a: -1, b: -1 },
            Interval { a: 3, b: 3 },
        ],
    })?;
    has(&rt, &net, 0, &[-1])?;
    has(&rt, &net, 1, &[4])?;
    has(&rt, &net, 2, &[2, 3, 4])?;
    has(&rt, &net, 3, &[-1, 3, 4])?;
    has(&rt, &net, 4, &[1, 2])?;
    has(&rt, &net, 5, &[1, 2, 3, 4])?;
    has(&rt, &net, 6, &[])?;
    assert!(rt; net.label(7).is_none());
    Ok(())
}

// Atom 1 and not-set {1} lead to one state: the crate that this is modelled on drops the later
// edge.
#[test]
fn every_edge_counts(rt: HostRuntime) -> Result<(), Fail> {
    let net = Atn::check(&Tables {
        max_token_type: 2,
        counts: counts(1, 2, 2, 1),
        rules: &[rule(0, 1)],
        states: &[state(0, 2, 2), state(0, 7, 0)],
        edges: &[edge(5, 1, 1, 0), edge(8, 1, 0, 1)],
        intervals: &[Interval { a: 1, b: 1 }],
    })?;
    assert_eq!(rt; net.edge_count(), 2);
    has(&rt, &net, 0, &[1])?;
    has(&rt, &net, 1, &[2])
}

// The same edge twice: the crate drops the second.
#[test]
fn an_edge_written_twice(rt: HostRuntime) -> Result<(), Fail> {
    let net = Atn::check(&Tables {
        max_token_type: 2,
        counts: counts(1, 2, 2, 0),
        rules: &[rule(0, 1)],
        states: &[state(0, 2, 2), state(0, 7, 0)],
        edges: &[edge(5, 1, 1, 0), edge(5, 1, 1, 0)],
        intervals: &[],
    })?;
    assert_eq!(rt; net.edge_count(), 2);
    has(&rt, &net, 0, &[1])?;
    has(&rt, &net, 1, &[1])
}

// The intervals 5 7 9 5..10 1 3 1..9 hold 1 to 10: the crate loses 10, so that its not-set takes
// it.
#[test]
fn a_not_set_of_overlapping_intervals(rt: HostRuntime) -> Result<(), Fail> {
    let net = Atn::check(&Tables {
        max_token_type: 10,
        counts: counts(1, 2, 1, 7),
        rules: &[rule(0, 1)],
        states: &[state(0, 2, 1), state(0, 7, 0)],
        edges: &[edge(8, 1, 0, 7)],
        intervals: &[
            Interval { a: 5, b: 5 },
            Interval { a: 7, b: 7 },
            Interval { a: 9, b: 9 },
            Interval { a: 5, b: 10 },
            Interval { a: 1, b: 1 },
            Interval { a: 3, b: 3 },
            Interval { a: 1, b: 9 },
        ],
    })?;
    has(&rt, &net, 0, &[])
}

//! For each denial the smallest net that meets it, and nets with two faults.
use crate::nets::*;
use atn_graph::Tables;
use interval_set::Interval;

#[test]
fn a_short_table(rt: HostRuntime) {
    assert_eq!(rt;
        verdict(&Tables {
            max_token_type: 1,
            counts: counts(1, 0, 0, 0),
            rules: &[],
            states: &[],
            edges: &[],
            intervals: &[],
        }),
        Err(1)
    );
}

#[test]
fn counts_outside_their_limits(rt: HostRuntime) {
    assert_eq!(rt;
        verdict(&Tables {
            max_token_type: 1,
            counts: counts(0, 0, 0, 0),
            rules: &[],
            states: &[],
            edges: &[],
            intervals: &[],
        }),
        Err(2)
    );
}

#[test]
fn a_largest_type_outside_its_limits(rt: HostRuntime) {
    for max_token_type in [0, 256] {
        assert_eq!(rt;
            verdict(&Tables {
                max_token_type,
                counts: counts(1, 2, 1, 0),
                rules: &[rule(0, 1)],
                states: &[state(0, 2, 1), state(0, 7, 0)],
                edges: &[edge(1, 1, 0, 0)],
                intervals: &[],
            }),
            Err(2)
        );
    }
}

// The smallest net is accepted with one edge to its stop state, and denied with that edge damaged.
#[test]
fn a_broken_rule(rt: HostRuntime) {
    assert_eq!(rt; two_states(edge(1, 1, 0, 0), &[]), Ok(()));
    for bad in [
        edge(0, 1, 0, 0),
        edge(11, 1, 0, 0),
        edge(1, 2, 0, 0),
        edge(1, -1, 0, 0),
        edge(2, 1, 0, 3),
        edge(2, 1, 3, 2),
        edge(2, 1, 1, 4),
        edge(5, 1, 0, 0),
        edge(5, 1, 4, 0),
        edge(5, 1, -2, 0),
        edge(3, 1, 0, 1),
        edge(3, 0, 0, 2),
        edge(3, 0, 1, 1),
    ] {
        assert_eq!(rt; two_states(bad, &[]), Err(3));
    }
}

#[test]
fn a_broken_set(rt: HostRuntime) {
    let fine = [Interval { a: -1, b: -1 }];
    assert_eq!(rt; two_states(edge(7, 1, 0, 1), &fine), Ok(()));
    assert_eq!(rt; two_states(edge(8, 1, 0, 1), &fine), Ok(()));
    assert_eq!(rt; two_states(edge(7, 1, 0, 0), &fine), Err(3));
    assert_eq!(rt; two_states(edge(7, 1, 1, 1), &fine), Err(3));
    assert_eq!(rt; two_states(edge(8, 1, 0, 2), &fine), Err(3));
    assert_eq!(rt; two_states(edge(8, 1, -1, 1), &fine), Err(3));
    for i in [
        Interval { a: -1, b: 1 },
        Interval { a: 2, b: 1 },
        Interval { a: 1, b: 4 },
    ] {
        assert_eq!(rt; two_states(edge(7, 1, 0, 1), &[i]), Err(3));
    }
}

// A rule that calls itself first.
#[test]
fn a_left_recursive_rule(rt: HostRuntime) {
    assert_eq!(rt; two_states(edge(3, 0, 0, 1), &[]), Err(4));
}

// Rule 0 calls rule 1, which can be empty, and then itself.
#[test]
fn hidden_left_recursion(rt: HostRuntime) {
    let rules = [rule(0, 2), rule(3, 4)];
    let states = [
        state(0, 2, 1),
        state(0, 1, 1),
        state(0, 7, 0),
        state(1, 2, 1),
        state(1, 7, 0),
    ];
    let empty = [edge(3, 3, 1, 1), edge(3, 0, 0, 2), edge(1, 4, 0, 0)];
    let takes_one = [edge(3, 3, 1, 1), edge(3, 0, 0, 2), edge(5, 4, 1, 0)];
    let rows = counts(2, 5, 3, 0);
    assert_eq!(rt; verdict_of(1, rows, &rules, &states, &empty), Err(4));
    assert_eq!(rt; verdict_of(1, rows, &rules, &states, &takes_one), Ok(()));
}

// Of two faults the one with the lower number is answered.
#[test]
fn the_first_of_two_faults(rt: HostRuntime) {
    let rules = [rule(0, 1)];
    let states = [state(0, 2, 1), state(0, 7, 0)];
    let calls_itself = [edge(3, 0, 0, 1), edge(1, 1, 0, 0)];
    assert_eq!(rt;
        verdict_of(0, counts(1, 513, 2, 0), &rules, &states, &calls_itself),
        Err(1)
    );
    assert_eq!(rt;
        verdict_of(0, counts(1, 2, 2, 0), &rules, &states, &calls_itself),
        Err(2)
    );
    assert_eq!(rt;
        verdict_of(1, counts(1, 2, 2, 0), &rules, &states, &calls_itself),
        Err(3)
    );
    assert_eq!(rt;
        verdict_of(1, counts(1, 2, 1, 0), &rules, &states, &calls_itself),
        Err(4)
    );
}

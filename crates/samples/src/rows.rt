// The rows of the pass net, by macros, since a constant cannot call a function.
use atn_graph::{EdgeRow, RuleRow, StateRow};

macro_rules! rule {
    ($start:expr, $stop:expr) => {
        RuleRow {
            start: $start,
            stop: $stop,
        }
    };
}

macro_rules! state {
    ($rule:expr, $kind:expr, $edges:expr) => {
        StateRow {
            rule: $rule,
            kind: $kind,
            edges: $edges,
        }
    };
}

macro_rules! edge {
    ($kind:expr, $target:expr, $a:expr, $b:expr) => {
        EdgeRow {
            kind: $kind,
            target: $target,
            a: $a,
            b: $b,
        }
    };
}

pub(crate) const RULES: [RuleRow; 2] = [rule!(0, 5), rule!(6, 10)];

pub(crate) const STATES: [StateRow; 11] = [
    state!(0, 2, 1),
    state!(0, 10, 2),
    state!(0, 1, 1),
    state!(0, 9, 1),
    state!(0, 1, 1),
    state!(0, 7, 0),
    state!(1, 2, 1),
    state!(1, 1, 1),
    state!(1, 1, 1),
    state!(1, 1, 1),
    state!(1, 7, 0),
];

pub(crate) const EDGES: [EdgeRow; 10] = [
    edge!(1, 1, 0, 0),
    edge!(1, 2, 0, 0),
    edge!(1, 4, 0, 0),
    edge!(3, 6, 1, 3),
    edge!(1, 1, 0, 0),
    edge!(5, 5, -1, 0),
    edge!(1, 7, 0, 0),
    edge!(5, 8, 1, 0),
    edge!(5, 9, 2, 0),
    edge!(5, 10, 3, 0),
];

//! The tables of a net as an owner writes them: rows of plain numbers, nothing checked.
use interval_set::Interval;

/// A rule: its start state and its stop state.
#[derive(Clone, Copy)]
pub struct RuleRow {
    pub start: i32,
    pub stop: i32,
}

/// A state: the rule it lies in, its kind's number, and how many edges it has.
#[derive(Clone, Copy)]
pub struct StateRow {
    pub rule: i32,
    pub kind: i32,
    pub edges: i32,
}

/// An edge: its kind's number, its target, and two columns whose meaning the kind gives.
#[derive(Clone, Copy)]
pub struct EdgeRow {
    pub kind: i32,
    pub target: i32,
    pub a: i32,
    pub b: i32,
}

/// How many rows of each table count: 1 to 64 rules, 2 to 512 states, at most 2,048 edges and 1,024
/// intervals.
#[derive(Clone, Copy)]
pub struct Counts {
    pub rules: i32,
    pub states: i32,
    pub edges: i32,
    pub intervals: i32,
}

/// The tables of a net, with a largest token type of 1 to 255. A table may be longer than its
/// count: the rows past the count are not looked at. One that is shorter is denied by the check.
#[derive(Clone, Copy)]
pub struct Tables<'a> {
    pub max_token_type: i32,
    pub counts: Counts,
    pub rules: &'a [RuleRow],
    pub states: &'a [StateRow],
    pub edges: &'a [EdgeRow],
    pub intervals: &'a [Interval],
}

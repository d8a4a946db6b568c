//! From rows of numbers to the net that they write down.
ghost use Rattle.std.specs.Prelude.{◌≡◌, ◌+◌, ◌^◌, ◌<◌, ◌≤◌, false, pos, ◌<ℤ◌};
ghost use Rattle.std.specs.Prelude.{None, Some, MatchOption, List, length};
ghost use Rattle.std.specs.List.{Any, AllZip};
ghost use Rattle.fixed_vec.specs.Items.{items};
ghost use Rattle.atn_graph.specs.declared.lists.Rule.{Rule as RuleStates};
ghost use Rattle.atn_graph.specs.Reading.{IsCount, FirstRows, KindRead, StatesRead};
ghost use Rattle.atn_graph.specs.Net.{Net, net};
ghost use Rattle.atn_graph.specs.Tables.{max_states, rows, short_table, outside_limits};
ghost use Rattle.atn_graph.specs.Written.{rule_row, WritesState, WritesEdge, WritesNet};

use crate::atn_state::{AtnState, StateKind};
use crate::limits::MAX_STATES;
use crate::lists::{Lists, Rule};
use crate::tables::{EdgeRow, RuleRow, StateRow, Tables};
use crate::transition::{Transition, TransitionKind};
use fixed_vec::FixedVec;
use interval_set::Interval;

// The number as an index, None where it is below 0.
fn index(n: i32) -> Option<usize>
    ensures { MatchOption result (n <ℤ pos 0) (λ k. (n ≡ pos k) × (k < 2 ^ 31)) }
{
    usize::try_from(n).ok()
}

// The rows of a table that count.
fn counted<R>(table: &[R], count: i32) -> &[R]
    requires { IsCount count table.now }
    ensures { FirstRows count table.now result.now }
{
    &table[..count as usize]
}

// The rows read, each by itself.
fn read_rows<R: Copy, T: Copy + Default, F: Fn(R) -> Option<T>, const N: usize>(
    rows: &[R],
    read: F,
) -> Option<FixedVec<T, N>>
    requires callable { F.IsAlwaysCallable read }
    requires bounded { length rows.now ≤ N }
    ensures { MatchOption result
        (Any (λ row. F.post read row None) rows.now)
        (λ xs. AllZip (λ row x. F.post read row (Some x)) rows.now (items xs)) }
{
    let mut xs = FixedVec::new();
    for row in rows {
        xs.push(read(*row)?).unwrap();
    }
    Some(xs)
}

// A rule, None where a number is below 0.
fn read_rule(row: RuleRow) -> Option<Rule>
    ensures { MatchOption result
        ((r : RuleStates) → rule_row r ≡ row → ⊥)
        (λ r. rule_row r ≡ row) }
{
    Some(Rule {
        start: index(row.start)?,
        stop: index(row.stop)?,
    })
}

// The kind of an edge, with what the kind's columns say.
fn read_kind(row: EdgeRow) -> Option<TransitionKind>
    ensures { MatchOption result
        ((k : TransitionKind) → KindRead row k → ⊥)
        (λ k. KindRead row k) }
{
    match row.kind {
        1 => Some(TransitionKind::Epsilon),
        2 => Some(TransitionKind::Range(Interval { a: row.a, b: row.b })),
        3 => Some(TransitionKind::Rule {
            rule: index(row.a)?,
            follow: index(row.b)?,
        }),
        4 => Some(TransitionKind::Predicate),
        5 => Some(TransitionKind::Atom(row.a)),
        6 => Some(TransitionKind::Action),
        7 => Some(TransitionKind::Set {
            first: index(row.a)?,
            count: index(row.b)?,
        }),
        8 => Some(TransitionKind::NotSet {
            first: index(row.a)?,
            count: index(row.b)?,
        }),
        9 => Some(TransitionKind::Wildcard),
        10 => Some(TransitionKind::Precedence),
        _ => None,
    }
}

// An edge, None where it has no kind or a number that must be an index is below 0.
fn read_edge(row: EdgeRow) -> Option<Transition>
    ensures { MatchOption result
        ((e : Transition) → WritesEdge row e → ⊥)
        (λ e. WritesEdge row e) }
{
    Some(Transition {
        target: index(row.target)?,
        kind: read_kind(row)?,
    })
}

// A state whose edges begin at first.
fn read_state(row: StateRow, first: usize) -> Option<AtnState>
    requires { first ≤ 2 ^ 40 }
    ensures { MatchOption result
        ((s : AtnState) → WritesState row first s → ⊥)
        (λ s. WritesState row first s × (s.end ≤ first + 2 ^ 31)) }
{
    let rule = index(row.rule)?;
    let kind = StateKind::try_from(row.kind).ok()?;
    let run = index(row.edges)?;
    Some(AtnState {
        rule,
        kind,
        first,
        end: first + run,
    })
}

// The states, each with its run of edges after the runs of those before it.
fn read_states(rows: &[StateRow]) -> Option<FixedVec<AtnState, MAX_STATES>>
    requires bounded { length rows.now ≤ max_states }
    ensures { MatchOption result
        ((ss : List AtnState) → StatesRead rows.now (length rows.now) ss → ⊥)
        (λ ss. (length (items ss) ≡ length rows.now)
        × StatesRead rows.now (length rows.now) (items ss)) }
{
    let mut states = FixedVec::new();
    let mut first = 0;
    for row in rows {
        let state = read_state(*row, first)?;
        states.push(state).unwrap();
        first = state.end;
    }
    Some(states)
}

/// The net that the tables write, None where they write none.
pub(crate) fn read(t: &Tables<'_>) -> Option<Lists>
    requires long { short_table (rows t.now) ≡ false }
    requires limits { outside_limits (rows t.now) ≡ false }
    ensures { MatchOption result
        ((n : Net) → WritesNet (rows t.now) n → ⊥)
        (λ l. WritesNet (rows t.now) (net l)) }
{
    let counts = t.counts;
    Some(Lists {
        max_token_type: t.max_token_type,
        rules: read_rows(counted(t.rules, counts.rules), read_rule)?,
        states: read_states(counted(t.states, counts.states))?,
        edges: read_rows(counted(t.edges, counts.edges), read_edge)?,
        intervals: read_rows(counted(t.intervals, counts.intervals), Some)?,
    })
}

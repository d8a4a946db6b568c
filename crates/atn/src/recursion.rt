//! Left recursion.
ghost use Rattle.std.specs.Prelude.{◌≡◌, Decides};
ghost use Rattle.std.specs.List.{list_any};
ghost use Rattle.atn_graph.specs.Net.{net};
ghost use Rattle.atn.specs.Calls.{is_call, calls};
ghost use Rattle.atn.specs.Found.{found};
ghost use Rattle.atn.specs.Reach.{KnowsNullable};
ghost use Rattle.atn.specs.Walks.{LeftRecursiveFrom, HasLeftRecursion};

use crate::nullable::NullableStates;
use atn_graph::{Graph, Move, Transition};

// Whether the edge calls the rule that starts at t.
fn is_call(e: &Transition, t: usize) -> bool
    ensures { result ≡ is_call t e.now }
{
    match e.kind.moves() {
        Move::Call { follow: _ } => e.target == t,
        Move::Along | Move::Token => false,
    }
}

// Whether one of the edges calls the rule that starts at t.
fn any_calls(edges: &[Transition], t: usize) -> bool
    ensures { result ≡ list_any (is_call t) edges.now }
{
    edges.iter().any(|e| is_call(e, t))
}

// Whether an edge of one of the states calls the rule that starts at t.
fn some_call(g: &Graph, states: &[usize], t: usize) -> bool
    ensures { result ≡ list_any (λ s. calls (net g.now.lists) s t) states.now }
{
    states.iter().any(|s| any_calls(g.edges(*s), t))
}

// Whether a walk from the start state s on an empty stack reaches a rule edge to s.
fn is_recursive(nullables: &NullableStates<'_>, s: usize) -> bool
    requires { KnowsNullable (net nullables.now.graph.now.lists) (found nullables.now.states) }
    ensures { Decides result (LeftRecursiveFrom (net nullables.now.graph.now.lists) s) }
{
    some_call(nullables.graph, nullables.reach(s).states(), s)
}

/// Whether a rule of the graph is left-recursive.
pub(crate) fn is_left_recursive(g: &Graph) -> bool
    ensures { Decides result (HasLeftRecursion (net g.now.lists)) }
{
    let nullables = NullableStates::of(g);
    for rule in g.lists.rules.iter() {
        if is_recursive(&nullables, rule.start) {
            return true;
        }
    }
    false
}

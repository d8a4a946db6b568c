//! The checked net: its check, and what it tells of itself.
ghost use Rattle.std.specs.Prelude.{◌≡◌, ⊤, length, IfOk};
ghost use Rattle.errors.specs.Denials.{DeniesFirst};
ghost use Rattle.atn_graph.specs.Net.{net, size, state_at, edges_of, no_rule, no_state, no_edge};
ghost use Rattle.atn_graph.specs.Tables.{rows};
ghost use Rattle.atn_graph.specs.Written.{WritesNet};
ghost use Rattle.atn.specs.Walks.{HasLeftRecursion};

use crate::recursion::is_left_recursive;
use atn_graph::{AtnState, Graph, Rule, StateKind, Tables, Transition};
use errors::Denial;
use std::alloc::AllocError;

/// A net that keeps every rule: whoever holds one needs no further check. It is about 90 KB large:
/// hand it on by reference.
#[derive(Drop)]
pub struct Atn {
    pub graph: Graph,
    ghost not_left_recursive: { HasLeftRecursion (net graph.lists) → ⊥ },
}

impl Atn {
    ghost use Rattle.atn.specs.Checked.{net_of, NetFault, Picks, kind_of, start_of};

    /// The net that the tables write. Denied with the first that fits of `ShortTable` (a table has
    /// fewer rows than its count), `OutsideLimits` (a count or the largest token type),
    /// `BrokenRule` (the tables write no net that keeps the rules) and `LeftRecursion`.
    pub fn check(t: &Tables<'_>) -> Result<Atn, Denial>
        ensures verdict { DeniesFirst (NetFault (rows t.now)) result }
        ensures written { IfOk result (λ n. WritesNet (rows t.now) (net_of n)) }
    {
        let graph = Graph::check(t)?;
        if is_left_recursive(&graph) {
            return Err(Denial::LeftRecursion);
        }
        Ok(Atn { graph })
    }

    /// The largest token type: 1 to 255.
    pub fn max_token_type(&self) -> i32
        ensures { result ≡ (net_of self.now).max }
    {
        self.graph.lists.max_token_type
    }

    /// How many rules there are: 1 to 64.
    pub fn rule_count(&self) -> usize
        ensures { result ≡ length (net_of self.now).rules }
    {
        self.graph.lists.rules.len()
    }

    /// How many states there are: 2 to 512.
    pub fn state_count(&self) -> usize
        ensures { result ≡ size (net_of self.now) }
    {
        self.graph.lists.states.len()
    }

    /// How many edges there are: at most 2,048.
    pub fn edge_count(&self) -> usize
        ensures { result ≡ length (net_of self.now).edges }
    {
        self.graph.lists.edges.len()
    }

    /// How many intervals there are in the sets of the edges: at most 1,024.
    pub fn interval_count(&self) -> usize
        ensures { result ≡ length (net_of self.now).intervals }
    {
        self.graph.lists.intervals.len()
    }

    /// Rule number r, None past the last.
    pub fn rule(&self, r: usize) -> Option<Rule>
        ensures { Picks (net_of self.now).rules no_rule r result }
    {
        self.graph.lists.rules.get(r).copied()
    }

    /// State number s, None past the last.
    pub fn state(&self, s: usize) -> Option<AtnState>
        ensures { Picks (net_of self.now).states no_state s result }
    {
        self.graph.lists.states.get(s).copied()
    }

    /// Edge number j, None past the last.
    pub fn edge(&self, j: usize) -> Option<Transition>
        ensures { Picks (net_of self.now).edges no_edge j result }
    {
        self.graph.lists.edges.get(j).copied()
    }

    /// The kind of state number s, None past the last.
    pub fn state_kind(&self, s: usize) -> Option<StateKind>
        ensures { result ≡ kind_of (net_of self.now) s }
    {
        self.state(s).map(|state| state.kind)
    }

    /// The rule of state number s, 0 past the last.
    pub fn state_rule(&self, s: usize) -> usize
        ensures { result ≡ (state_at (net_of self.now) s).rule }
    {
        self.state(s).map_or(0, |state| state.rule)
    }

    /// The start state of rule number r, None past the last.
    pub fn rule_start(&self, r: usize) -> Option<usize>
        ensures { result ≡ start_of (net_of self.now) r }
    {
        self.rule(r).map(|rule| rule.start)
    }

    /// The edges of state number s, none past the last.
    pub fn edges(&self, s: usize) -> &[Transition]
        ensures { result.now ≡ edges_of (net_of self.now) s }
    {
        self.graph.edges(s)
    }
}

impl Clone for Atn {
    ghost is_clone = { λ v w. w ≡ v };

    ghost is_infallible = { λ _. ⊤ };

    fn clone(&self) -> Result<Atn, AllocError> {
        Ok(Atn {
            graph: self.graph.clone()?,
        })
    }
}

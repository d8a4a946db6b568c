//! The graph of a net, whose tables are checked up to left recursion.
ghost use Rattle.std.specs.Prelude.{◌≡◌, ◌≤◌, ⊤, false, IfOk, length, slice_range};
ghost use Rattle.errors.specs.Denials.{DeniesFirst};
ghost use Rattle.atn_graph.specs.Faults.{TableFault};
ghost use Rattle.atn_graph.specs.Kinds.{is_stop};
ghost use Rattle.atn_graph.specs.Net.{Runs, net, state_at, edges_of};
ghost use Rattle.atn_graph.specs.Rules.{IsSoundNet, beyond_limits};
ghost use Rattle.atn_graph.specs.Tables.{rows};
ghost use Rattle.atn_graph.specs.Written.{WritesNet};

use crate::limits::{is_outside, is_short};
use crate::lists::Lists;
use crate::read::read;
use crate::tables::Tables;
use crate::transition::Transition;
use errors::Denial;
use std::alloc::AllocError;

/// A net that keeps every rule but, perhaps, that no rule is left-recursive. It is about 90 KB
/// large: hand it on by reference.
#[derive(Drop)]
pub struct Graph {
    pub lists: Lists,
    ghost limits: { beyond_limits (net lists) ≡ false },
    ghost runs: { ∥ Runs (net lists) ∥₁ },
    ghost sound: { ∥ IsSoundNet (net lists) ∥₁ },
}

// The edges numbered from first up to end, end excluded.
fn run(edges: &[Transition], first: usize, end: usize) -> &[Transition]
    requires rises { first ≤ end }
    requires ends { end ≤ length edges.now }
    ensures { result.now ≡ slice_range edges.now first end }
{
    &edges[first..end]
}

impl Graph {
    /// The graph that the tables write. Denied with the first that fits of `ShortTable` (a table
    /// has fewer rows than its count), `OutsideLimits` (a count or the largest token type) and
    /// `BrokenRule` (the tables write no net that keeps the rules).
    pub fn check(t: &Tables<'_>) -> Result<Graph, Denial>
        ensures verdict { DeniesFirst (TableFault (rows t.now)) result }
        ensures written { IfOk result (λ g. WritesNet (rows t.now) (net g.lists)) }
    {
        if is_short(t) {
            return Err(Denial::ShortTable);
        }
        if is_outside(t) {
            return Err(Denial::OutsideLimits);
        }
        let Some(lists) = read(t) else {
            return Err(Denial::BrokenRule);
        };
        lists.check_rules()?;
        Ok(Graph { lists })
    }

    /// Whether state number s is a stop state; one past the last is none.
    pub fn is_stop(&self, s: usize) -> bool
        ensures { result ≡ is_stop (state_at (net self.now.lists) s).kind }
    {
        self.lists
            .states
            .get(s)
            .is_some_and(|state| state.kind.is_stop())
    }

    /// The edges of state number s, none past the last state.
    pub fn edges(&self, s: usize) -> &[Transition]
        ensures { result.now ≡ edges_of (net self.now.lists) s }
    {
        match self.lists.states.get(s) {
            Some(state) => run(&self.lists.edges, state.first, state.end),
            None => &[],
        }
    }
}

impl Clone for Graph {
    ghost is_clone = { λ v w. w ≡ v };

    ghost is_infallible = { λ _. ⊤ };

    fn clone(&self) -> Result<Graph, AllocError> {
        Ok(Graph {
            lists: self.lists.clone()?,
        })
    }
}

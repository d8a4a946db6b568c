//! Nullable states: those from which a walk on an empty stack can end on a stop state. And what a
//! state reaches over them.
ghost use Rattle.std.specs.Prelude.{◌≡◌, ℕ, ◌<◌, ◌≤◌, [], Decides};
ghost use Rattle.std.specs.List.{list_any};
ghost use Rattle.atn_graph.specs.declared.transition.Move.TheVariants.{Call};
ghost use Rattle.atn_graph.specs.Kinds.{move_of};
ghost use Rattle.atn_graph.specs.Net.{net, size};
ghost use Rattle.atn_graph.specs.Tables.{max_states};
ghost use Rattle.atn.specs.Marks.{elem, Grown};
ghost use Rattle.atn.specs.Found.{found};
ghost use Rattle.atn.specs.Passes.{over_listed, Falls, Pass};
ghost use Rattle.atn.specs.Reach.{KnowsNullable, StepOver, Listed, LeadsOver, KnowsReachedOver};

use crate::visits::Visits;
use atn_graph::{Graph, Move, Transition};

// Whether the edge leads over the states.
fn leads_over(states: &Visits, e: &Transition) -> bool
    ensures { result ≡ over_listed (found states.now) e.now }
{
    match e.kind.moves() {
        Move::Along => states.has(e.target),
        Move::Call { follow } => states.has(e.target) && states.has(follow),
        Move::Token => false,
    }
}

// Whether one of the edges leads over the states.
fn any_leads_over(states: &Visits, edges: &[Transition]) -> bool
    ensures { result ≡ list_any (over_listed (found states.now)) edges.now }
{
    edges.iter().any(|e| leads_over(states, e))
}

// Whether s is a stop state or has an edge that leads over the states.
fn falls(graph: &Graph, states: &Visits, s: usize) -> bool
    ensures { Decides result (Falls (net graph.now.lists) (found states.now) s) }
{
    graph.is_stop(s) || any_leads_over(states, graph.edges(s))
}

// One pass over the states of the graph: those that fall are noted.
fn pass(graph: &Graph, states: &mut Visits)
    ensures { Pass (net graph.now.lists) (size (net graph.now.lists))
        (found states.old) (found states.new) }
{
    for s in 0..graph.lists.states.len() {
        if falls(graph, states, s) {
            states.note(s);
        }
    }
}

/// A graph, and the states of it that walks may step over: the nullable ones, as `of` finds them.
#[derive(Clone, Copy)]
pub struct NullableStates<'g> {
    pub graph: &'g Graph,
    pub states: Visits,
}

impl<'g> NullableStates<'g> {
    /// The nullable states of the graph.
    pub fn of(graph: &'g Graph) -> NullableStates<'g>
        ensures graph { result.graph.now ≡ graph.now }
        ensures known { KnowsNullable (net graph.now.lists) (found result.states) }
    {
        let mut states = Visits::new();
        // passes until one adds nothing
        loop {
            let before = states.len();
            pass(graph, &mut states);
            if states.len() == before {
                return NullableStates { graph, states };
            }
        }
    }

    /// Whether state number s is one of the states at hand.
    pub fn has(&self, s: usize) -> bool
        ensures { result ≡ elem s (found self.now.states) }
    {
        self.states.has(s)
    }

    // Notes the states that the edge leads to.
    fn follow(&self, e: &Transition, visits: &mut Visits)
        requires target { e.now.target < max_states }
        requires follow { (f : ℕ) → move_of e.now.kind ≡ Call f → f < max_states }
        ensures { Grown (LeadsOver (Listed (found self.now.states)) e.now)
            (found visits.old) (found visits.new) }
    {
        match e.kind.moves() {
            Move::Along => visits.note(e.target),
            Move::Call { follow } => {
                visits.note(e.target);
                if self.has(e.target) {
                    visits.note(follow);
                }
            }
            Move::Token => {}
        }
    }

    // Notes the states that the edges of s lead to.
    fn visit(&self, s: usize, visits: &mut Visits)
        ensures { Grown (StepOver (Listed (found self.now.states)) (net self.now.graph.now.lists) s)
            (found visits.old) (found visits.new) }
    {
        for e in self.graph.edges(s) {
            self.follow(e, visits);
        }
    }

    /// The states that state number s reaches over the states at hand, none of a state outside the
    /// net.
    pub fn reach(&self, s: usize) -> Visits
        ensures inside { s < size (net self.now.graph.now.lists)
            → KnowsReachedOver (Listed (found self.now.states)) (net self.now.graph.now.lists) s
            (found result) }
        ensures outside { size (net self.now.graph.now.lists) ≤ s → found result ≡ [] }
    {
        let mut visits = Visits::new();
        if s >= self.graph.lists.states.len() {
            return visits;
        }
        visits.note(s);
        // each state found is visited once, in the order of finding, while the list grows
        let mut next = 0;
        while let Some(k) = visits.states().get(next).copied() {
            self.visit(k, &mut visits);
            next += 1;
        }
        visits
    }
}

//! From a chain of invoking states to the follow states of the open rules.
ghost use Rattle.std.specs.Prelude.{◌≡◌, ◌+◌, ◌≤◌, ◌++◌, length, map};
ghost use Rattle.std.specs.Option.{option_map};
ghost use Rattle.fixed_vec.specs.Items.{items};
ghost use Rattle.atn.specs.Checked.{net_of};
ghost use Rattle.ll1_analyzer.specs.Chains.{first_follow};
ghost use Rattle.ll1_analyzer.specs.Listing.{follow, ReadsCalls, Lists};

use crate::lookahead::Lookahead;
use atn_graph::{Move, Transition};
use errors::Denial;
use fixed_vec::FixedVec;

/// How many states a chain of invoking states holds at most.
pub const MAX_CHAIN: usize = 63;

/// The follow states of the open rules, innermost first: each state of a chain has one.
pub type FollowStates = FixedVec<usize, MAX_CHAIN>;

/// A rule edge, by the state that follows the call.
#[derive(Clone, Copy, Default)]
pub struct RuleTransition {
    pub follow_state: usize,
}

// The rule edge that is the first of some edges, if it is one.
fn rule_transition(edges: &[Transition]) -> Option<RuleTransition>
    ensures { option_map follow result ≡ first_follow edges.now }
{
    let edge = edges.first().copied()?;
    match edge.kind.moves() {
        Move::Call { follow } => Some(RuleTransition {
            follow_state: follow,
        }),
        Move::Along | Move::Token => None,
    }
}

// Adds the follow states of the calls, one by one.
fn add_follow_states(calls: &[RuleTransition], follows: &mut FollowStates)
    requires { length (items follows.old) + length calls.now ≤ MAX_CHAIN }
    ensures { items follows.new ≡ items follows.old ++ map follow calls.now }
{
    if let Some((call, rest)) = calls.split_first() {
        // there is room for it
        let _ = follows.push(call.follow_state);
        add_follow_states(rest, follows);
    }
}

// The rule edges of the states of a chain, read out of the lookahead.
fn rule_transitions<L: Lookahead>(
    l: &L,
    chain: &[usize],
) -> Result<FixedVec<RuleTransition, MAX_CHAIN>, Denial>
    ensures { ReadsCalls (net_of (L.atn l.now)) chain.now result }
{
    if chain.len() > MAX_CHAIN {
        return Err(Denial::FaultyChain);
    }
    let mut calls = FixedVec::new();
    for s in chain {
        let call = rule_transition(l.edges(*s)).ok_or(Denial::FaultyChain)?;
        calls.push(call).map_err(|_| Denial::FaultyChain)?;
    }
    Ok(calls)
}

/// The follow states of a chain of invoking states, innermost first. Denied with `FaultyChain` if
/// the chain is too long, or a state in it calls no rule.
pub fn follow_list<L: Lookahead>(l: &L, chain: &[usize]) -> Result<FollowStates, Denial>
    ensures { Lists (net_of (L.atn l.now)) chain.now result }
{
    let calls = rule_transitions(l, chain)?;
    let mut follows = FollowStates::new();
    // there is a call for each state
    add_follow_states(&calls[..chain.len()], &mut follows);
    Ok(follows)
}

//! A net as Graphviz shows it.

use crate::script_answers::write_intervals;
use atn::Atn;
use atn_graph::TransitionKind;
use std::fmt;

/// A net in the language of Graphviz: each state with its number and kind, in the cluster of its rule, stop
/// states doubled; each edge with the types that it takes, or with the rule that it calls and the state that
/// follows the call.
#[derive(Clone, Copy)]
pub struct Picture<'a>(pub &'a Atn);

impl fmt::Display for Picture<'_> {
    fn fmt<W: fmt::Write>(&self, f: &mut fmt::Formatter<W>) -> fmt::Result {
        let net = self.0;
        writeln!(f, "digraph net {{")?;
        writeln!(f, "  rankdir=LR;")?;
        for r in 0..net.rule_count() {
            write_rule(net, r, f)?;
        }
        for s in 0..net.state_count() {
            write_edges(net, s, f)?;
        }
        writeln!(f, "}}")
    }
}

// The states of the rule.
fn write_rule<W: fmt::Write>(net: &Atn, r: usize, f: &mut fmt::Formatter<W>) -> fmt::Result {
    writeln!(f, "  subgraph cluster_{r} {{")?;
    writeln!(f, "    label=\"rule {r}\";")?;
    for s in 0..net.state_count() {
        if let Some(state) = net.state(s)
            && state.rule == r
        {
            let rings = if state.kind.is_stop() {
                ", peripheries=2"
            } else {
                ""
            };
            writeln!(f, "    s{s} [label=\"{s}\\n{:?}\"{rings}];", state.kind)?;
        }
    }
    writeln!(f, "  }}")
}

// The edges of the state.
fn write_edges<W: fmt::Write>(net: &Atn, s: usize, f: &mut fmt::Formatter<W>) -> fmt::Result {
    let Some(state) = net.state(s) else {
        return Ok(());
    };
    for j in state.first..state.end {
        let (Some(edge), Some(label)) = (net.edge(j), net.label(j)) else {
            continue;
        };
        write!(f, "  s{s} -> s{}", edge.target)?;
        match edge.kind {
            TransitionKind::Rule { rule, follow } => {
                write!(f, " [label=\"rule {rule}, then {follow}\"]")?;
            }
            TransitionKind::Epsilon
            | TransitionKind::Predicate
            | TransitionKind::Action
            | TransitionKind::Precedence => {}
            TransitionKind::Range(_)
            | TransitionKind::Atom(_)
            | TransitionKind::Set { .. }
            | TransitionKind::NotSet { .. }
            | TransitionKind::Wildcard => {
                write!(f, " [label=\"")?;
                write_intervals(&label, f)?;
                write!(f, "\"]")?;
            }
        }
        writeln!(f, ";")?;
    }
    Ok(())
}

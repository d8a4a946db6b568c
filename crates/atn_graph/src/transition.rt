//! Edges and their kinds.
ghost use Rattle.std.specs.Prelude.{◌≡◌};
ghost use Rattle.atn_graph.specs.Kinds.{move_of};

use interval_set::Interval;

/// The kinds of edges, by the names of ANTLR's serialized networks.
#[derive(Clone, Copy, Default)]
pub enum TransitionKind {
    #[default]
    Epsilon,
    /// takes any type of the interval
    Range(Interval),
    /// calls the rule, then goes on at the follow state
    Rule { rule: usize, follow: usize },
    Predicate,
    /// takes that type, or EOF (-1)
    Atom(i32),
    Action,
    /// takes any type of the count intervals from number first on
    Set { first: usize, count: usize },
    /// takes any type from 1 to the largest but those
    NotSet { first: usize, count: usize },
    /// takes any type from 1 to the largest
    Wildcard,
    Precedence,
}

/// An edge to the state number `target`.
#[derive(Clone, Copy, Default)]
pub struct Transition {
    pub target: usize,
    pub kind: TransitionKind,
}

/// What a walk does at an edge: it goes on to the target, it calls the target's rule and goes on at
/// the follow state later, or it ends with a token.
#[derive(Clone, Copy)]
pub enum Move {
    Along,
    Call { follow: usize },
    Token,
}

impl TransitionKind {
    /// What a walk does at an edge of the kind.
    pub fn moves(self) -> Move
        ensures { result ≡ move_of self }
    {
        match self {
            TransitionKind::Rule { follow, .. } => Move::Call { follow },
            TransitionKind::Epsilon
            | TransitionKind::Predicate
            | TransitionKind::Action
            | TransitionKind::Precedence => Move::Along,
            TransitionKind::Range(_)
            | TransitionKind::Atom(_)
            | TransitionKind::Set { .. }
            | TransitionKind::NotSet { .. }
            | TransitionKind::Wildcard => Move::Token,
        }
    }
}

//! Leaves of the tree.
ghost use Rattle.std.specs.Prelude.{◌≡◌, ◌<◌, ◌≤◌, MatchOption};
ghost use Rattle.std.specs.Option.{ForSome};
ghost use Rattle.leaves.specs.Leaves.{leaf_number, leaf_of, LeafFits};

use std::marker::Model;
use token::{MAX_POSITION, TokenType};

/// How many rules are open at a leaf at most.
pub const MAX_DEPTH: u8 = 64;

/// The largest number of a rule.
pub const MAX_RULE: u8 = 63;

/// The largest token index.
pub const MAX_INDEX: u16 = 65_534;

/// Whether the leaf's token matched, or was skipped or made up in error recovery.
#[derive(Clone, Copy, PartialEq, Eq, Debug)]
pub enum LeafKind {
    Terminal = 1,
    Error = 2,
}

impl LeafKind {
    /// 1 for a terminal, 2 for an error.
    pub fn number(self) -> u8
        ensures { result ≡ leaf_number self }
    {
        self as u8
    }
}

/// A token in its place in the tree.
#[derive(Clone, Copy, PartialEq, Eq, Debug)]
pub struct Leaf {
    pub(crate) kind: LeafKind,
    pub(crate) depth: u8,
    pub(crate) rule: u8,
    pub(crate) token_type: TokenType,
    pub(crate) index: Option<u16>,
    pub(crate) line: u32,
    pub(crate) column: u32,
}

impl Model for Leaf {
    ghost use Rattle.leaves.specs.Leaves.{LeafFields, LeafFits, leaf_of};

    ghost Value = { LeafFields };

    ghost view = { λ l. leaf_of l.kind l.depth l.rule l.token_type l.index (l.line, l.column) };

    ghost inverse = { λ s. record {
      kind = s.kind;
      depth = s.depth;
      rule = s.rule;
      token_type = s.typ;
      index = s.index;
      line = s.line;
      column = s.column;
    } };

    ghost invariant = { λ l.
        LeafFits (leaf_of l.kind l.depth l.rule l.token_type l.index (l.line, l.column)) };
}

impl Leaf {
    /// None if the depth, the rule, the token index, the line or the column is outside its limits.
    pub fn new(
        kind: LeafKind,
        depth: u8,
        rule: u8,
        token_type: TokenType,
        index: Option<u16>,
        position: (u32, u32),
    ) -> Option<Leaf>
        ensures { let leaf = leaf_of kind depth rule «token_type» index position in
            MatchOption result (LeafFits leaf → ⊥) (λ l. LeafFits leaf × (l ≡ leaf)) }
    {
        let (line, column) = position;
        let fits = 0 < depth
            && depth <= MAX_DEPTH
            && rule <= MAX_RULE
            && index.is_none_or(|i| i <= MAX_INDEX)
            && line <= MAX_POSITION
            && column <= MAX_POSITION;
        if !fits {
            return None;
        }
        Some(Leaf {
            kind,
            depth,
            rule,
            token_type,
            index,
            line,
            column,
        })
    }

    pub fn kind(&self) -> LeafKind
        ensures { result ≡ self.now.kind }
    {
        self.kind
    }

    /// How many rules are open at the leaf: 1 to 64.
    pub fn depth(&self) -> u8
        ensures depth { result ≡ self.now.depth }
        ensures limits { (0 < result) × (result ≤ MAX_DEPTH) }
    {
        self.depth
    }

    /// The number of the innermost open rule: at most 63.
    pub fn rule(&self) -> u8
        ensures rule { result ≡ self.now.rule }
        ensures limit { result ≤ MAX_RULE }
    {
        self.rule
    }

    pub fn token_type(&self) -> TokenType
        ensures { result ≡ self.now.typ }
    {
        self.token_type
    }

    /// The token index, at most 65,534; none if the token was made up.
    pub fn index(&self) -> Option<u16>
        ensures index { result ≡ self.now.index }
        ensures limit { ForSome result (λ i. i ≤ MAX_INDEX) }
    {
        self.index
    }

    /// Line and column, each at most 1,000,000.
    pub fn position(&self) -> (u32, u32)
        ensures position { result ≡ (self.now.line, self.now.column) }
        ensures limits { (result.0 ≤ MAX_POSITION) × (result.1 ≤ MAX_POSITION) }
    {
        (self.line, self.column)
    }
}

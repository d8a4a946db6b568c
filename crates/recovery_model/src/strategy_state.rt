//! The state of the error strategy.
use crate::answer::Chain;
use atn_graph::MAX_STATES;

/// Whether there is an error condition.
#[derive(Clone, Copy, PartialEq, Eq, Debug)]
pub enum Mode {
    Normal,
    InErrorRecovery,
}

/// Where the parser stood when sync came to a state from which a walk can end: its state and its chain.
#[derive(Clone, Copy)]
pub struct NextTokens {
    pub state: u16,
    pub chain: Chain,
}

/// What the strategy keeps between calls.
#[derive(Clone, Copy)]
pub struct StrategyState {
    pub mode: Mode,
    /// from where the last recover since the error condition was last ended searched: a token index
    pub last_error_index: Option<u16>,
    /// for each state that a net may have, whether a recover was called in it since then
    pub last_error_states: [bool; MAX_STATES],
    pub next_tokens: Option<NextTokens>,
}

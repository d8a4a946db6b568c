//! What calls answer.
ghost use Rattle.std.specs.Prelude.{◌≡◌};
ghost use Rattle.recovery_model.specs.Calls.{answer_number, answer_of};

use errors::Denial;
use fixed_vec::FixedVec;
use ll1_analyzer::MAX_CHAIN;
use token::TokenFields;

/// The invoking states of open rules, innermost first, at most 63; a net has at most 512 states, so 16 bits hold each.
pub type Chain = FixedVec<u16, MAX_CHAIN>;

/// A token that did not match, and where the parser stood: its state, and the chain of its open rules.
#[derive(Clone, Copy)]
pub struct Mismatch {
    pub token: TokenFields,
    pub state: u16,
    pub chain: Chain,
}

/// What a call answers.
#[derive(Clone, Copy)]
pub enum Answer {
    Done,
    /// a rule was left to which so many leaves were added, or 4,294,967,295 if they were more
    Left { leaves: u32 },
    /// the token that was taken, or the missing symbol
    Token { token: TokenFields },
    Mismatch { mismatch: Mismatch },
    Denied { denial: Denial },
}

impl Answer {
    /// The number of the answer's case: 1 done, 2 left, 3 token, 4 mismatch, 5 denied.
    pub fn number(&self) -> u8
        ensures { result ≡ answer_number (answer_of self.now) }
    {
        match self {
            Answer::Done => 1,
            Answer::Left { .. } => 2,
            Answer::Token { .. } => 3,
            Answer::Mismatch { .. } => 4,
            Answer::Denied { .. } => 5,
        }
    }
}

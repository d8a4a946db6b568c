//! What can be wrong with a line by itself.
ghost use Rattle.std.specs.Prelude.{◌≡◌};
ghost use Rattle.script_lines.specs.declared.faults.LineFault.TheVariants.{Memory};

use crate::keywords::Keyword;
use std::alloc::{AllocError, AllocFailed};
use std::fmt;

/// What is wrong with a line by itself.
#[derive(Clone, Copy, PartialEq, Eq, Debug)]
pub enum LineFault {
    /// its first word is none that a line may begin with
    UnknownWord,
    /// it is a call of the parser
    Call,
    /// what follows the word is not what it takes
    WrongForm(Keyword),
    /// a number that does not fit 64 bits
    TooLarge,
    /// the line is fine, and memory ran out
    Memory,
}

impl<T: Drop> From<AllocFailed<T>> for LineFault {
    ghost from_gives = { λ _ r. r ≡ Memory };

    fn from(_refused: AllocFailed<T>) -> LineFault {
        LineFault::Memory
    }
}

impl From<AllocError> for LineFault {
    ghost from_gives = { λ _ r. r ≡ Memory };

    fn from(_error: AllocError) -> LineFault {
        LineFault::Memory
    }
}

impl fmt::Display for LineFault {
    fn fmt<W: fmt::Write>(&self, f: &mut fmt::Formatter<W>) -> fmt::Result {
        match *self {
            LineFault::UnknownWord => {
                write!(f, "expected net, counts, rule, state, edge, interval, ")?;
                write!(f, "word, lane, leaves, summary, lookahead, show, within, ")?;
                write!(f, "in-context, expected, recovery, tokens, leaf or picture")
            }
            LineFault::Call => write!(f, "calls of the parser are not known yet"),
            LineFault::WrongForm(keyword) => write!(f, "expected {keyword}"),
            LineFault::TooLarge => write!(
                f,
                "expected numbers of 64 bits, from {} to {}",
                i64::MIN,
                i64::MAX
            ),
            LineFault::Memory => write!(f, "out of memory"),
        }
    }
}

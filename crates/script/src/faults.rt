//! Why a text is no script.
ghost use Rattle.std.specs.Prelude.{◌≡◌};
ghost use Rattle.script.specs.declared.faults.Fault.TheVariants.{Memory};

use crate::scripts::MAX_ROWS;
use script_lines::LineFault;
use std::alloc::{AllocError, AllocFailed};
use std::error::Error;
use std::fmt;

/// What is wrong with a line.
#[derive(Clone, Copy, PartialEq, Eq, Debug)]
pub enum Fault {
    /// it is none by itself
    Line(LineFault),
    /// the row's table is full
    FullTable,
    /// a token of the other kind than those before it
    OtherKind,
    /// no question, after the first question
    TooLate,
    /// the script ends without a net line
    NoNet,
    /// the line is fine, and memory ran out
    Memory,
}

impl<T: Drop> From<AllocFailed<T>> for Fault {
    ghost from_gives = { λ _ r. r ≡ Memory };

    fn from(_refused: AllocFailed<T>) -> Fault {
        Fault::Memory
    }
}

impl From<AllocError> for Fault {
    ghost from_gives = { λ _ r. r ≡ Memory };

    fn from(_error: AllocError) -> Fault {
        Fault::Memory
    }
}

impl fmt::Display for Fault {
    fn fmt<W: fmt::Write>(&self, f: &mut fmt::Formatter<W>) -> fmt::Result {
        match *self {
            Fault::Line(fault) => write!(f, "{fault}"),
            Fault::FullTable => write!(f, "expected at most {MAX_ROWS} rows in a table"),
            Fault::OtherKind => write!(f, "expected a token of the kind of those before it"),
            Fault::TooLate => {
                write!(
                    f,
                    "expected within, in-context, expected, recovery, tokens, "
                )?;
                write!(f, "leaf or picture: rows and options come before questions")
            }
            Fault::NoNet => write!(f, "expected a line net MAX, and the script has none"),
            Fault::Memory => write!(f, "out of memory"),
        }
    }
}

/// Why a text is no script: the line's number, from 1, and what is wrong there.
#[derive(Clone, Copy, PartialEq, Eq, Debug)]
pub struct ScriptError {
    pub line: usize,
    pub fault: Fault,
}

impl fmt::Display for ScriptError {
    fn fmt<W: fmt::Write>(&self, f: &mut fmt::Formatter<W>) -> fmt::Result {
        write!(f, "line {}: {}", self.line, self.fault)
    }
}

impl Error for ScriptError {}

//! Why a call is denied.
ghost use Rattle.std.specs.Prelude.{◌≡◌, Some};
ghost use Rattle.errors.specs.Denials.{denial_number, denial_text};

use std::error::Error;
use std::fmt;

/// Why a call is denied. A denied call alters nothing.
#[derive(Clone, Copy, PartialEq, Eq, Debug)]
pub enum Denial {
    /// a table of the net is shorter than its count
    ShortTable = 1,
    /// a count of the net, or its largest token type, is outside its limits
    OutsideLimits = 2,
    /// the tables break a rule of the net
    BrokenRule = 3,
    /// a rule of the net is left-recursive
    LeftRecursion = 4,
    /// a chain is too long, or a state in it calls no rule
    FaultyChain = 5,
    /// a tape breaks a rule of tapes
    FaultyTape = 6,
    /// no rule is open
    NoRuleOpen = 7,
    /// a state lies outside the net
    StateOutside = 8,
    /// a rule is entered that the state's edge does not call
    WrongRule = 9,
    /// as many rules are open as may be
    TooManyRules = 10,
    /// more leaves are needed than are free
    NoLeafFree = 11,
    /// a search begins on a kind of state that has none
    WrongSearch = 12,
    /// there is no such report, or no mismatch to report
    WrongReport = 13,
    /// a number outside -2..255 was to go into a set
    SetValue = 14,
}

impl Denial {
    /// The number by which the denial is answered, 1 to 14.
    pub fn number(self) -> u8
        ensures { result ≡ denial_number self }
    {
        self as u8
    }
}

impl fmt::Display for Denial {
    ghost output = { λ denial. Some (denial_text denial) };

    fn fmt<W: fmt::Write>(&self, f: &mut fmt::Formatter<W>) -> fmt::Result {
        write!(f, "denied {}", self.number())
    }
}

impl Error for Denial {}

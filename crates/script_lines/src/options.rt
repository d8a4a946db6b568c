//! The options that are given by a name.
ghost use Rattle.script_lines.specs.Words.{IsRead, lookahead_spelling, show_spelling};
ghost use Rattle.script_lines.specs.declared.faults.LineFault.TheVariants.{WrongForm};
ghost use Rattle.script_lines.specs.declared.keywords.Keyword.TheVariants as keyword;

use crate::faults::LineFault;
use crate::keywords::Keyword;
use std::str::FromStr;

/// Ways to work out what may come next. All answer alike.
#[derive(Clone, Copy, PartialEq, Eq, Debug)]
pub enum LookaheadKind {
    Walker,
    Table,
    Cache,
}

impl FromStr for LookaheadKind {
    type Err = LineFault;

    ghost from_str_gives = { IsRead lookahead_spelling (WrongForm keyword.Lookahead) };

    fn from_str(name: &str) -> Result<LookaheadKind, LineFault> {
        match name {
            "walker" => Ok(LookaheadKind::Walker),
            "table" => Ok(LookaheadKind::Table),
            "cache" => Ok(LookaheadKind::Cache),
            _ => Err(LineFault::WrongForm(Keyword::Lookahead)),
        }
    }
}

/// Which tokens of a tape are shown.
#[derive(Clone, Copy, PartialEq, Eq, Debug)]
pub enum Show {
    All,
    Channel0,
}

impl FromStr for Show {
    type Err = LineFault;

    ghost from_str_gives = { IsRead show_spelling (WrongForm keyword.Show) };

    fn from_str(name: &str) -> Result<Show, LineFault> {
        match name {
            "all" => Ok(Show::All),
            "channel0" => Ok(Show::Channel0),
            _ => Err(LineFault::WrongForm(Keyword::Show)),
        }
    }
}

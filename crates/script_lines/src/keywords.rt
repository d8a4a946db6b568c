//! The words that a line may begin with.
ghost use Rattle.std.specs.Prelude.{◌≡◌};
ghost use Rattle.script_lines.specs.Questions.{asks};
ghost use Rattle.script_lines.specs.Words.{IsRead, spelling};
ghost use Rattle.script_lines.specs.declared.faults.LineFault.TheVariants.{UnknownWord};

use crate::faults::LineFault;
use std::fmt;
use std::str::FromStr;

/// A word that a line may begin with.
#[derive(Clone, Copy, PartialEq, Eq, Debug)]
pub enum Keyword {
    // rows of the net and of the tape, and options
    Net,
    Counts,
    Rule,
    State,
    Edge,
    Interval,
    Word,
    Lane,
    Leaves,
    Summary,
    Lookahead,
    Show,
    // questions
    Within,
    InContext,
    Expected,
    Recovery,
    Tokens,
    Leaf,
    Picture,
}

impl Keyword {
    /// Whether a line with this word asks a question.
    pub fn asks(self) -> bool
        ensures { result ≡ asks self }
    {
        matches!(
            self,
            Keyword::Within
                | Keyword::InContext
                | Keyword::Expected
                | Keyword::Recovery
                | Keyword::Tokens
                | Keyword::Leaf
                | Keyword::Picture
        )
    }
}

impl FromStr for Keyword {
    type Err = LineFault;

    ghost from_str_gives = { IsRead spelling UnknownWord };

    fn from_str(word: &str) -> Result<Keyword, LineFault> {
        match word {
            "net" => Ok(Keyword::Net),
            "counts" => Ok(Keyword::Counts),
            "rule" => Ok(Keyword::Rule),
            "state" => Ok(Keyword::State),
            "edge" => Ok(Keyword::Edge),
            "interval" => Ok(Keyword::Interval),
            "word" => Ok(Keyword::Word),
            "lane" => Ok(Keyword::Lane),
            "leaves" => Ok(Keyword::Leaves),
            "summary" => Ok(Keyword::Summary),
            "lookahead" => Ok(Keyword::Lookahead),
            "show" => Ok(Keyword::Show),
            "within" => Ok(Keyword::Within),
            "in-context" => Ok(Keyword::InContext),
            "expected" => Ok(Keyword::Expected),
            "recovery" => Ok(Keyword::Recovery),
            "tokens" => Ok(Keyword::Tokens),
            "leaf" => Ok(Keyword::Leaf),
            "picture" => Ok(Keyword::Picture),
            _ => Err(LineFault::UnknownWord),
        }
    }
}

/// The form of the word's line.
impl fmt::Display for Keyword {
    fn fmt<W: fmt::Write>(&self, f: &mut fmt::Formatter<W>) -> fmt::Result {
        f.write_str(match self {
            Keyword::Net => "net MAX, one number",
            Keyword::Counts => "counts RULES STATES EDGES INTERVALS, four numbers",
            Keyword::Rule => "rule START STOP, two numbers",
            Keyword::State => "state RULE KIND EDGES, three numbers",
            Keyword::Edge => "edge KIND TARGET A B, four numbers",
            Keyword::Interval => "interval LOW HIGH, two numbers",
            Keyword::Word => "word TYPE CHANNEL LINE COLUMN START STOP, six numbers",
            Keyword::Lane => "lane TYPE CHANNEL LINE COLUMN, four numbers",
            Keyword::Leaves => "leaves N, one number",
            Keyword::Summary => "summary, no number",
            Keyword::Lookahead => "lookahead walker, table or cache",
            Keyword::Show => "show all or channel0",
            Keyword::Within => "within S, one number",
            Keyword::InContext => "in-context S C.., one number or more",
            Keyword::Expected => "expected S C.., one number or more",
            Keyword::Recovery => "recovery C.., one number or more",
            Keyword::Tokens => "tokens, no number",
            Keyword::Leaf => {
                "leaf KIND DEPTH RULE TYPE INDEX LINE COLUMN, seven numbers within their limits"
            }
            Keyword::Picture => "picture, no number",
        })
    }
}

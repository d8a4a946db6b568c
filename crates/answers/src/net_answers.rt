//! What is answered about the net of a script.
ghost use Rattle.std.specs.Prelude.{◌≡◌, false, Some, Ok, is_ok, MatchOption};
ghost use Rattle.answers.specs.NetAnswers.{Answered, checked_net, verdict_of, verdict_text};
ghost use Rattle.script.specs.Contents.{content};

use atn::Atn;
use errors::Denial;
use script::Script;
use std::fmt;

/// Whether a net is accepted.
#[derive(Clone, Copy, PartialEq, Eq, Debug)]
pub struct Verdict(pub Result<(), Denial>);

impl fmt::Display for Verdict {
    ghost output = { λ v. Some (verdict_text v) };

    fn fmt<W: fmt::Write>(&self, f: &mut fmt::Formatter<W>) -> fmt::Result {
        match self.0 {
            Ok(()) => write!(f, "net ok"),
            Err(denial) => write!(f, "net {denial}"),
        }
    }
}

/// What is printed about the net of a script: the verdict, and the summary of an accepted net where it is
/// wanted.
#[derive(Drop)]
pub struct NetAnswer {
    net: Result<Atn, Denial>,
    summary: bool,
}

impl NetAnswer {
    /// Checks the script's net; None without a net line.
    pub fn of(script: &Script) -> Option<NetAnswer>
        ensures { Answered (content script.now) result }
    {
        let tables = script.tables()?;
        Some(NetAnswer {
            net: Atn::check(&tables),
            summary: script.wants_summary(),
        })
    }

    /// Whether the net was accepted, or why not.
    pub fn verdict(&self) -> Verdict
        ensures { result ≡ verdict_of self.now.net }
    {
        Verdict(self.net.as_ref().map(|_| ()).map_err(|denial| *denial))
    }

    /// The net, if it was accepted.
    pub fn net(&self) -> Option<&Atn>
        ensures { MatchOption result
            (is_ok (checked_net self.now) ≡ false)
            (λ n. checked_net self.now ≡ Ok n.now) }
    {
        self.net.as_ref().ok()
    }
}

// The sizes of the net, and its rules with their ends.
fn write_summary<W: fmt::Write>(net: &Atn, f: &mut fmt::Formatter<W>) -> fmt::Result {
    writeln!(f, "largest token type: {}", net.max_token_type())?;
    writeln!(f, "rules: {}", net.rule_count())?;
    writeln!(f, "states: {}", net.state_count())?;
    writeln!(f, "edges: {}", net.edge_count())?;
    writeln!(f, "intervals: {}", net.interval_count())?;
    for (r, rule) in net.graph.lists.rules.iter().enumerate() {
        writeln!(f, "rule {r}: start {}, stop {}", rule.start, rule.stop)?;
    }
    Ok(())
}

impl fmt::Display for NetAnswer {
    fn fmt<W: fmt::Write>(&self, f: &mut fmt::Formatter<W>) -> fmt::Result {
        writeln!(f, "{}", self.verdict())?;
        match &self.net {
            Ok(net) if self.summary => write_summary(net, f),
            _ => Ok(()),
        }
    }
}

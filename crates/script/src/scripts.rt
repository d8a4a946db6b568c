//! A script, and the text that gives it.
ghost use Rattle.std.specs.Prelude.{◌≡◌, ◌+◌, ◌≤◌, ◌≢◌, ◌⊎◌, None, true, false, is_some, IfOk, IfErr, MatchOption};
ghost use Rattle.std.specs.Str.Lines.{lines};
ghost use Rattle.script.specs.Contents.{content, nothing_said, leaf_places, row_counts, ItsTables};
ghost use Rattle.script.specs.Taking.{Applied, AsksFirst, LineTaken, Reads, Taken, late_fault, newlines, own_fault};
ghost use Rattle.script_lines.specs.Words.{words};
ghost use Rattle.script.specs.declared.faults.Fault.TheVariants.{NoNet, TooLate};

use crate::faults::{Fault, ScriptError};
use crate::rows::Rows;
use atn_graph::{Counts, EdgeRow, RuleRow, StateRow, Tables};
use interval_set::Interval;
use script_lines::{Directive, LaneRow, LineFault, LookaheadKind, Question, Show, WordRow};
use std::alloc::Global;

/// The most rows that a table may have, and the most leaves that may have room.
pub const MAX_ROWS: usize = 1_000_000;

// How many leaves there is room for, where the script does not say it.
const LEAVES: i32 = 1_000;

/// What the lines read so far say. An option is None until its line stands; the walker is the lookahead
/// until another is named, all tokens are shown until another choice stands, and there is room for 1,000
/// leaves until another number stands.
#[derive(Drop)]
pub struct Script {
    max: Option<i32>,
    counts: Option<Counts>,
    rules: Rows<RuleRow>,
    states: Rows<StateRow>,
    edges: Rows<EdgeRow>,
    intervals: Rows<Interval>,
    words: Rows<WordRow>,
    lanes: Rows<LaneRow>,
    leaves: Option<i32>,
    summary: bool,
    lookahead: LookaheadKind,
    show: Show,
    questions: Rows<Question>,
}

impl Script {
    /// The script that the text says. One without a net line is none: then a further line was expected.
    pub fn parse(heap: Global, text: &str) -> Result<Script, ScriptError>
        ensures reads { IfOk result (λ s. Reads (lines text.now) (content s)) }
        ensures has_net { IfOk result (λ s. is_some (content s).max ≡ true) }
        ensures from_one { IfErr result (λ e. 1 ≤ e.line) }
        ensures by_end { IfErr result (λ e. e.line ≤ newlines text.now + 2) }
        ensures past_last { IfErr result (λ e. e.fault ≡ NoNet → newlines text.now + 1 ≤ e.line) }
    {
        let mut script = Script::new(heap);
        for (before, line) in text.lines().enumerate() {
            take_line(heap, &mut script, line).map_err(|fault| ScriptError {
                line: before + 1,
                fault,
            })?;
        }
        if script.max.is_none() {
            return Err(ScriptError {
                line: text.lines().count() + 1,
                fault: Fault::NoNet,
            });
        }
        Ok(script)
    }

    /// A script that says nothing yet.
    pub fn new(heap: Global) -> Script
        ensures { content result ≡ nothing_said }
    {
        Script {
            max: None,
            counts: None,
            rules: Rows::new(heap),
            states: Rows::new(heap),
            edges: Rows::new(heap),
            intervals: Rows::new(heap),
            words: Rows::new(heap),
            lanes: Rows::new(heap),
            leaves: None,
            summary: false,
            lookahead: LookaheadKind::Walker,
            show: Show::All,
            questions: Rows::new(heap),
        }
    }

    /// Takes a line in. A row or an option comes before the first question, and a refused line alters
    /// nothing.
    pub fn take(&mut self, directive: Directive) -> Result<(), Fault>
        ensures taken { Taken directive (content self.old) result (content self.new) }
        ensures not_the_net { IfErr result (λ f. f ≢ NoNet) }
    {
        match directive {
            Directive::Asked(question) => self.questions.push(question),
            _ if !self.questions.is_empty() => Err(Fault::TooLate),
            _ => self.apply(directive),
        }
    }

    /// Takes a line in, also a row or an option after a question. A refused line alters nothing.
    pub fn apply(&mut self, directive: Directive) -> Result<(), Fault>
        ensures applied { Applied directive (content self.old) result (content self.new) }
        ensures not_the_net { IfErr result (λ f. f ≢ NoNet) }
    {
        match directive {
            Directive::Net { max } => self.max = Some(max),
            Directive::Counts(counts) => self.counts = Some(counts),
            Directive::Rule(row) => self.rules.push(row)?,
            Directive::State(row) => self.states.push(row)?,
            Directive::Edge(row) => self.edges.push(row)?,
            Directive::Interval(row) => self.intervals.push(row)?,
            Directive::Word(_) if !self.lanes.is_empty() => return Err(Fault::OtherKind),
            Directive::Word(row) => self.words.push(row)?,
            Directive::Lane(_) if !self.words.is_empty() => return Err(Fault::OtherKind),
            Directive::Lane(row) => self.lanes.push(row)?,
            Directive::Leaves(n) => self.leaves = Some(n),
            Directive::Summary => self.summary = true,
            Directive::Lookahead(kind) => self.lookahead = kind,
            Directive::Show(show) => self.show = show,
            Directive::Asked(question) => self.questions.push(question)?,
        }
        Ok(())
    }

    /// Whether a summary of the net is wanted.
    pub fn wants_summary(&self) -> bool
        ensures { result ≡ (content self.now).summary }
    {
        self.summary
    }

    /// What answers the questions.
    pub fn lookahead(&self) -> LookaheadKind
        ensures { result ≡ (content self.now).lookahead }
    {
        self.lookahead
    }

    /// Which tokens of the tape are shown.
    pub fn show(&self) -> Show
        ensures { result ≡ (content self.now).show }
    {
        self.show
    }

    /// The tokens of the tape, if they are words of a text.
    pub fn words(&self) -> &[WordRow]
        ensures { result.now ≡ (content self.now).words }
    {
        self.words.as_slice()
    }

    /// The tokens of the tape, if they are events of a lane.
    pub fn lanes(&self) -> &[LaneRow]
        ensures { result.now ≡ (content self.now).lanes }
    {
        self.lanes.as_slice()
    }

    /// How many leaves there is room for: 1,000 unless the script says another number, and 0 to 1,000,000.
    pub fn leaf_places(&self) -> usize
        ensures { result ≡ leaf_places (content self.now) }
    {
        let places = self.leaves.unwrap_or(LEAVES);
        usize::try_from(places).unwrap_or(0).min(MAX_ROWS)
    }

    /// The questions, in their order.
    pub fn questions(&self) -> &[Question]
        ensures { result.now ≡ (content self.now).questions }
    {
        self.questions.as_slice()
    }

    // How many rows each table has.
    fn row_counts(&self) -> Counts
        ensures { result ≡ row_counts (content self.now) }
    {
        Counts {
            rules: self.rules.len() as i32,
            states: self.states.len() as i32,
            edges: self.edges.len() as i32,
            intervals: self.intervals.len() as i32,
        }
    }

    /// The tables of the net; None without a net line.
    pub fn tables(&self) -> Option<Tables<'_>>
        ensures { MatchOption result
            ((content self.now).max ≡ None)
            (ItsTables (content self.now)) }
    {
        Some(Tables {
            max_token_type: self.max?,
            counts: self.counts.unwrap_or(self.row_counts()),
            rules: self.rules.as_slice(),
            states: self.states.as_slice(),
            edges: self.edges.as_slice(),
            intervals: self.intervals.as_slice(),
        })
    }
}

// Takes one more line into the script. After a question, what is no question comes too late, whatever
// else is wrong with it.
fn take_line(heap: Global, script: &mut Script, line: &str) -> Result<(), Fault>
    ensures taken { LineTaken line.now (content script.old) result (content script.new) }
    ensures not_the_net { IfErr result (λ f. f ≢ NoNet) }
{
    match Directive::read(heap, line) {
        Ok(Some(directive)) => script.take(directive),
        Ok(None) => Ok(()),
        Err(fault) => Err(fault_of_line(fault, line, script.questions.is_empty())),
    }
}

// What is wrong with a line that is none by itself.
fn fault_of_line(fault: LineFault, line: &str, rows_may_come: bool) -> Fault
    ensures fault { (result ≡ own_fault fault) ⊎ ((result ≡ TooLate) × (rows_may_come ≡ false)) }
    ensures asked { AsksFirst (words line.now) → result ≡ own_fault fault }
    ensures late { rows_may_come ≡ false → (AsksFirst (words line.now) → ⊥)
        → result ≡ late_fault fault }
    ensures not_the_net { result ≢ NoNet }
{
    match fault {
        LineFault::Memory => Fault::Memory,
        LineFault::Call => Fault::Line(fault),
        _ if rows_may_come || asks(line) => Fault::Line(fault),
        _ => Fault::TooLate,
    }
}

// Whether the line's first word is that of a question.
fn asks(line: &str) -> bool
    ensures asks { result ≡ true → AsksFirst (words line.now) }
    ensures asks_not { result ≡ false → AsksFirst (words line.now) → ⊥ }
{
    let Some(first) = line.split_ascii_whitespace().next() else {
        return false;
    };
    matches!(
        first,
        "within" | "in-context" | "expected" | "recovery" | "tokens" | "leaf" | "picture"
    )
}

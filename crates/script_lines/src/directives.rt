//! What a line says, by its words.
ghost use Rattle.std.specs.Prelude.{◌≡◌, ◌≢◌, ◌⊎◌, [], ◌∷◌, length, Some, IfOk, IfErr};
ghost use Rattle.std.specs.String.{string_bytes};
ghost use Rattle.script_lines.specs.Directives.{Formed, IsAskedBy, IsNoQuestion, IsNoRow, IsRowOf, LineRead, NamesWord, WordsRead, call_numbers, keyword_of};
ghost use Rattle.script_lines.specs.Questions.{ask_word};
ghost use Rattle.script_lines.specs.Words.{IsCallWord, in_one, spelling, words, words_left};
ghost use Rattle.script_lines.specs.declared.faults.LineFault.TheVariants.{Call, Memory, UnknownWord, WrongForm};

use crate::faults::LineFault;
use crate::keywords::Keyword;
use crate::numbers::read_numbers;
use crate::options::{LookaheadKind, Show};
use crate::questions::{Ask, Question};
use crate::token_rows::{LaneRow, TokenRow, WordRow};
use atn_graph::{Counts, EdgeRow, RuleRow, StateRow};
use interval_set::Interval;
use std::alloc::{AllocError, Global};
use std::str::SplitAsciiWhitespace;
use token::Span;

/// What one line of a script says.
#[derive(Drop)]
pub enum Directive {
    /// the net's largest token type
    Net { max: i32 },
    /// how many rows of each table count
    Counts(Counts),
    Rule(RuleRow),
    State(StateRow),
    Edge(EdgeRow),
    Interval(Interval),
    /// a token of the tape, a word of a text
    Word(WordRow),
    /// a token of the tape, an event of a lane
    Lane(LaneRow),
    /// how many leaves there is room for
    Leaves(i32),
    /// a summary of an accepted net is wanted
    Summary,
    /// the lookahead that answers the questions
    Lookahead(LookaheadKind),
    /// the tokens that are shown
    Show(Show),
    Asked(Question),
}

impl Directive {
    /// What the line says. A blank line and a comment say nothing.
    pub fn read(heap: Global, line: &str) -> Result<Option<Directive>, LineFault>
        ensures { LineRead (words line.now) result }
    {
        let mut words = line.split_ascii_whitespace();
        let Some(first) = words.next() else {
            return Ok(None);
        };
        if first.starts_with('#') {
            return Ok(None);
        }
        Ok(Some(Directive::of_words(heap, line, first, words)?))
    }

    // What the words of the line say, the first and the rest.
    fn of_words(
        heap: Global,
        line: &str,
        first: &str,
        rest: SplitAsciiWhitespace<'_>,
    ) -> Result<Directive, LineFault>
        requires { words line.now ≡ first.now ∷ words_left rest }
        ensures { WordsRead first.now (words_left rest.entry) result }
    {
        let keyword: Keyword = match first.parse() {
            Ok(keyword) => keyword,
            Err(_) => return Err(unknown(first)),
        };
        match keyword {
            Keyword::Lookahead => Ok(Directive::Lookahead(only_word(rest, keyword)?.parse()?)),
            Keyword::Show => Ok(Directive::Show(only_word(rest, keyword)?.parse()?)),
            _ if keyword.asks() => {
                let question = read_question(heap, line, keyword, rest)?;
                Ok(Directive::Asked(question))
            }
            _ => read_row(heap, keyword, rest),
        }
    }

    /// The word's row or option with these numbers; none where it takes another many, or asks a question.
    pub fn form(keyword: Keyword, numbers: &[i32]) -> Option<Directive>
        ensures { Formed keyword numbers.now result }
    {
        match (keyword, numbers) {
            (Keyword::Net, &[max]) => Some(Directive::Net { max }),
            (Keyword::Counts, &[rules, states, edges, intervals]) => {
                Some(Directive::Counts(Counts {
                    rules,
                    states,
                    edges,
                    intervals,
                }))
            }
            (Keyword::Rule, &[start, stop]) => Some(Directive::Rule(RuleRow { start, stop })),
            (Keyword::State, &[rule, kind, edges]) => {
                Some(Directive::State(StateRow { rule, kind, edges }))
            }
            (Keyword::Edge, &[kind, target, a, b]) => {
                Some(Directive::Edge(EdgeRow { kind, target, a, b }))
            }
            (Keyword::Interval, &[a, b]) => Some(Directive::Interval(Interval { a, b })),
            (Keyword::Word, &[token_type, channel, line, column, start, stop]) => {
                Some(Directive::Word(TokenRow {
                    token_type,
                    channel,
                    line,
                    column,
                    span: Span { start, stop },
                }))
            }
            (Keyword::Lane, &[token_type, channel, line, column]) => {
                Some(Directive::Lane(TokenRow {
                    token_type,
                    channel,
                    line,
                    column,
                    span: (),
                }))
            }
            (Keyword::Leaves, &[n]) => Some(Directive::Leaves(n)),
            (Keyword::Summary, &[]) => Some(Directive::Summary),
            _ => None,
        }
    }
}

// What is wrong with a first word that no line may begin with.
fn unknown(word: &str) -> LineFault
    ensures { ((result ≡ UnknownWord) × (IsCallWord word.now → ⊥))
        ⊎ ((result ≡ Call) × IsCallWord word.now) }
{
    match word {
        "enter" | "leave" | "match" | "wildcard" | "sync" | "report" | "recover" => {
            LineFault::Call
        }
        _ => LineFault::UnknownWord,
    }
}

// What is wrong with a line that has so many numbers, where its word takes another many: some calls begin
// with the word of a row or of a question.
fn misfit(keyword: Keyword, numbers: usize) -> LineFault
    ensures { ((result ≡ WrongForm keyword) × (Some numbers ≢ call_numbers keyword))
        ⊎ ((result ≡ Call) × (Some numbers ≡ call_numbers keyword)) }
{
    match (keyword, numbers) {
        (Keyword::State, 1) | (Keyword::Expected | Keyword::Recovery, 0) => LineFault::Call,
        _ => LineFault::WrongForm(keyword),
    }
}

// The row or option of the word with the words after it.
fn read_row(
    heap: Global,
    keyword: Keyword,
    rest: SplitAsciiWhitespace<'_>,
) -> Result<Directive, LineFault>
    ensures row { IfOk result (λ d. (keyword_of d ≡ keyword) × IsRowOf (words_left rest.entry) d) }
    ensures names { IfErr result (NamesWord (spelling keyword) (words_left rest.entry)) }
    ensures fault { IfErr result (λ f. (f ≡ Memory) ⊎ IsNoRow keyword (words_left rest.entry)) }
{
    let numbers = read_numbers(heap, rest, LineFault::WrongForm(keyword))?;
    let Some(row) = Directive::form(keyword, numbers.as_slice()) else {
        return Err(misfit(keyword, numbers.len()));
    };
    Ok(row)
}

// The question of the word with the words after it, which are those of the line.
fn read_question(
    heap: Global,
    line: &str,
    keyword: Keyword,
    rest: SplitAsciiWhitespace<'_>,
) -> Result<Question, LineFault>
    requires { words line.now ≡ spelling keyword ∷ words_left rest }
    ensures word { IfOk result (λ q. ask_word q.ask ≡ keyword) }
    ensures question { IfOk result (IsAskedBy (spelling keyword) (words_left rest.entry)) }
    ensures names { IfErr result (NamesWord (spelling keyword) (words_left rest.entry)) }
    ensures fault { IfErr result
        (λ f. (f ≡ Memory) ⊎ IsNoQuestion keyword (words_left rest.entry)) }
{
    let numbers = read_numbers(heap, rest, LineFault::WrongForm(keyword))?;
    let Some(ask) = Ask::form(heap, keyword, numbers.as_slice())? else {
        return Err(misfit(keyword, numbers.len()));
    };
    let words = single_blanks(heap, line)?;
    Ok(Question { words, ask })
}

// The one word that is left.
fn only_word<'a>(words: SplitAsciiWhitespace<'a>, keyword: Keyword) -> Result<&'a str, LineFault>
    ensures word { IfOk result (λ w. words_left words.entry ≡ w.now ∷ []) }
    ensures fault { IfErr result
        (λ f. (f ≡ WrongForm keyword) × (length (words_left words.entry) ≢ 1)) }
{
    let mut left = words;
    match (left.next(), left.next()) {
        (Some(word), None) => Ok(word),
        _ => Err(LineFault::WrongForm(keyword)),
    }
}

// The words of the line with one blank between two.
fn single_blanks(heap: Global, line: &str) -> Result<String, AllocError>
    ensures { IfOk result (λ t. string_bytes t ≡ in_one (words line.now)) }
{
    let mut text = String::new(heap);
    for word in line.split_ascii_whitespace() {
        if !text.is_empty() {
            text.push_str(" ")?;
        }
        text.push_str(word)?;
    }
    Ok(text)
}

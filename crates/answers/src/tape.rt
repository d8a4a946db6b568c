//! The tape that the rows of a script write, and what is shown of it.
ghost use Rattle.std.specs.Prelude.{◌≡◌, IfOk, IfNone, IfSome, None, Some, map};
ghost use Rattle.std.specs.List.{list_any};
ghost use Rattle.token.specs.Kinds.{common_fields};
ghost use Rattle.errors.specs.Denials.{DeniesFirst};
ghost use Rattle.token_stream.specs.Tapes.{IsTape, TapeFault};
ghost use Rattle.script.specs.Contents.{content};
ghost use Rattle.script_lines.specs.TokenRows.{WritesTape};
ghost use Rattle.answers.specs.Tapes.{Numbered, RowsAnswered, RowsFault, NeededTape, asks_tokens, has_rows, needs_tape, shown_by};
ghost use Rattle.errors.specs.declared.denial.Denial.TheVariants.{FaultyTape};

use crate::shown::list_shown;
use errors::Denial;
use script::Script;
use script_lines::{Ask, LaneRow, Question, Show, TokenRow, WordRow};
use std::alloc::{AllocError, Global};
use token::{CommonToken, KeptSpan, LaneFactory, Token, TokenFactory, TokenFields, WordFactory};
use token_stream::{Filter, TokenTable};

// The tokens that the rows write, each with its place as its token index; None if they write no tape.
fn tokens_of<S: KeptSpan + Copy>(
    heap: Global,
    rows: &[TokenRow<S>],
) -> Result<Option<Vec<CommonToken<S>>>, AllocError>
    ensures none { IfOk result (λ o. IfNone o (RowsFault S.kept rows.now FaultyTape)) }
    ensures written { IfOk result (λ o. IfSome o (λ v.
        WritesTape S.kept rows.now (map (common_fields S.kept) v.items))) }
    ensures numbered { IfOk result (λ o. IfSome o (λ v.
        Numbered (map (common_fields S.kept) v.items))) }
{
    let mut tokens = Vec::new(heap);
    for row in rows {
        let Ok(place) = u16::try_from(tokens.len()) else {
            return Ok(None);
        };
        let Some(token) = row.token(place) else {
            return Ok(None);
        };
        tokens.push(token)?;
    }
    Ok(Some(tokens))
}

// What is shown of the tape, or its denial.
fn answer_tokens<T: Token + Drop, F: TokenFactory<Tok = T> + Drop>(
    heap: Global,
    tokens: &[T],
    factory: F,
    show: Show,
) -> Result<Result<Vec<TokenFields>, Denial>, AllocError>
    ensures verdict { IfOk result (DeniesFirst (TapeFault (map T.fields tokens.now))) }
    ensures tape { IfOk result (λ r. IfOk r (λ _. IsTape (map T.fields tokens.now))) }
    ensures shown { IfOk result (λ r. IfOk r (λ v.
        v.items ≡ shown_by show (map T.fields tokens.now))) }
{
    let mut table = match TokenTable::check(tokens, factory) {
        Ok(table) => table,
        Err(denial) => return Ok(Err(denial)),
    };
    let shown = match show {
        Show::All => list_shown(heap, &mut table)?,
        Show::Channel0 => list_shown(heap, &mut Filter::new(table))?,
    };
    Ok(Ok(shown))
}

fn answer_words(
    heap: Global,
    rows: &[WordRow],
    show: Show,
) -> Result<Result<Vec<TokenFields>, Denial>, AllocError>
    ensures { IfOk result (RowsAnswered Some rows.now show) }
{
    match tokens_of(heap, rows)? {
        Some(tokens) => answer_tokens(heap, tokens.as_slice(), WordFactory, show),
        None => Ok(Err(Denial::FaultyTape)),
    }
}

fn answer_lanes(
    heap: Global,
    rows: &[LaneRow],
    show: Show,
) -> Result<Result<Vec<TokenFields>, Denial>, AllocError>
    ensures { IfOk result (RowsAnswered (λ _. None) rows.now show) }
{
    match tokens_of(heap, rows)? {
        Some(tokens) => answer_tokens(heap, tokens.as_slice(), LaneFactory, show),
        None => Ok(Err(Denial::FaultyTape)),
    }
}

// Whether one of the questions is for the tokens.
fn any_asks_tokens(questions: &[Question]) -> bool
    ensures { result ≡ list_any (λ q. asks_tokens q.ask) questions.now }
{
    questions.iter().any(|q| matches!(q.ask, Ask::Tokens))
}

fn has_rows(script: &Script) -> bool
    ensures { result ≡ has_rows (content script.now) }
{
    !script.words().is_empty() || !script.lanes().is_empty()
}

// Whether something of the script needs a tape.
fn needs_tape(script: &Script) -> bool
    ensures { result ≡ needs_tape (content script.now) }
{
    has_rows(script) || any_asks_tokens(script.questions())
}

// What is shown of the script's tape, or its denial; None if nothing needs a tape.
pub(crate) fn answer_tape(
    heap: Global,
    script: &Script,
) -> Result<Option<Result<Vec<TokenFields>, Denial>>, AllocError>
    ensures { IfOk result (NeededTape (content script.now)) }
{
    if !needs_tape(script) {
        return Ok(None);
    }
    let show = script.show();
    let answer = if script.lanes().is_empty() {
        answer_words(heap, script.words(), show)?
    } else {
        answer_lanes(heap, script.lanes(), show)?
    };
    Ok(Some(answer))
}

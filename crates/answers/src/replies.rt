//! Questions about a net, over any lookahead, and about what is shown of a tape; and what they are answered.
ghost use Rattle.std.specs.Prelude.{◌≡◌, IfOk, OnOk};
ghost use Rattle.atn.specs.Checked.{net_of};
ghost use Rattle.ll1_analyzer.specs.Answers.{KeepsNet};
ghost use Rattle.answers.specs.Asking.{Answer, EachAnswered, room_after, room_left};
ghost use Rattle.answers.specs.Leaves.{room};

use crate::leaf_lists::{AddedLeaf, LeafLists};
use atn::Atn;
use errors::Denial;
use interval_set::IntervalSet;
use ll1_analyzer::{
    Cache, LL1Analyzer, Lookahead, Table, get_error_recovery_set, get_expected_tokens, next_tokens,
    next_tokens_in_ctx,
};
use script_lines::{Ask, LookaheadKind, Question};
use std::alloc::{AllocError, Global};
use token::TokenFields;

/// What a question is answered: a set of the net or why it is denied, the tokens that are shown, a leaf that
/// was added or why it was not, or the picture of the net.
#[derive(Drop)]
pub enum Reply {
    Set(Result<IntervalSet, Denial>),
    Tokens(Vec<TokenFields>),
    Leaf(Result<AddedLeaf, Denial>),
    Picture,
}

fn answer_one<L: Lookahead>(
    heap: Global,
    l: &mut L,
    lists: &mut LeafLists<'_>,
    shown: &[TokenFields],
    ask: &Ask,
) -> Result<Reply, AllocError>
    ensures keeps { KeepsNet L.atn L.agrees l.old l.new }
    ensures answers { L.agrees l.old
        → IfOk result (Answer (net_of (L.atn l.old)) shown.now (room lists.old.table) ask.now) }
    ensures room { OnOk result (room lists.new.table ≡ room_after ask.now (room lists.old.table)) }
{
    let set = match ask {
        Ask::Within { state } => next_tokens(l, *state),
        Ask::InContext { state, chain } => next_tokens_in_ctx(l, *state, chain.as_slice()),
        Ask::Expected { state, chain } => get_expected_tokens(l, *state, chain.as_slice()),
        Ask::Recovery { chain } => get_error_recovery_set(l, chain.as_slice()),
        Ask::Tokens => return Ok(Reply::Tokens(shown.to_vec(heap)?)),
        Ask::Leaf(leaf) => return Ok(Reply::Leaf(lists.add(heap, *leaf)?)),
        Ask::Picture => return Ok(Reply::Picture),
    };
    Ok(Reply::Set(set))
}

fn answer_each<L: Lookahead>(
    heap: Global,
    l: &mut L,
    lists: &mut LeafLists<'_>,
    shown: &[TokenFields],
    questions: &[Question],
) -> Result<Vec<Reply>, AllocError>
    ensures answered { L.agrees l.old → IfOk result (λ v.
        EachAnswered (net_of (L.atn l.old)) shown.now (room lists.old.table) questions.now v.items) }
    ensures room { OnOk result
        (room lists.new.table ≡ room_left questions.now (room lists.old.table)) }
{
    let mut answers = Vec::new(heap);
    // kept as a loop: an answer may alter the lookahead, which no closure of a proved chain may
    for question in questions {
        answers.push(answer_one(heap, l, lists, shown, &question.ask)?)?;
    }
    Ok(answers)
}

/// What the questions are answered, by the lookahead of that kind and with these leaf lists, where `shown`
/// is shown. All kinds answer alike.
pub fn answer_all(
    heap: Global,
    atn: &Atn,
    kind: LookaheadKind,
    lists: &mut LeafLists<'_>,
    shown: &[TokenFields],
    questions: &[Question],
) -> Result<Vec<Reply>, AllocError>
    ensures answered { IfOk result (λ v.
        EachAnswered (net_of atn.now) shown.now (room lists.old.table) questions.now v.items) }
    ensures room { OnOk result
        (room lists.new.table ≡ room_left questions.now (room lists.old.table)) }
{
    match kind {
        LookaheadKind::Walker => {
            let mut walker = LL1Analyzer::new(atn);
            answer_each(heap, &mut walker, lists, shown, questions)
        }
        LookaheadKind::Table => {
            let mut table = Table::new(heap, atn)?;
            answer_each(heap, &mut table, lists, shown, questions)
        }
        LookaheadKind::Cache => {
            let mut cache = Cache::new(LL1Analyzer::new(atn));
            answer_each(heap, &mut cache, lists, shown, questions)
        }
    }
}

//! What is printed for a script.
ghost use Rattle.std.specs.Prelude.{◌≡◌, IfOk};
ghost use Rattle.std.specs.List.{list_any};
ghost use Rattle.atn.specs.Checked.{net_of};
ghost use Rattle.answers.specs.Answers.{AllAnswered, AllReplied, Replied, RestAnswered};
ghost use Rattle.answers.specs.Leaves.{adds_leaf, needed_places};
ghost use Rattle.answers.specs.NetAnswers.{checked_net};
ghost use Rattle.script.specs.Contents.{content};

use crate::leaf_lists::{AddedLeaf, LeafLists, no_leaf};
use crate::net_answers::NetAnswer;
use crate::pictures::Picture;
use crate::replies::{Reply, answer_all};
use crate::tape::answer_tape;
use atn::Atn;
use errors::Denial;
use interval_set::IntervalSet;
use leaves::LINE_LENGTH;
use reports::Counter;
use script::Script;
use script_lines::{Ask, Question};
use std::alloc::{AllocError, Global};
use std::fmt;
use token::TokenFields;

/// What is printed for a script: the answer about its net and, if that is accepted, about its tape, and
/// the answer of each question.
#[derive(Drop)]
pub struct ScriptAnswer<'a> {
    about_net: NetAnswer,
    // what is shown of the tape; None without a tape
    tape: Option<Result<Vec<TokenFields>, Denial>>,
    // kept beside the replies, as a part of the script: there is one for each question, or none at all
    questions: &'a [Question],
    replies: Option<Replies>,
}

/// What the questions are answered, and then how many leaves were added, and how many more there is room
/// for.
#[derive(Drop)]
pub struct Replies {
    pub replies: Vec<Reply>,
    pub added: usize,
    pub free: usize,
}

impl<'a> ScriptAnswer<'a> {
    /// Checks the net and the tape and answers the questions; None without a net line.
    pub fn of(heap: Global, script: &'a Script) -> Result<Option<ScriptAnswer<'a>>, AllocError>
        ensures { IfOk result (AllAnswered (content script.now)) }
    {
        let Some(about_net) = NetAnswer::of(script) else {
            return Ok(None);
        };
        let (tape, replies) = answer_rest(heap, script, &about_net)?;
        Ok(Some(ScriptAnswer {
            about_net,
            tape,
            questions: script.questions(),
            replies,
        }))
    }
}

// What is answered beside the net: about the tape, and each question.
fn answer_rest(
    heap: Global,
    script: &Script,
    about_net: &NetAnswer,
) -> Result<(Option<Result<Vec<TokenFields>, Denial>>, Option<Replies>), AllocError>
    ensures { IfOk result (λ p.
        RestAnswered (content script.now) (checked_net about_net.now) p.0 p.1) }
{
    let Some(atn) = about_net.net() else {
        return Ok((None, None));
    };
    let tape = answer_tape(heap, script)?;
    let replies = answer_questions(heap, atn, script, &tape)?;
    Ok((tape, replies))
}

// What the questions are answered, where that is answered about the tape: nothing if it is denied.
fn answer_questions(
    heap: Global,
    atn: &Atn,
    script: &Script,
    tape: &Option<Result<Vec<TokenFields>, Denial>>,
) -> Result<Option<Replies>, AllocError>
    ensures { IfOk result (Replied (net_of atn.now) tape.now (content script.now)) }
{
    let shown: &[TokenFields] = match tape {
        Some(Ok(tokens)) => tokens.as_slice(),
        Some(Err(_)) => return Ok(None),
        None => &[],
    };
    Ok(Some(answer_where(heap, atn, script, shown)?))
}

// Whether one of the questions adds a leaf.
fn any_adds_leaf(questions: &[Question]) -> bool
    ensures { result ≡ list_any (λ q. adds_leaf q.ask) questions.now }
{
    questions.iter().any(|q| matches!(q.ask, Ask::Leaf(_)))
}

// How many leaves the leaf lists are to have room for: none where no question adds one.
fn needed_places(script: &Script) -> usize
    ensures { result ≡ needed_places (content script.now) }
{
    if any_adds_leaf(script.questions()) {
        script.leaf_places()
    } else {
        0
    }
}

// What the questions are answered where that is shown, with leaf lists that have the room that the script
// says, as far as it is needed.
fn answer_where(
    heap: Global,
    atn: &Atn,
    script: &Script,
    shown: &[TokenFields],
) -> Result<Replies, AllocError>
    ensures { IfOk result (AllReplied (net_of atn.now) shown.now (content script.now)) }
{
    let places = script.leaf_places();
    let needed = needed_places(script);
    let mut leaves = vec![in heap; no_leaf(); needed]?;
    let mut text = vec![in heap; 0u8; needed * LINE_LENGTH]?;
    let mut lists = LeafLists::new(leaves.as_mut_slice(), text.as_mut_slice());
    let replies = answer_all(
        heap,
        atn,
        script.lookahead(),
        &mut lists,
        shown,
        script.questions(),
    )?;
    let free = lists.free() + (places - needed);
    Ok(Replies {
        replies,
        added: places.saturating_sub(free),
        free,
    })
}

// The intervals of a set, a single number as such, with blanks between.
pub(crate) fn write_intervals<W: fmt::Write>(
    set: &IntervalSet,
    f: &mut fmt::Formatter<W>,
) -> fmt::Result {
    if set.intervals().is_empty() {
        return write!(f, "{{}}");
    }
    for (k, i) in set.intervals().iter().enumerate() {
        let blank = if k == 0 { "" } else { " " };
        write!(f, "{blank}{}", i.a)?;
        if i.a != i.b {
            write!(f, "..{}", i.b)?;
        }
    }
    Ok(())
}

// How many tokens there are, and each on a line of its own.
fn write_tokens<W: fmt::Write>(tokens: &[TokenFields], f: &mut fmt::Formatter<W>) -> fmt::Result {
    write!(f, " {}", tokens.len())?;
    for token in tokens {
        write!(f, "\n  {token}")?;
    }
    Ok(())
}

// The leaf as the table has it, and its line as the writer has it.
fn write_leaf<W: fmt::Write>(added: &AddedLeaf, f: &mut fmt::Formatter<W>) -> fmt::Result {
    let leaf = added.leaf;
    let (line, column) = leaf.position();
    let index = leaf.index().map_or(-1, i32::from);
    writeln!(f, " done")?;
    write!(f, "  leaf {} {} ", leaf.kind().number(), leaf.depth())?;
    write!(f, "{} {} ", leaf.rule(), i32::from(leaf.token_type()))?;
    writeln!(f, "{index} {line} {column}")?;
    for byte in &added.line {
        write!(f, "{}", char::from(*byte))?;
    }
    Ok(())
}

fn write_reply<W: fmt::Write>(
    net: &Atn,
    question: &Question,
    reply: &Reply,
    f: &mut fmt::Formatter<W>,
) -> fmt::Result {
    write!(f, "{}:", question.words)?;
    match reply {
        Reply::Set(Ok(set)) => {
            write!(f, " ")?;
            write_intervals(set, f)?;
        }
        Reply::Tokens(tokens) => write_tokens(tokens.as_slice(), f)?,
        Reply::Leaf(Ok(added)) => return write_leaf(added, f),
        Reply::Set(Err(denial)) | Reply::Leaf(Err(denial)) => write!(f, " {denial}")?,
        Reply::Picture => return write!(f, "\n{}", Picture(net)),
    }
    writeln!(f)
}

impl fmt::Display for ScriptAnswer<'_> {
    fn fmt<W: fmt::Write>(&self, f: &mut fmt::Formatter<W>) -> fmt::Result {
        write!(f, "{}", self.about_net)?;
        match &self.tape {
            None => {}
            Some(Ok(_)) => writeln!(f, "tape ok")?,
            Some(Err(denial)) => writeln!(f, "tape {denial}")?,
        }
        let (Some(net), Some(replies)) = (self.about_net.net(), &self.replies) else {
            return Ok(());
        };
        for (question, reply) in self.questions.iter().zip(&replies.replies) {
            write_reply(net, question, reply, f)?;
        }
        if self.tape.is_none() {
            return Ok(());
        }
        writeln!(f, "leaves {} added {} free", replies.added, replies.free)?;
        writeln!(f, "reports {}", Counter::new().heard())
    }
}

//! Questions, by the word that they begin with and their numbers.
ghost use Rattle.std.specs.Prelude.{◌≡◌, [], IfOk};
ghost use Rattle.script_lines.specs.Questions.{state_number, state_numbers, Forms};

use crate::keywords::Keyword;
use crate::leaf_rows::leaf_of;
use leaves::Leaf;
use std::alloc::{AllocError, Global};

/// What is asked: a set of the net, by the state that it is of and the invoking states of the open rules,
/// innermost first; which tokens are shown; that a leaf be added; or what the net looks like.
#[derive(Drop)]
pub enum Ask {
    Within { state: usize },
    InContext { state: usize, chain: Vec<usize> },
    Expected { state: usize, chain: Vec<usize> },
    Recovery { chain: Vec<usize> },
    Tokens,
    Leaf(Leaf),
    Picture,
}

/// A question as it stands in the script, its words with single blanks, and what it asks.
#[derive(Drop)]
pub struct Question {
    pub words: String,
    pub ask: Ask,
}

/// The state that a number names. One below 0 names none, like any past the last state; kept a number, as
/// questions are asked by any number.
pub fn state_number(n: i32) -> usize
    ensures { result ≡ state_number n }
{
    usize::try_from(n).unwrap_or(usize::MAX)
}

fn state_numbers(heap: Global, numbers: &[i32]) -> Result<Vec<usize>, AllocError>
    ensures { IfOk result (λ v. v.items ≡ state_numbers numbers.now) }
{
    numbers.iter().map(|n| state_number(*n)).collect(heap)
}

impl Ask {
    /// What the word asks with these numbers; none where no question is so written. A chain may be empty, but
    /// a question for the recovery set has one; a question for the tokens or the picture has no number.
    pub fn form(heap: Global, keyword: Keyword, numbers: &[i32]) -> Result<Option<Ask>, AllocError>
        ensures { IfOk result (Forms keyword numbers.now) }
    {
        let states = state_numbers(heap, numbers)?;
        let [state, rest @ ..] = states.as_slice() else {
            return Ok(Ask::without_numbers(keyword));
        };
        let state = *state;
        let ask = match keyword {
            Keyword::Within if rest.is_empty() => Some(Ask::Within { state }),
            Keyword::InContext => Some(Ask::InContext {
                state,
                chain: rest.to_vec(heap)?,
            }),
            Keyword::Expected => Some(Ask::Expected {
                state,
                chain: rest.to_vec(heap)?,
            }),
            Keyword::Recovery => Some(Ask::Recovery { chain: states }),
            Keyword::Leaf => leaf_of(numbers).map(Ask::Leaf),
            _ => None,
        };
        Ok(ask)
    }

    // What the word asks with no number.
    fn without_numbers(keyword: Keyword) -> Option<Ask>
        ensures { Forms keyword [] result }
    {
        match keyword {
            Keyword::Tokens => Some(Ask::Tokens),
            Keyword::Picture => Some(Ask::Picture),
            _ => None,
        }
    }
}

//! Whether tokens are a tape.
ghost use Rattle.std.specs.Prelude.{◌≡◌, false, map, Decides, EachIndex};
ghost use Rattle.token.specs.Tokens.{is_eof};
ghost use Rattle.token_stream.specs.Tapes.{token_at, Placed, EndsInEof, IsTape};

use token::{MAX_POSITION, Token};

/// How many tokens a tape has at most.
pub const MAX_TOKENS: usize = 65_535;

// Whether the token has place k as its token index, and a line and a column within their limits.
fn is_placed<T: Token>(t: &T, k: usize) -> bool
    ensures { Decides result (Placed (T.fields t.now) k) }
{
    let (line, column) = t.position();
    t.token_index().map(usize::from) == Some(k) && line <= MAX_POSITION && column <= MAX_POSITION
}

// Whether the token has place k, and is not EOF.
fn is_before_eof<T: Token>(t: &T, k: usize) -> bool
    ensures { let f = T.fields t.now in Decides result (Placed f k × (is_eof f.typ ≡ false)) }
{
    is_placed(t, k) && !t.token_type().is_eof()
}

// Whether each token is in its place, and EOF stands last and nowhere else. The last is looked at
// first, then the others in their order, each once, until one is at fault.
fn all_in_place<T: Token>(tokens: &[T]) -> bool
    ensures { let tape = map T.fields tokens.now in
        Decides result (EndsInEof tape × EachIndex tape (λ k. Placed (token_at tape k) k)) }
{
    let Some((last, before)) = tokens.split_last() else {
        return false;
    };
    last.token_type().is_eof()
        && is_placed(last, before.len())
        && before.iter().enumerate().all(|(k, t)| is_before_eof(t, k))
}

// Whether the tokens are a tape.
pub(crate) fn is_tape<T: Token>(tokens: &[T]) -> bool
    ensures { Decides result (IsTape (map T.fields tokens.now)) }
{
    tokens.len() <= MAX_TOKENS && all_in_place(tokens)
}

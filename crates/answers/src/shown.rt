//! What a stream shows, as a list.
ghost use Rattle.std.specs.Prelude.{◌≡◌, IfOk};
ghost use Rattle.token_stream.specs.Streams.{KeepsShown};

use std::alloc::{AllocError, Global};
use token::TokenFields;
use token_stream::TokenStream;

// All that the stream shows, from its first token to EOF.
pub(crate) fn list_shown<'a, S: TokenStream<'a>>(
    heap: Global,
    stream: &mut S,
) -> Result<Vec<TokenFields>, AllocError>
    ensures keeps { KeepsShown S.tape S.shown stream.old stream.new }
    ensures shown { IfOk result (λ v. v.items ≡ S.shown stream.old) }
{
    let mut tokens = Vec::new(heap);
    loop {
        let ahead = tokens.len() + 1;
        let token = TokenFields::of(stream.lt(ahead as i32));
        tokens.push(token)?;
        if token.token_type.is_eof() {
            return Ok(tokens);
        }
    }
}

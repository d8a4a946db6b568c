//! A table of tokens as a stream.
ghost use Rattle.std.specs.Prelude.{◌≡◌, ◌<◌, length, map, drop, IfOk};
ghost use Rattle.errors.specs.Denials.{DeniesFirst};
ghost use Rattle.token_stream.specs.Tapes.{IsTape, TapeFault};
ghost use Rattle.token_stream.specs.Streams.{shown_at};
ghost use Rattle.token_stream.specs.Lawful.{sound_prop, table_shows};

use crate::stream::{IntStream, TokenStream};
use crate::tape::is_tape;
use errors::Denial;
use token::{Token, TokenFactory, TokenType};

/// The tokens of a tape, and the place from which they are shown.
#[derive(Drop)]
pub struct TokenTable<'a, T: Token, F> {
    tokens: &'a [T],
    place: usize,
    factory: F,
    ghost sound: { IsTape (map T.fields tokens.now) } by { sound_prop (map T.fields tokens.now) },
    ghost inside: { place < length tokens.now },
}

impl<'a, T: Token, F: Drop> TokenTable<'a, T, F> {
    /// A stream that shows the tokens from the first on. Denied with `FaultyTape` if they are
    /// no tape.
    pub fn check(tokens: &'a [T], factory: F) -> Result<TokenTable<'a, T, F>, Denial>
        ensures verdict { DeniesFirst (TapeFault (map T.fields tokens.now)) result }
        ensures whole { IfOk result (λ t. t.tokens.now ≡ tokens.now) }
        ensures from_the_start { IfOk result (λ t. t.place ≡ 0) }
        ensures factory { IfOk result (λ t. t.factory ≡ factory) }
    {
        if !is_tape(tokens) {
            return Err(Denial::FaultyTape);
        }
        Ok(TokenTable {
            tokens,
            place: 0,
            factory,
        })
    }
}

impl<'a, T: Token, F> TokenTable<'a, T, F> {
    // The k-th token ahead, counted from 1.
    fn ahead(&self, k: i32) -> &'a T
        ensures { let tape = map T.fields self.now.tokens.now in
            T.fields result.now ≡ shown_at (drop self.now.place tape) k }
    {
        let left = &self.tokens[self.place..];
        let steps = usize::try_from(k).unwrap_or(0).saturating_sub(1);
        &left[steps.min(left.len() - 1)]
    }
}

impl<'a, T: Token, F> IntStream for TokenTable<'a, T, F> {
    ghost tape = { λ s. map T.fields s.tokens.now };

    ghost shown = { λ s. drop s.place (map T.fields s.tokens.now) };

    ghost lawful = { λ s. table_shows T.fields s.tokens.now s.place s.inside ∣ s.sound ∣₁ };

    fn la(&mut self, k: i32) -> TokenType {
        self.ahead(k).token_type()
    }

    fn index(&mut self) -> u16 {
        self.ahead(1).token_index().unwrap_or(0)
    }

    fn consume(&mut self) {
        if !self.ahead(1).token_type().is_eof() {
            self.place += 1;
        }
    }
}

impl<'a, T: Token + Drop + 'a, F: TokenFactory<Tok = T>> TokenStream<'a> for TokenTable<'a, T, F> {
    type Tok = T;

    type Factory = F;

    ghost own_factory = { λ s. s.factory };

    fn lt(&mut self, k: i32) -> &'a T {
        self.ahead(k)
    }

    fn get(&self, i: i32) -> &'a T {
        let last = self.tokens.len() - 1;
        &self.tokens[usize::try_from(i).unwrap_or(last).min(last)]
    }

    fn factory(&self) -> &F {
        &self.factory
    }
}

//! Streams of tokens.
ghost use Rattle.std.specs.Prelude.{◌≡◌, true, Some, List, pos};
ghost use Rattle.token.specs.Tokens.{Fields, is_eof};
ghost use Rattle.token_stream.specs.Streams.{Shows, KeepsShown, Outside, shown_at, tape_at, passed};

use token::{Token, TokenFactory, TokenType};

/// A stream shows some of the tokens of its tape, from its place on. A question alters nothing that
/// is shown; it takes `&mut self` so that a stream may keep how far it has looked.
pub trait IntStream {
    ghost tape: { Self → List Fields };

    ghost shown: { Self → List Fields };

    ghost lawful: { (s : Self) → Shows (tape s) (shown s) };

    /// The type of the k-th token ahead, counted from 1: below 1 the first's, past the end EOF.
    fn la(&mut self, k: i32) -> TokenType
        ensures keeps { KeepsShown tape shown self.old self.new }
        ensures type_ahead { result ≡ (shown_at (shown self.old) k).typ };

    /// The token index of the first token shown.
    fn index(&mut self) -> u16
        ensures keeps { KeepsShown tape shown self.old self.new }
        ensures token_index { (shown_at (shown self.old) (pos 1)).index ≡ Some result };

    /// Passes the first token shown, but never EOF.
    fn consume(&mut self)
        ensures keeps_tape { tape self.new ≡ tape self.old }
        ensures drops_first_unless_eof { shown self.new ≡ passed (shown self.old) };
}

/// A stream that gives the tokens themselves, which live as long as their tape.
pub trait TokenStream<'a>: IntStream {
    type Tok: Token + Drop + 'a;

    type Factory: TokenFactory<Tok = Self::Tok>;

    ghost own_factory: { Self → Self.Factory };

    /// The k-th token ahead, counted from 1: below 1 the first, past the end EOF.
    fn lt(&mut self, k: i32) -> &'a Self::Tok
        ensures keeps { KeepsShown Self.tape Self.shown self.old self.new }
        ensures token_ahead { Self.Tok.fields result.now ≡ shown_at (Self.shown self.old) k };

    /// The token at a place of the tape; outside it EOF.
    fn get(&self, i: i32) -> &'a Self::Tok
        ensures token { Self.Tok.fields result.now ≡ tape_at (Self.tape self.now) i }
        ensures eof_outside { Outside i (Self.tape self.now) →
            is_eof (Self.Tok.fields result.now).typ ≡ true };

    /// What makes tokens of the stream's kind.
    fn factory(&self) -> &Self::Factory
        ensures { result.now ≡ own_factory self.now };
}

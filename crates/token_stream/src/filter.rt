//! A filter over any stream.
ghost use Rattle.std.specs.Prelude.{◌≡◌, ◌<◌, ◌≤◌, List, length, drop, pos, IsSomeAnd};
ghost use Rattle.std.specs.Option.{ForSome};
ghost use Rattle.token.specs.Tokens.{Fields, is_eof};
ghost use Rattle.token_stream.specs.Streams.{KeepsShown, filtered, shown_at, visible};
ghost use Rattle.token_stream.specs.Filtering.{filter_shows};
ghost use Rattle.token_stream.specs.Looked.{Looked, IsNext, IsFound};

use crate::stream::{IntStream, TokenStream};
use std::marker::PhantomData;
use token::{Token, TokenType};

/// How far a filter has looked: token number `ahead` below, counted from 1, is number `count` of
/// those that it shows.
#[derive(Clone, Copy)]
pub struct Cursor {
    pub count: usize,
    pub ahead: u16,
}

/// Shows EOF and the tokens of channel 0 of the stream below. Looking ahead one by one goes over
/// each token below once.
#[derive(Drop)]
pub struct Filter<'a, S: IntStream> {
    below: S,
    // none until it looks on from where it stands
    cursor: Option<Cursor>,
    // the tokens live as long as their tape
    tape: PhantomData<&'a ()>,
    ghost looked: { ForSome cursor (λ s. ∥ Looked (S.shown below) s.count s.ahead ∥₁) },
}

impl<'a, S: TokenStream<'a>> Filter<'a, S> {
    /// A filter that stands where the stream stands.
    pub fn new(below: S) -> Filter<'a, S>
        ensures { result.below ≡ below }
    {
        Filter {
            below,
            cursor: None,
            tape: PhantomData,
        }
    }

    // Which token below, counted from 1, is the k-th that is shown; EOF if there are fewer.
    fn seek(&mut self, k: i32) -> i32
        ensures keeps { KeepsShown S.tape S.shown self.old.below self.new.below }
        ensures found { let ts = S.shown self.old.below in
            shown_at ts result ≡ shown_at (filtered ts) k }
        ensures keeps_cursor { IsSomeAnd self.new.cursor (λ s. result ≡ pos s.ahead) }
    {
        let k = at_least_one(k);
        let seen = self.cursor.filter(|s| s.count <= k);
        let cursor = look_on(&mut self.below, seen, k);
        self.cursor = Some(cursor);
        i32::from(cursor.ahead)
    }
}

impl<'a, S: TokenStream<'a>> IntStream for Filter<'a, S> {
    ghost tape = { λ f. S.tape f.below };

    ghost shown = { λ f. filtered (S.shown f.below) };

    ghost lawful = { λ f. filter_shows (S.tape f.below) (S.shown f.below) (S.lawful f.below) };

    fn la(&mut self, k: i32) -> TokenType {
        let j = self.seek(k);
        self.below.la(j)
    }

    fn index(&mut self) -> u16 {
        let j = self.seek(1);
        self.below.lt(j).token_index().unwrap_or(0)
    }

    // Drops the hidden tokens before the first that is shown, too.
    fn consume(&mut self) {
        let first = next_visible(&mut self.below, 0);
        if !is_eof_at(&mut self.below, first) {
            pass(&mut self.below, first);
            self.cursor = None;
        }
    }
}

impl<'a, S: TokenStream<'a>> TokenStream<'a> for Filter<'a, S> {
    type Tok = S::Tok;

    type Factory = S::Factory;

    ghost own_factory = { λ f. S.own_factory f.below };

    fn lt(&mut self, k: i32) -> &'a S::Tok {
        let j = self.seek(k);
        self.below.lt(j)
    }

    fn get(&self, i: i32) -> &'a S::Tok {
        self.below.get(i)
    }

    fn factory(&self) -> &S::Factory {
        self.below.factory()
    }
}

// Whether a filter shows the token.
fn is_visible<T: Token>(t: &T) -> bool
    ensures { result ≡ visible (T.fields t.now) }
{
    t.token_type().is_eof() || t.channel() == 0
}

// Whether token number j, counted from 1, is EOF.
fn is_eof_at<'a, S: TokenStream<'a>>(below: &mut S, j: u16) -> bool
    ensures keeps { KeepsShown S.tape S.shown below.old below.new }
    ensures eof { result ≡ is_eof (shown_at (S.shown below.old) (pos j)).typ }
{
    below.la(i32::from(j)).is_eof()
}

// The number, counted from 1, of the next visible token after the first `from` of the stream.
fn next_visible<'a, S: TokenStream<'a>>(below: &mut S, from: u16) -> u16
    requires { from < length (S.shown below.old) }
    ensures keeps { KeepsShown S.tape S.shown below.old below.new }
    ensures next { IsNext (S.shown below.old) from result }
{
    let mut j = from + 1;
    while !is_visible(below.lt(i32::from(j))) {
        j += 1;
    }
    j
}

// Looks on until the k-th visible token, or EOF if there are fewer, is the last that was looked at.
fn look_on<'a, S: TokenStream<'a>>(below: &mut S, seen: Option<Cursor>, k: usize) -> Cursor
    requires looked { ForSome seen (λ s. Looked (S.shown below.old) s.count s.ahead) }
    requires more { ForSome seen (λ s. s.count ≤ k) }
    requires positive { 0 < k }
    ensures keeps { KeepsShown S.tape S.shown below.old below.new }
    ensures looked { Looked (S.shown below.old) result.count result.ahead }
    ensures not_past { result.count ≤ k }
    ensures found { IsFound (S.shown below.old) k result.ahead }
{
    let mut cursor = match seen {
        Some(cursor) => cursor,
        None => Cursor {
            count: 1,
            ahead: next_visible(below, 0),
        },
    };
    while cursor.count < k && !is_eof_at(below, cursor.ahead) {
        cursor = Cursor {
            count: cursor.count + 1,
            ahead: next_visible(below, cursor.ahead),
        };
    }
    cursor
}

// Drops the first n tokens of the stream, among which is no EOF.
fn pass<'a, S: TokenStream<'a>>(below: &mut S, n: u16)
    requires { n < length (S.shown below.old) }
    ensures keeps_tape { S.tape below.new ≡ S.tape below.old }
    ensures drops { S.shown below.new ≡ drop n (S.shown below.old) }
{
    for _ in 0..n {
        below.consume();
    }
}

// k, and 1 for a k below 1: both ask for the same token.
fn at_least_one(k: i32) -> usize
    ensures positive { 0 < result }
    ensures equal { (ts : List Fields) → 0 < length ts → shown_at ts (pos result) ≡ shown_at ts k }
{
    usize::try_from(k).unwrap_or(0).max(1)
}

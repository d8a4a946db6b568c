//! Events of a lane.
ghost use Rattle.std.specs.Prelude.{false, None};

use crate::common_token::{CommonToken, KeptSpan};
use crate::token::TokenFactory;
use crate::token_type::{Span, TokenType};

/// An event, which has no span: its line is its lane, and its column a count.
pub type LaneToken = CommonToken<()>;

/// Makes events.
#[derive(Clone, Copy, PartialEq, Eq, Debug)]
pub struct LaneFactory;

impl KeptSpan for () {
    ghost kept = { λ _. None };

    ghost has_span = { false };

    fn kept(&self) -> Option<Span> {
        None
    }
}

impl TokenFactory for LaneFactory {
    type Tok = LaneToken;

    fn create(
        &self,
        token_type: TokenType,
        channel: u8,
        index: Option<u16>,
        position: (u32, u32),
        _span: Span,
    ) -> LaneToken {
        let (lane, count) = position;
        LaneToken {
            token_type,
            channel,
            index,
            line: lane,
            column: count,
            span: (),
        }
    }
}

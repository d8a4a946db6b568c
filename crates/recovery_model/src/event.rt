//! A line of the journal.
use crate::answer::Answer;
use crate::call::Call;

/// A call, what it answered, and the token indexes of the first token shown before it and after it. It takes 192 bytes.
#[derive(Clone, Copy)]
pub struct Event {
    pub call: Call,
    pub answer: Answer,
    pub before: u16,
    pub after: u16,
}

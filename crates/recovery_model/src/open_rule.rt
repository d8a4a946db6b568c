//! Open rules.

/// A rule that was entered and not left yet.
#[derive(Clone, Copy, PartialEq, Eq, Debug)]
pub struct OpenRule {
    pub rule: u8,
    /// the parser's state when it was entered; none of the outermost rule
    pub invoking: Option<u16>,
    /// the leaves that were added while it was the innermost, or 4,294,967,295 if they were more
    pub leaves: u32,
}

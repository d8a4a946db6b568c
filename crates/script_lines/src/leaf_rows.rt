//! Leaves, by the numbers of their rows.
ghost use Rattle.script_lines.specs.Questions.{KindRead, LeafRead};

use crate::token_rows::token_type;
use leaves::{Leaf, LeafKind};

// The kind with that number.
fn leaf_kind(n: i32) -> Option<LeafKind>
    ensures { KindRead n result }
{
    [LeafKind::Terminal, LeafKind::Error]
        .into_iter()
        .find(|k| i32::from(k.number()) == n)
}

// The leaf with these numbers: kind, depth, rule, type, token index, line and column.
pub(crate) fn leaf_of(ns: &[i32]) -> Option<Leaf>
    ensures { LeafRead ns.now result }
{
    let &[kind, depth, rule, t, index, line, column] = ns else {
        return None;
    };
    let index = match index {
        -1 => None,
        _ => Some(u16::try_from(index).ok()?),
    };
    Leaf::new(
        leaf_kind(kind)?,
        u8::try_from(depth).ok()?,
        u8::try_from(rule).ok()?,
        token_type(t)?,
        index,
        (u32::try_from(line).ok()?, u32::try_from(column).ok()?),
    )
}

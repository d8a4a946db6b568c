//! Leaves as lines of text, whose numbers stand in columns.
ghost use Rattle.std.specs.Prelude.{◌≡◌, ◌≤◌, ◌++◌, length, drop};
ghost use Rattle.std.specs.Fmt.{signed_decimal};
ghost use Rattle.fixed_vec.specs.Lists.{listed, spare};
ghost use Rattle.leaves.specs.Leaves.{LeafFits};
ghost use Rattle.leaves.specs.LeafLines.{column, numbers, leaf_line};

use crate::leaf::Leaf;
use fixed_vec::BoundedList;
use itoa::Buffer;

/// The bytes of a line.
pub const LINE_LENGTH: usize = 57;

// The bytes of a column.
const COLUMN_WIDTH: usize = 8;

// A number in a column of its own.
fn column(n: i32) -> [u8; COLUMN_WIDTH]
    requires { length (signed_decimal n) ≤ COLUMN_WIDTH }
    ensures { result ≡ column n }
{
    let mut text = Buffer::new();
    let digits = text.format(n).as_bytes();
    let mut column = [b' '; COLUMN_WIDTH];
    column[COLUMN_WIDTH - digits.len()..].copy_from_slice(digits);
    column
}

// The seven numbers of a line.
fn numbers(leaf: Leaf) -> [i32; 7]
    ensures numbers { result ≡ numbers leaf }
    ensures fits { LeafFits leaf }
{
    [
        i32::from(leaf.kind.number()),
        i32::from(leaf.depth),
        i32::from(leaf.rule),
        i32::from(leaf.token_type),
        leaf.index.map_or(-1, i32::from),
        leaf.line as i32,
        leaf.column as i32,
    ]
}

// One line more.
fn put_line(out: &mut BoundedList<u8>, leaf: Leaf)
    requires { LINE_LENGTH ≤ length (spare out.old) }
    ensures fits { LeafFits leaf }
    ensures same_memory { out.new.slots.ghost_name ≡ out.old.slots.ghost_name }
    ensures line { listed out.new ≡ listed out.old ++ leaf_line leaf }
    ensures untouched { spare out.new ≡ drop LINE_LENGTH (spare out.old) }
{
    // there is room for each
    for n in numbers(leaf) {
        let _ = out.extend_from_slice(&column(n));
    }
    let _ = out.push(b'\n');
}

// Fills the memory with the line.
pub(crate) fn write_line(line: &mut [u8], leaf: Leaf)
    requires { length line.old ≡ LINE_LENGTH }
    ensures fits { LeafFits leaf }
    ensures line { line.new ≡ leaf_line leaf }
{
    let mut out = BoundedList::new(line);
    put_line(&mut out, leaf);
}

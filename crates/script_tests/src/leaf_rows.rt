//! Lines that add a leaf, and what is printed for each.
use crate::questions::{PASS, printed};
use std::alloc::Global;
use std::process::Abort;
use std::test::*;

const ADDED: [(&str, &str); 5] = [
    // as the table has it, and as the writer has it
    (
        "leaf 1 2 1 1 0 1 0",
        "leaf 1 2 1 1 0 1 0: done\n  leaf 1 2 1 1 0 1 0\n       1       2       1       1       0       1       0\n",
    ),
    // the limits; the end of the input is type -1, a made-up token has no token index
    (
        "leaf 2 64 63 255 65534 1000000 1000000\nleaf 1 1 0 -1 -1 0 0",
        "leaf 2 64 63 255 65534 1000000 1000000: done\n  leaf 2 64 63 255 65534 1000000 1000000\n       2      64      63     255   65534 1000000 1000000\nleaf 1 1 0 -1 -1 0 0: done\n  leaf 1 1 0 -1 -1 0 0\n       1       1       0      -1      -1       0       0\n",
    ),
    // no room: denied, and then nothing is added
    (
        "leaves 0\nleaf 1 1 0 1 0 1 0",
        "leaf 1 1 0 1 0 1 0: denied 11\n",
    ),
    (
        "leaves -3\nleaf 1 1 0 1 0 1 0",
        "leaf 1 1 0 1 0 1 0: denied 11\n",
    ),
    // with a tape, how many were added comes last; the last number of places counts
    (
        "lane -1 0 1 0\nleaves 7\nleaves 1\nleaf 1 1 0 5 0 1 0\nleaf 2 1 0 6 1 1 1\nwithin 8",
        "tape ok\nleaf 1 1 0 5 0 1 0: done\n  leaf 1 1 0 5 0 1 0\n       1       1       0       5       0       1       0\nleaf 2 1 0 6 1 1 1: denied 11\nwithin 8: 2\nleaves 1 added 0 free\nreports 0\n",
    ),
];

fn answered(rt: &impl Abort, heap: Global, rows: &str, answer: &str) -> Result<(), Fail> {
    let text = format!(in heap; "{PASS}{rows}\n")?;
    let printed = printed(heap, text.as_str())?;
    let expected = format!(in heap; "net ok\n{answer}")?;
    assert_eq!(rt; printed.as_str(), expected.as_str());
    Ok(())
}

#[test]
fn what_is_added(rt: HostRuntime) -> Result<(), Fail> {
    for (rows, answer) in ADDED {
        answered(&rt, rt.alloc(), rows, answer)?;
    }
    Ok(())
}

// No more than a million leaves have room, whatever is asked for.
#[test]
fn the_most_places(rt: HostRuntime) -> Result<(), Fail> {
    answered(
        &rt,
        rt.alloc(),
        "leaves 2147483647\nlane -1 0 1 0\nwithin 8",
        "tape ok\nwithin 8: 2\nleaves 0 added 1000000 free\nreports 0\n",
    )
}

//! Rows of a tape, and what is printed about it.
use crate::questions::{PASS, printed};
use std::alloc::Global;
use std::process::Abort;
use std::test::*;

const SHOWN: [(&str, &str); 8] = [
    // no row and no question for the tokens: there is no tape
    ("show channel0\nwithin 8", "within 8: 2\n"),
    // words; a hidden one first, one before the end, and a hidden end
    (
        "word 9 1 1 0 0 3\nword 1 0 1 4 4 4\nword 8 2 1 6 6 9\nword -1 3 2 0 11 10\ntokens",
        "tape ok\ntokens: 4\n  0: word 9 1 1 0 0 3\n  1: word 1 0 1 4 4 4\n  2: word 8 2 1 6 6 9\n  3: word -1 3 2 0 11 10\n",
    ),
    (
        "word 9 1 1 0 0 3\nword 1 0 1 4 4 4\nword 8 2 1 6 6 9\nword -1 3 2 0 11 10\nshow channel0\ntokens",
        "tape ok\ntokens: 2\n  1: word 1 0 1 4 4 4\n  3: word -1 3 2 0 11 10\n",
    ),
    // events, all of them hidden; the last choice counts
    (
        "show all\nlane 1 255 7 1\nlane 2 1 7 2\nlane -1 1 0 0\nshow channel0\ntokens\ntokens",
        "tape ok\ntokens: 1\n  2: lane -1 1 0 0\ntokens: 1\n  2: lane -1 1 0 0\n",
    ),
    // the limits: type 0 and 255, channel 255, line and column 1,000,000; start and stop are not looked at
    (
        "word 0 0 0 0 -5 -9\nword 255 255 1000000 1000000 2147483647 -2147483648\nword -1 0 1 0 0 0\ntokens",
        "tape ok\ntokens: 3\n  0: word 0 0 0 0 -5 -9\n  1: word 255 255 1000000 1000000 2147483647 -2147483648\n  2: word -1 0 1 0 0 0\n",
    ),
    // the end of the input alone is a tape
    ("lane -1 0 0 0\nwithin 8", "tape ok\nwithin 8: 2\n"),
    // rows in any order among those of the net, each with its place as its token index
    (
        "lane 3 0 1 1\nlookahead cache\nlane -1 0 1 2\nwithin 8\ntokens\nwithin 10",
        "tape ok\nwithin 8: 2\ntokens: 2\n  0: lane 3 0 1 1\n  1: lane -1 0 1 2\nwithin 10: -2\n",
    ),
    // no row, and a question for the tokens: there is no token at all
    ("tokens", "tape denied 6\n"),
];

// Each is denied with 6, and then nothing more is answered.
const DENIED: [&str; 10] = [
    "lane 1 0 1 1",
    "lane -1 0 1 1\nlane 1 0 1 1",
    "lane -1 0 1 1\nlane -1 0 1 1",
    "lane 256 0 1 1\nlane -1 0 1 1",
    "lane -2 0 1 1\nlane -1 0 1 1",
    "lane 1 256 1 1\nlane -1 0 1 1",
    "lane 1 -1 1 1\nlane -1 0 1 1",
    "lane 1 0 1000001 1\nlane -1 0 1 1",
    "word 1 0 1 1000001 0 0\nword -1 0 1 1 0 0",
    "word 1 0 -1 1 0 0\nword -1 0 1 1 0 0",
];

fn answered(rt: &impl Abort, heap: Global, rows: &str, answer: &str) -> Result<(), Fail> {
    let text = format!(in heap; "{PASS}{rows}\n")?;
    let printed = printed(heap, text.as_str())?;
    let end = if answer.starts_with("tape ok") {
        "leaves 0 added 1000 free\nreports 0\n"
    } else {
        ""
    };
    let expected = format!(in heap; "net ok\n{answer}{end}")?;
    assert_eq!(rt; printed.as_str(), expected.as_str());
    Ok(())
}

#[test]
fn what_is_shown(rt: HostRuntime) -> Result<(), Fail> {
    for (rows, answer) in SHOWN {
        answered(&rt, rt.alloc(), rows, answer)?;
    }
    Ok(())
}

#[test]
fn what_is_no_tape(rt: HostRuntime) -> Result<(), Fail> {
    let heap = rt.alloc();
    for rows in DENIED {
        let asked = format!(in heap; "{rows}\ntokens\nwithin 8")?;
        answered(&rt, heap, asked.as_str(), "tape denied 6\n")?;
    }
    Ok(())
}

// Of 65,535 tokens there may be a tape, of one more there is none.
#[test]
fn the_longest_tape(rt: HostRuntime) -> Result<(), Fail> {
    let heap = rt.alloc();
    let mut rows = String::new(heap);
    for _ in 0..65_534 {
        rows.push_str("lane 1 1 1 1\n")?;
    }
    rows.push_str("lane -1 0 1 1\nshow channel0\ntokens")?;
    answered(
        &rt,
        heap,
        rows.as_str(),
        "tape ok\ntokens: 1\n  65534: lane -1 0 1 1\n",
    )?;
    let longer = format!(in heap; "lane 1 1 1 1\n{rows}")?;
    answered(&rt, heap, longer.as_str(), "tape denied 6\n")
}

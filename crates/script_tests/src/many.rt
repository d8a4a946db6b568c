//! Scripts with many rows.
use answers::NetAnswer;
use script::Script;
use std::alloc::{AllocError, Global};
use std::test::*;

// A script of n rows beside its net line.
fn script_of(heap: Global, row: &str, n: usize) -> Result<String, AllocError> {
    let mut text = String::from_str(heap, "net 1\n")?;
    for _ in 0..n {
        text.push_str(row)?;
    }
    Ok(text)
}

// More rows than a net may have: they are read, and the net is denied.
#[test]
fn more_rows_than_a_net_may_have(rt: HostRuntime) -> Result<(), Fail> {
    let heap = rt.alloc();
    for (row, n) in [
        ("rule 0 0\n", 65),
        ("state 0 1 0\n", 513),
        ("edge 1 0 0 0\n", 2049),
        ("interval 1 1\n", 1025),
    ] {
        let text = script_of(heap, row, n)?;
        let script = Script::parse(heap, text.as_str())?;
        let answer = NetAnswer::of(&script).ok_or("no answer")?;
        assert_eq!(rt;
            answer.to_string(heap)?.as_str(),
            "net denied 2\n",
            "{}",
            row
        );
    }
    Ok(())
}

// More rows than a script may have: the line with the first of them is named.
#[test]
fn more_rows_than_a_script_may_have(rt: HostRuntime) -> Result<(), Fail> {
    let heap = rt.alloc();
    let text = script_of(heap, "rule 0 0\n", 1_000_001)?;
    let error = Script::parse(heap, text.as_str())
        .err()
        .ok_or("a million and one rows were taken")?;
    assert_eq!(rt;
        error.to_string(heap)?.as_str(),
        "line 1000002: expected at most 1000000 rows in a table"
    );
    Ok(())
}

//! Questions about the pass net, and what is printed for each.
use answers::{LeafLists, NetAnswer, Reply, ScriptAnswer, answer_all};
use errors::Denial;
use script::Script;
use script_lines::LookaheadKind;
use std::alloc::Global;
use std::process::Abort;
use std::test::*;

// A loop of the tokens 1, 2 and 3, and the end of the input.
pub(crate) const PASS: &str =
    "net 3\nrule 0 5\nrule 6 10\nstate 0 2 1\nstate 0 10 2\nstate 0 1 1\nstate 0 9 1\nstate 0 1 1\nstate 0 7 0\nstate 1 2 1\nstate 1 1 1\nstate 1 1 1\nstate 1 1 1\nstate 1 7 0\nedge 1 1 0 0\nedge 1 2 0 0\nedge 1 4 0 0\nedge 3 6 1 3\nedge 1 1 0 0\nedge 5 5 -1 0\nedge 1 7 0 0\nedge 5 8 1 0\nedge 5 9 2 0\nedge 5 10 3 0\n";

const ASKED: [(&str, &str); 18] = [
    ("within 1", "within 1: -1 1"),
    ("within 3", "within 3: -1 1"),
    ("within 8", "within 8: 2"),
    // a stop state
    ("within 10", "within 10: -2"),
    // outside the net
    ("within 11", "within 11: denied 8"),
    ("within -1", "within -1: denied 8"),
    // with the call at state 2 open, the end of rule 1 goes on at state 3
    ("in-context 10 2", "in-context 10 2: -1 1"),
    ("in-context 8 2", "in-context 8 2: 2"),
    ("in-context 10", "in-context 10: -1"),
    ("expected 10 2", "expected 10 2: -1 1"),
    ("expected 5", "expected 5: -1"),
    // state 1 calls no rule
    ("expected 10 1", "expected 10 1: denied 5"),
    // a faulty chain comes before a state outside the net
    ("expected 99 2 1", "expected 99 2 1: denied 5"),
    ("in-context 99 2", "in-context 99 2: denied 8"),
    ("recovery 2", "recovery 2: -1 1"),
    ("recovery 2 2", "recovery 2 2: -1 1"),
    ("recovery 11", "recovery 11: denied 5"),
    // the words as they stand, with single blanks
    (" \twithin   +008 ", "within +008: 2"),
];

// What is printed for the script.
pub(crate) fn printed(heap: Global, text: &str) -> Result<String, Fail> {
    let script = Script::parse(heap, text)?;
    let answer = ScriptAnswer::of(heap, &script)?.ok_or("no answer")?;
    Ok(answer.to_string(heap)?)
}

// The rows, which are those of the pass net with an option before or a question behind them, are answered by the line.
fn is_answered(rt: &impl Abort, heap: Global, rows: &str, line: &str) -> Result<(), Fail> {
    let printed = printed(heap, rows)?;
    let expected = format!(in heap; "net ok\n{line}\n")?;
    assert_eq!(rt; printed.as_str(), expected.as_str());
    Ok(())
}

fn answered(rt: &impl Abort, heap: Global, option: &str) -> Result<(), Fail> {
    for (question, line) in ASKED {
        let rows = format!(in heap; "{option}{PASS}{question}\n")?;
        is_answered(rt, heap, rows.as_str(), line)?;
    }
    Ok(())
}

#[test]
fn by_the_walker(rt: HostRuntime) -> Result<(), Fail> {
    answered(&rt, rt.alloc(), "")
}

#[test]
fn by_the_table(rt: HostRuntime) -> Result<(), Fail> {
    answered(&rt, rt.alloc(), "lookahead table\n")
}

#[test]
fn by_the_cache(rt: HostRuntime) -> Result<(), Fail> {
    answered(&rt, rt.alloc(), "lookahead cache\n")
}

// All of a chain is looked at before anything is answered. The crate that this is modelled on goes through it only
// as far as it needs to: from state 8 no walk can end, and from state 3, which follows the call at state 2, none either.
#[test]
fn with_a_chain_that_need_not_be_read(rt: HostRuntime) -> Result<(), Fail> {
    let heap = rt.alloc();
    for (question, answer) in [
        // state 1 calls no rule
        ("expected 8 1", "denied 5"),
        ("expected 8 2 1", "denied 5"),
        ("expected 10 2 1", "denied 5"),
        // outside the net
        ("expected 8 11", "denied 5"),
        ("expected 8 2", "2"),
    ] {
        let rows = format!(in heap; "{PASS}{question}\n")?;
        let line = format!(in heap; "{question}: {answer}")?;
        is_answered(&rt, heap, rows.as_str(), line.as_str())?;
    }
    Ok(())
}

// A chain of 63 states, and one that is too long.
#[test]
fn with_the_longest_chain(rt: HostRuntime) -> Result<(), Fail> {
    let heap = rt.alloc();
    let mut question = String::from_str(heap, "expected 8")?;
    for _ in 0..63 {
        question.push_str(" 2")?;
    }
    for answer in ["2", "denied 5"] {
        let rows = format!(in heap; "{PASS}{question}\n")?;
        let line = format!(in heap; "{question}: {answer}")?;
        is_answered(&rt, heap, rows.as_str(), line.as_str())?;
        question.push_str(" 2")?;
    }
    Ok(())
}

// Questions about a denied net are not answered.
#[test]
fn about_a_denied_net(rt: HostRuntime) -> Result<(), Fail> {
    let heap = rt.alloc();
    let printed = printed(heap, "net 1\nwithin 0\nrecovery 0\n")?;
    assert_eq!(rt; printed.as_str(), "net denied 2\n");
    Ok(())
}

// The picture of a net with two states and an edge.
#[test]
fn of_the_picture(rt: HostRuntime) -> Result<(), Fail> {
    let heap = rt.alloc();
    let text = "net 2\nrule 0 1\nstate 0 2 1\nstate 0 7 0\nedge 2 1 1 2\n picture\n";
    let printed = printed(heap, text)?;
    assert_eq!(rt;
        printed.as_str(),
        "net ok\npicture:\ndigraph net {\n  rankdir=LR;\n  subgraph cluster_0 {\n    label=\"rule 0\";\n    s0 [label=\"0\\nRuleStart\"];\n    s1 [label=\"1\\nRuleStop\", peripheries=2];\n  }\n  s0 -> s1 [label=\"1..2\"];\n}\n"
    );
    Ok(())
}

// The empty set.
#[test]
fn of_a_state_that_takes_nothing(rt: HostRuntime) -> Result<(), Fail> {
    let heap = rt.alloc();
    let text = "net 2\nrule 0 1\nstate 0 2 1\nstate 0 7 0\nedge 8 1 0 1\ninterval 1 2\nwithin 0\n";
    let printed = printed(heap, text)?;
    assert_eq!(rt; printed.as_str(), "net ok\nwithin 0: {}\n");
    Ok(())
}

// The set of state 0 where state 1 stops the only rule.
fn set_of_the_start(rt: &impl Abort, heap: Global, rows: &str, expected: &str) -> Result<(), Fail> {
    let text = format!(in heap; "rule 0 1\nstate 0 2 {rows}within 0\n")?;
    let printed = printed(heap, text.as_str())?;
    assert_eq!(rt; printed.as_str(), expected);
    Ok(())
}

// A wildcard over types that stand there one by one.
#[test]
fn of_labels_that_join(rt: HostRuntime) -> Result<(), Fail> {
    let rows = "4\nstate 0 7 0\nedge 5 1 1 0\nedge 5 1 3 0\nedge 5 1 5 0\nedge 9 1 0 0\nnet 5\n";
    set_of_the_start(&rt, rt.alloc(), rows, "net ok\nwithin 0: 1..5\n")
}

// A not-set edge and an atom, a range or a set of the same number to the same state, one behind the other: the
// crate that this is modelled on drops the later edge.
#[test]
fn of_an_edge_beside_another(rt: HostRuntime) -> Result<(), Fail> {
    let heap = rt.alloc();
    for edges in [
        "edge 5 1 1 0\nedge 8 1 0 1",
        "edge 8 1 0 1\nedge 5 1 1 0",
        "edge 2 1 1 1\nedge 8 1 0 1",
        "edge 8 1 0 1\nedge 2 1 1 1",
        "edge 7 1 0 1\nedge 8 1 0 1",
        "edge 8 1 0 1\nedge 7 1 0 1",
    ] {
        let rows = format!(in heap; "2\nstate 0 7 0\n{edges}\ninterval 1 1\nnet 2\n")?;
        set_of_the_start(&rt, heap, rows.as_str(), "net ok\nwithin 0: 1..2\n")?;
    }
    Ok(())
}

// As many states as a net may have, and a table of all their sets.
#[test]
fn a_table_of_all_states(rt: HostRuntime) -> Result<(), Fail> {
    let heap = rt.alloc();
    let mut text = String::from_str(heap, "net 2\nlookahead table\nrule 0 511\nstate 0 2 1\n")?;
    for _ in 0..510 {
        text.push_str("state 0 1 1\n")?;
    }
    text.push_str("state 0 7 0\n")?;
    for s in 0..510 {
        writeln!(text, "edge 1 {} 0 0", s + 1)?;
    }
    text.push_str("edge 5 511 2 0\nwithin 0\nwithin 510\nwithin 511\nwithin 512\n")?;
    let printed = printed(heap, text.as_str())?;
    assert_eq!(rt;
        printed.as_str(),
        "net ok\nwithin 0: 2\nwithin 510: 2\nwithin 511: -2\nwithin 512: denied 8\n"
    );
    Ok(())
}

// About a net at hand, with leaf lists that have no room.
#[test]
fn about_a_net(rt: HostRuntime) -> Result<(), Fail> {
    let heap = rt.alloc();
    let text = format!(in heap; "{PASS}within 8\nleaf 1 1 0 1 0 1 0\n")?;
    let script = Script::parse(heap, text.as_str())?;
    let answer = NetAnswer::of(&script).ok_or("no answer")?;
    let net = answer.net().ok_or("a sound net was denied")?;
    for kind in [
        LookaheadKind::Walker,
        LookaheadKind::Table,
        LookaheadKind::Cache,
    ] {
        let mut lists = LeafLists::new(&mut [], &mut []);
        let replies = answer_all(heap, net, kind, &mut lists, &[], script.questions())?;
        let smallest = match replies.as_slice() {
            [Reply::Set(Ok(set)), Reply::Leaf(Err(Denial::NoLeafFree))] => set.get_min(),
            _ => None,
        };
        assert_eq!(rt; smallest, Some(2));
    }
    Ok(())
}

//! Texts that are no scripts, and what is said of each.
use script::Script;
use std::alloc::Global;
use std::process::Abort;
use std::test::*;

const TOO_FEW: [(&str, &str); 9] = [
    ("net", "line 1: expected net MAX, one number"),
    (
        "net 1\ncounts 1 2 3",
        "line 2: expected counts RULES STATES EDGES INTERVALS, four numbers",
    ),
    (
        "net 1\nrule 1",
        "line 2: expected rule START STOP, two numbers",
    ),
    (
        "net 1\nstate 1 2",
        "line 2: expected state RULE KIND EDGES, three numbers",
    ),
    (
        "net 1\nedge 1 2 3",
        "line 2: expected edge KIND TARGET A B, four numbers",
    ),
    (
        "net 1\ninterval 1",
        "line 2: expected interval LOW HIGH, two numbers",
    ),
    (
        "net 1\nword 1 0 1 0 0",
        "line 2: expected word TYPE CHANNEL LINE COLUMN START STOP, six numbers",
    ),
    (
        "net 1\nlane 1 0 1",
        "line 2: expected lane TYPE CHANNEL LINE COLUMN, four numbers",
    ),
    ("net 1\nleaves", "line 2: expected leaves N, one number"),
];

const TOO_MANY: [(&str, &str); 9] = [
    ("net 1 2", "line 1: expected net MAX, one number"),
    (
        "counts 1 2 3 4 5",
        "line 1: expected counts RULES STATES EDGES INTERVALS, four numbers",
    ),
    (
        "rule 1 2 3",
        "line 1: expected rule START STOP, two numbers",
    ),
    (
        "state 1 2 3 4",
        "line 1: expected state RULE KIND EDGES, three numbers",
    ),
    (
        "edge 1 2 3 4 5",
        "line 1: expected edge KIND TARGET A B, four numbers",
    ),
    (
        "interval 1 2 3",
        "line 1: expected interval LOW HIGH, two numbers",
    ),
    ("summary 1", "line 1: expected summary, no number"),
    (
        "word 1 0 1 0 0 0 0",
        "line 1: expected word TYPE CHANNEL LINE COLUMN START STOP, six numbers",
    ),
    (
        "lane 1 0 1 0 0 0",
        "line 1: expected lane TYPE CHANNEL LINE COLUMN, four numbers",
    ),
];

const NO_NUMBER: [(&str, &str); 6] = [
    (
        "net 1\n\nrule a 2",
        "line 3: expected rule START STOP, two numbers",
    ),
    (
        "net 1\r\n\r\nrule 1 2x\r\n",
        "line 3: expected rule START STOP, two numbers",
    ),
    (
        "net 1\n# x\nrule 1 -",
        "line 3: expected rule START STOP, two numbers",
    ),
    (
        "net 1\n# x\nrule 1 # 2",
        "line 3: expected rule START STOP, two numbers",
    ),
    (
        "net 1\n\nrule 1 9223372036854775808",
        "line 3: expected numbers of 64 bits, from -9223372036854775808 to 9223372036854775807",
    ),
    (
        "net 1\n\nrule -9223372036854775809 1",
        "line 3: expected numbers of 64 bits, from -9223372036854775808 to 9223372036854775807",
    ),
];

const UNKNOWN: [(&str, &str); 4] = [
    (
        "Net 1",
        "line 1: expected net, counts, rule, state, edge, interval, word, lane, leaves, summary, lookahead, show, within, in-context, expected, recovery, tokens, leaf or picture",
    ),
    (
        "net 1\nnets 1\n",
        "line 2: expected net, counts, rule, state, edge, interval, word, lane, leaves, summary, lookahead, show, within, in-context, expected, recovery, tokens, leaf or picture",
    ),
    (
        "net 1\n-\nrule",
        "line 2: expected net, counts, rule, state, edge, interval, word, lane, leaves, summary, lookahead, show, within, in-context, expected, recovery, tokens, leaf or picture",
    ),
    (
        "net 1\n7 # 8",
        "line 2: expected net, counts, rule, state, edge, interval, word, lane, leaves, summary, lookahead, show, within, in-context, expected, recovery, tokens, leaf or picture",
    ),
];

const NO_NET: [(&str, &str); 3] = [
    (
        "",
        "line 1: expected a line net MAX, and the script has none",
    ),
    (
        "\n",
        "line 2: expected a line net MAX, and the script has none",
    ),
    (
        "rule 1 2\n# net 3\n",
        "line 3: expected a line net MAX, and the script has none",
    ),
];

const NO_QUESTION: [(&str, &str); 13] = [
    ("net 1\nwithin", "line 2: expected within S, one number"),
    ("net 1\nwithin 1 2", "line 2: expected within S, one number"),
    (
        "net 1\nin-context",
        "line 2: expected in-context S C.., one number or more",
    ),
    (
        "net 1\nexpected x",
        "line 2: expected expected S C.., one number or more",
    ),
    (
        "net 1\nrecovery x",
        "line 2: expected recovery C.., one number or more",
    ),
    (
        "net 1\nlookahead",
        "line 2: expected lookahead walker, table or cache",
    ),
    (
        "net 1\nlookahead walker cache",
        "line 2: expected lookahead walker, table or cache",
    ),
    (
        "net 1\nlookahead Table",
        "line 2: expected lookahead walker, table or cache",
    ),
    ("net 1\nshow", "line 2: expected show all or channel0"),
    (
        "net 1\nshow channel1",
        "line 2: expected show all or channel0",
    ),
    ("net 1\ntokens 1", "line 2: expected tokens, no number"),
    // a question comes in time, whatever is wrong with it
    (
        "net 1\nwithin 0\nrecovery 1 99999999999999999999",
        "line 3: expected numbers of 64 bits, from -9223372036854775808 to 9223372036854775807",
    ),
    (
        "net 1\nwithin 0\nwithin x",
        "line 3: expected within S, one number",
    ),
];

const LEAF: &str =
    "line 2: expected leaf KIND DEPTH RULE TYPE INDEX LINE COLUMN, seven numbers within their limits";

const NO_LEAF: [&str; 15] = [
    "leaf 1 1 0 1 0 1",
    "leaf 1 1 0 1 0 1 0 0",
    "leaf 0 1 0 1 0 1 0",
    "leaf 3 1 0 1 0 1 0",
    "leaf 1 0 0 1 0 1 0",
    "leaf 1 65 0 1 0 1 0",
    "leaf 1 1 -1 1 0 1 0",
    "leaf 1 1 64 1 0 1 0",
    "leaf 1 1 0 -2 0 1 0",
    "leaf 1 1 0 256 0 1 0",
    "leaf 1 1 0 1 -2 1 0",
    "leaf 1 1 0 1 65535 1 0",
    "leaf 1 1 0 1 0 -1 0",
    "leaf 1 1 0 1 0 1000001 0",
    "leaf 1 1 0 1 0 1 1000001",
];

// Calls of the parser.
const CALLS: [&str; 10] = [
    "state 1", "expected", "recovery", "enter 1", "leave", "match 1", "wildcard", "sync",
    "report 1", "recover",
];

const OTHER_KIND: [(&str, &str); 2] = [
    (
        "net 1\nword 1 0 1 0 0 0\nlane -1 0 1 0",
        "line 3: expected a token of the kind of those before it",
    ),
    (
        "lane 1 0 1 0\nnet 1\nword -1 0 1 0 0 0",
        "line 3: expected a token of the kind of those before it",
    ),
];

const TOO_LATE: [(&str, &str); 11] = [
    (
        "net 1\nwithin 0\nrule 1",
        "line 3: expected within, in-context, expected, recovery, tokens, leaf or picture: rows and options come before questions",
    ),
    (
        "net 1\nwithin 0\nwithn 1",
        "line 3: expected within, in-context, expected, recovery, tokens, leaf or picture: rows and options come before questions",
    ),
    (
        "net 1\nwithin 0\nrule 0 1",
        "line 3: expected within, in-context, expected, recovery, tokens, leaf or picture: rows and options come before questions",
    ),
    (
        "net 1\nwithin 0\nrecovery 0\nnet 2",
        "line 4: expected within, in-context, expected, recovery, tokens, leaf or picture: rows and options come before questions",
    ),
    (
        "within 0\nnet 1",
        "line 2: expected within, in-context, expected, recovery, tokens, leaf or picture: rows and options come before questions",
    ),
    (
        "net 1\nwithin 0\nlookahead table",
        "line 3: expected within, in-context, expected, recovery, tokens, leaf or picture: rows and options come before questions",
    ),
    (
        "net 1\ntokens\nword -1 0 1 0 0 0",
        "line 3: expected within, in-context, expected, recovery, tokens, leaf or picture: rows and options come before questions",
    ),
    (
        "net 1\nwithin 0\nshow all",
        "line 3: expected within, in-context, expected, recovery, tokens, leaf or picture: rows and options come before questions",
    ),
    (
        "net 1\nwithin 0\nrule 1 99999999999999999999",
        "line 3: expected within, in-context, expected, recovery, tokens, leaf or picture: rows and options come before questions",
    ),
    (
        "net 1\nwithin 0\nleaves -9223372036854775809",
        "line 3: expected within, in-context, expected, recovery, tokens, leaf or picture: rows and options come before questions",
    ),
    (
        "net 1\nwithin 0\nlookahead 99999999999999999999",
        "line 3: expected within, in-context, expected, recovery, tokens, leaf or picture: rows and options come before questions",
    ),
];

// Each text is refused with its message.
fn refused(rt: &impl Abort, heap: Global, cases: &[(&str, &str)]) -> Result<(), Fail> {
    for (text, message) in cases {
        let error = Script::parse(heap, *text)
            .err()
            .ok_or("a malformed script was taken")?;
        assert_eq!(rt; error.to_string(heap)?.as_str(), *message, "{}", *text);
    }
    Ok(())
}

#[test]
fn too_few_numbers(rt: HostRuntime) -> Result<(), Fail> {
    refused(&rt, rt.alloc(), &TOO_FEW)
}

#[test]
fn too_many_numbers(rt: HostRuntime) -> Result<(), Fail> {
    refused(&rt, rt.alloc(), &TOO_MANY)
}

#[test]
fn words_that_are_no_numbers(rt: HostRuntime) -> Result<(), Fail> {
    refused(&rt, rt.alloc(), &NO_NUMBER)
}

// Digits that go on as something else are no number, however many they are.
#[test]
fn digits_that_go_on(rt: HostRuntime) -> Result<(), Fail> {
    let cases = [
        (
            "net 1\nrule 1 99999999999999999999x\n",
            "line 2: expected rule START STOP, two numbers",
        ),
        (
            "net 1\nrule 1 99999999999999999999-\n",
            "line 2: expected rule START STOP, two numbers",
        ),
        (
            "net 1\nrule 1 -99999999999999999999\n",
            "line 2: expected numbers of 64 bits, from -9223372036854775808 to 9223372036854775807",
        ),
    ];
    refused(&rt, rt.alloc(), &cases)
}

#[test]
fn unknown_words(rt: HostRuntime) -> Result<(), Fail> {
    refused(&rt, rt.alloc(), &UNKNOWN)
}

#[test]
fn no_net_line(rt: HostRuntime) -> Result<(), Fail> {
    refused(&rt, rt.alloc(), &NO_NET)
}

#[test]
fn words_that_are_no_question(rt: HostRuntime) -> Result<(), Fail> {
    refused(&rt, rt.alloc(), &NO_QUESTION)
}

#[test]
fn numbers_that_are_no_leaf(rt: HostRuntime) -> Result<(), Fail> {
    let heap = rt.alloc();
    for line in NO_LEAF {
        let text = format!(in heap; "net 1\n{line}")?;
        refused(&rt, heap, &[(text.as_str(), LEAF)])?;
    }
    Ok(())
}

#[test]
fn calls_of_the_parser(rt: HostRuntime) -> Result<(), Fail> {
    let heap = rt.alloc();
    for line in CALLS {
        let text = format!(in heap; "net 1\n{line}")?;
        let message = "line 2: calls of the parser are not known yet";
        refused(&rt, heap, &[(text.as_str(), message)])?;
    }
    Ok(())
}

#[test]
fn tokens_of_both_kinds(rt: HostRuntime) -> Result<(), Fail> {
    refused(&rt, rt.alloc(), &OTHER_KIND)
}

#[test]
fn rows_after_a_question(rt: HostRuntime) -> Result<(), Fail> {
    refused(&rt, rt.alloc(), &TOO_LATE)
}

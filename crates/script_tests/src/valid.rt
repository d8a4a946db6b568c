//! Texts that are scripts, and what they say.
use answers::NetAnswer;
use atn_graph::RuleRow;
use script::{Fault, Script};
use script_lines::{Ask, Directive, Question};
use std::alloc::Global;
use std::test::*;

// What the script says, in one line: largest type, counts, rows.
fn said(heap: Global, script: &Script) -> Result<String, Fail> {
    let t = script.tables().ok_or("no tables")?;
    let k = t.counts;
    let mut out = t.max_token_type.to_string(heap)?;
    write!(
        out,
        " counts {} {} {} {}",
        k.rules, k.states, k.edges, k.intervals
    )?;
    for r in t.rules {
        write!(out, " rule {} {}", r.start, r.stop)?;
    }
    for s in t.states {
        write!(out, " state {} {} {}", s.rule, s.kind, s.edges)?;
    }
    for e in t.edges {
        write!(out, " edge {} {} {} {}", e.kind, e.target, e.a, e.b)?;
    }
    for i in t.intervals {
        write!(out, " interval {} {}", i.a, i.b)?;
    }
    Ok(out)
}

const CASES: [(&str, &str); 8] = [
    // no newline at the end
    ("net 3", "3 counts 0 0 0 0"),
    // a row of each table
    (
        "net 3\nrule 1 2\nstate 3 4 5\nedge 6 7 8 9\ninterval 10 11\n",
        "3 counts 1 1 1 1 rule 1 2 state 3 4 5 edge 6 7 8 9 interval 10 11",
    ),
    // in any order
    (
        "rule 1 2\ninterval 5 6\nrule 3 4\nnet 9\ninterval 7 8\n",
        "9 counts 2 0 0 2 rule 1 2 rule 3 4 interval 5 6 interval 7 8",
    ),
    // counts given
    (
        "net 3\nrule 1 2\ncounts 7 0 -1 5\n",
        "3 counts 7 0 -1 5 rule 1 2",
    ),
    // later options replace earlier ones
    (
        "net 3\ncounts 9 9 9 9\nnet 4\ncounts 1 2 3 4\n",
        "4 counts 1 2 3 4",
    ),
    // comments, blank lines, any white space, both line ends, signs
    (
        "# a comment\r\n\r\n  net \t 7  \r\n   # rule x\r\n#rule\r\n\t\n\u{c}\nrule -1 +02",
        "7 counts 1 0 0 0 rule -1 2",
    ),
    // numbers of 64 bits
    (
        "net 9223372036854775807\nrule -9223372036854775808 2147483648\ninterval -2147483649 -2147483648\n",
        "2147483647 counts 1 0 0 1 rule -2147483648 2147483647 interval -2147483648 -2147483648",
    ),
    ("summary\nnet 2147483647\n", "2147483647 counts 0 0 0 0"),
];

#[test]
fn scripts_say_what_they_say(rt: HostRuntime) -> Result<(), Fail> {
    let heap = rt.alloc();
    for (text, expected) in CASES {
        let script = Script::parse(heap, text)?;
        assert_eq!(rt; said(heap, &script)?.as_str(), expected, "{}", text);
    }
    Ok(())
}

// A net needs a rule and two states; a denied one has no summary.
#[test]
fn an_empty_net_is_denied(rt: HostRuntime) -> Result<(), Fail> {
    let heap = rt.alloc();
    let script = Script::parse(heap, "net 1\nsummary\n")?;
    assert!(rt; script.wants_summary());
    let answer = NetAnswer::of(&script).ok_or("no answer")?;
    assert_eq!(rt; answer.to_string(heap)?.as_str(), "net denied 2\n");
    Ok(())
}

// Line by line, without a text. What comes too late is refused, unless it is applied all the same.
#[test]
fn taken_one_by_one(rt: HostRuntime) -> Result<(), Fail> {
    let heap = rt.alloc();
    let mut script = Script::new(heap);
    let rule = RuleRow { start: 1, stop: 2 };
    assert_eq!(rt; script.take(Directive::Net { max: 3 }), Ok(()));
    assert_eq!(rt; script.take(Directive::Rule(rule)), Ok(()));
    let question = Question {
        words: String::from_str(heap, "picture")?,
        ask: Ask::Picture,
    };
    assert_eq!(rt; script.take(Directive::Asked(question)), Ok(()));
    assert_eq!(rt; script.take(Directive::Rule(rule)), Err(Fault::TooLate));
    assert_eq!(rt; script.apply(Directive::Rule(rule)), Ok(()));
    assert_eq!(rt; script.questions().len(), 1);
    let said = said(heap, &script)?;
    assert_eq!(rt; said.as_str(), "3 counts 2 0 0 0 rule 1 2 rule 1 2");
    Ok(())
}

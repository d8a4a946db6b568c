//! Replays stored scripts, and prints where what is printed for one is not what is stored. In a corpus each
//! script is followed by lines `= ANSWER`; those with questions or a tape are replayed with each lookahead.
//! An example is a file of its own, and so is its output.
#![tactic(auto)]

use answers::ScriptAnswer;
use anyhow::Context;
use script::Script;
use std::alloc::{AllocError, Global};
use std::fs;

const EXAMPLES: [&str; 12] = [
    "lanes",
    "lanes_channel0",
    "leaf_lines",
    "left_recursive",
    "nested",
    "other_rule",
    "pass",
    "pass_sets",
    "short_table",
    "two_ends",
    "words",
    "words_channel0",
];

// All that is printed for one script, or `malformed`.
fn printed(heap: Global, text: &str) -> Result<String, AllocError> {
    let Ok(script) = Script::parse(heap, text) else {
        return String::from_str(heap, "malformed");
    };
    match ScriptAnswer::of(heap, &script)? {
        Some(answer) => answer.to_string(heap),
        None => String::from_str(heap, "no net"),
    }
}

// Whether the text is what is expected; if not, says so.
fn is_same(rt: &HostRuntime, name: &str, found: &str, expected: &str) -> anyhow::Result<bool> {
    let same = found.trim() == expected.trim();
    if !same {
        println!(rt; "{name}:\n{found}\nexpected:\n{expected}")?;
    }
    Ok(same)
}

// Replays the examples.
fn replay_examples(rt: &HostRuntime) -> anyhow::Result<()> {
    let heap = rt.alloc();
    let mut differ = 0u64;
    for name in EXAMPLES {
        let script = fs::read_to_string(rt, format!(in heap; "examples/{name}.txt")?.as_str())?;
        let expected = fs::read_to_string(rt, format!(in heap; "examples/{name}.out")?.as_str())?;
        let found = printed(heap, script.as_str())?;
        if !is_same(rt, name, found.as_str(), expected.as_str())? {
            differ = differ.saturating_add(1);
        }
    }
    println!(rt; "{} examples replayed, {differ} differ", EXAMPLES.len())?;
    Ok(())
}

// Replays the corpus in the file, whose answers are verdicts alone.
fn replay_nets(rt: &HostRuntime, file: &str) -> anyhow::Result<()> {
    let text = fs::read_to_string(rt, file)?;
    let mut differ = 0u64;
    for case in text.as_str().split("---\n") {
        let (script, expected) = case.split_once("= ").context("a script has no answer")?;
        let found = printed(rt.alloc(), script)?;
        let verdict = found.as_str().lines().next().unwrap_or("");
        if !is_same(rt, script, verdict, expected)? {
            differ = differ.saturating_add(1);
        }
    }
    let total = text.as_str().split("---\n").count();
    println!(rt; "{file}: {total} scripts replayed, {differ} differ")?;
    Ok(())
}

// Replays the corpus in the file with that lookahead.
fn replay_answers(rt: &HostRuntime, file: &str, lookahead: &str) -> anyhow::Result<()> {
    let heap = rt.alloc();
    let text = fs::read_to_string(rt, file)?;
    let mut differ = 0u64;
    for case in text.as_str().split("---\n") {
        let (script, expected) = case.split_once("= ").context("a script has no answer")?;
        let script = format!(in heap; "lookahead {lookahead}\n{script}")?;
        let found = printed(heap, script.as_str())?;
        let expected = expected.replace(heap, "\n= ", "\n")?;
        if !is_same(rt, script.as_str(), found.as_str(), expected.as_str())? {
            differ = differ.saturating_add(1);
        }
    }
    let total = text.as_str().split("---\n").count();
    println!(rt; "{file}, lookahead {lookahead}: {total} scripts replayed, {differ} differ")?;
    Ok(())
}

fn main(rt: HostRuntime) -> anyhow::Result<()> {
    replay_examples(&rt)?;
    replay_nets(&rt, "nets.txt")?;
    for file in ["sets.txt", "tapes.txt"] {
        for lookahead in ["walker", "table", "cache"] {
            replay_answers(&rt, file, lookahead)?;
        }
    }
    Ok(())
}

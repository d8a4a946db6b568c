//! Reads a script, from the file that is named or from standard input, and prints its answer.
#![tactic(auto)]

use answers::ScriptAnswer;
use anyhow::{anyhow, bail};
use script::Script;
use std::process::ExitCode;
use std::{env, fs, io};

const USAGE: &str = "usage: replay [FILE]\n       replay --help";

const HELP: &str = "\
Checks the net and the tape of a script and answers its questions. The script is
read from FILE or, without one, from standard input.

A script has one directive a line; docs/FORMAT.md describes the format.

rows and options, before the first question:
  net MAX                                    the largest token type
  counts RULES STATES EDGES INTERVALS        how many rows of each table count
  rule START STOP                            a rule of the net
  state RULE KIND EDGES                      a state of the net
  edge KIND TARGET A B                       an edge of the net
  interval LOW HIGH                          types, for edges that take a set
  word TYPE CHANNEL LINE COLUMN START STOP   a token of the tape, a word
  lane TYPE CHANNEL LINE COLUMN              a token of the tape, an event
  show all|channel0                          which tokens are shown
  leaves N                                   how many leaves have room
  summary                                    print the sizes of the net
  lookahead walker|table|cache               how questions are worked out
questions:
  within S                                   the within-rule set of a state
  in-context S C..                           the set in the context of a chain
  expected S C..                             the expected set
  recovery C..                               the recovery set
  tokens                                     the tokens that are shown
  leaf KIND DEPTH RULE TYPE INDEX LINE COLUMN   add a leaf
  picture                                    the net as Graphviz dot

exit status: 0 answered, 1 malformed or unreadable";

// What the arguments ask for.
#[derive(Drop)]
enum Request {
    Help,
    // the answer of the script in the file, or on standard input
    Answer(Option<String>),
}

fn read_request(rt: &HostRuntime) -> anyhow::Result<Request> {
    let mut file = None;
    for word in env::args(rt)?.skip(1) {
        match word.as_str() {
            "-h" | "--help" => return Ok(Request::Help),
            option if option.starts_with('-') => bail!("unknown option {option}\n{USAGE}"),
            _ if file.is_some() => bail!("more than one file\n{USAGE}"),
            _ => file = Some(word),
        }
    }
    Ok(Request::Answer(file))
}

fn read_text(rt: &HostRuntime, file: Option<String>) -> anyhow::Result<String> {
    let Some(path) = file else {
        return Ok(io::read_to_string(rt.alloc(), rt.stdin())?);
    };
    fs::read_to_string(rt, path.as_str()).map_err(|error| anyhow!("{path}: {error}"))
}

// The exit status: an error of a script is told here, as it may be longer than one of `anyhow`.
fn run(rt: &HostRuntime) -> anyhow::Result<ExitCode> {
    let file = match read_request(rt)? {
        Request::Help => {
            println!(rt; "{USAGE}\n\n{HELP}")?;
            return Ok(ExitCode::SUCCESS);
        }
        Request::Answer(file) => file,
    };
    let text = read_text(rt, file)?;
    let script = match Script::parse(rt.alloc(), text.as_str()) {
        Ok(script) => script,
        Err(error) => {
            rt.eprintln(&error)?;
            return Ok(ExitCode::FAILURE);
        }
    };
    if let Some(answer) = ScriptAnswer::of(rt.alloc(), &script)? {
        print!(rt; "{answer}")?;
    }
    Ok(ExitCode::SUCCESS)
}

fn main(rt: HostRuntime) -> ExitCode {
    match run(&rt) {
        Ok(status) => status,
        Err(error) => {
            let _ = rt.eprintln(&error);
            ExitCode::FAILURE
        }
    }
}

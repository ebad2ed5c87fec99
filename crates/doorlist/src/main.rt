//! `doorlist`: routes over floor plans, from the command line.
//!
//! A thin program: it reads arguments and files, calls the proved crates and prints what they answer.
#![tactic(auto)]

mod answers;
mod comparing;
mod floor;
mod lines;
mod options;
mod problem;
mod question;
mod reading;
mod restrictor;
mod script;
mod show;
mod story;

use crate::answers::{check, list};
use crate::comparing::compare;
use crate::floor::describe;
use crate::options::{Command, Options};
use crate::problem::Problem;
use crate::reading::describe_pattern;
use crate::script::run_script;
use crate::story::tell;
use std::env;
use std::env::Args;
use std::process::ExitCode;

const USAGE: &str = "doorlist | doorlist (plan | list | check | run | compare | pattern) ..";

const PATTERN: &str = "doorlist pattern 'TEXT'";

fn run(rt: &HostRuntime) -> Result<(), Problem> {
    let mut words = env::args(rt)?;
    let _program = words.next();
    let Some(word) = words.next() else {
        return tell(rt);
    };
    if word.as_str() == "pattern" {
        return read_pattern(rt, words);
    }
    let command = word
        .as_str()
        .parse::<Command>()
        .map_err(|misread| misread.or(Problem::Usage(USAGE)))?;
    carry_out(rt, command, words)
}

fn read_pattern(rt: &HostRuntime, mut words: Args) -> Result<(), Problem> {
    match (words.next(), words.next()) {
        (Some(text), None) => describe_pattern(rt, text.as_str()),
        _ => Err(Problem::Usage(PATTERN)),
    }
}

fn carry_out(rt: &HostRuntime, command: Command, mut words: Args) -> Result<(), Problem> {
    let heap = rt.alloc();
    let left = words
        .by_ref()
        .take_while(|word| word.as_str() != "--")
        .collect(heap)?;
    let right: Vec<String> = words.collect(heap)?;
    let options = Options::read(heap, command, left)?;
    match command {
        Command::Compare => compare(rt, options, Options::read(heap, command, right)?),
        _ if !right.is_empty() => Err(Problem::Usage(command.usage())),
        Command::Plan => describe(rt, options),
        Command::List => list(rt, options),
        Command::Check => check(rt, options),
        Command::Run => run_script(rt, options),
    }
}

fn main(rt: HostRuntime) -> ExitCode {
    match run(&rt) {
        Ok(()) => ExitCode::SUCCESS,
        Err(problem) => {
            let _ = eprintln!(rt; "{problem}");
            ExitCode::FAILURE
        }
    }
}

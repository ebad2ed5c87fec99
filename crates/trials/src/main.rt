//! `trials`: the library against a brute-force lister.
//!
//! The lister (`floor`, `kinds`, `tree`, `routes`, `markings`, `lister`, and `reference` for the five calls) is
//! written apart, from the definitions alone: it enumerates the allowed routes, splits them by the pattern's tree,
//! collects the marks and sorts. It shares nothing with the library but the bytes of plans and pattern texts. The
//! program runs the worked examples and an example of every fault through both, and then random floors with random
//! patterns and random calls. Each reply and each buffer is compared, and the program stops at the first difference.
//!
//! `trials [SEED [FLOORS]]`: the same seed gives the same floors.
#![tactic(auto)]

mod bounds;
mod calls;
mod cases;
mod compare;
mod examples;
mod faults;
mod floor;
mod floors;
mod kinds;
mod library;
mod lister;
mod markings;
mod random;
mod reference;
mod report;
mod rounds;
mod routes;
mod scripts;
mod texts;
mod tree;
mod trouble;

use crate::compare::Tally;
use crate::examples::EXAMPLES;
use crate::faults::FAULTS;
use crate::random::Random;
use crate::report::Came;
use crate::rounds::{Outcome, Outcomes, random_case, run_case};
use crate::trouble::Trouble;
use std::process::ExitCode;
use std::{env, io};

const SEED: u64 = 20260;

const FLOORS: u64 = 1000;

fn run_examples(rt: &HostRuntime) -> Result<(), Trouble> {
    for (example, number) in EXAMPLES.iter().zip(1u8..) {
        let came = Came(example.holds(rt.alloc())?);
        println!(rt; "example {number}: {came}")?;
    }
    Ok(())
}

fn run_faults(rt: &HostRuntime) -> Result<(), Trouble> {
    for fault in FAULTS.iter() {
        let number = fault.verdict.number;
        let came = Came(fault.holds(rt.alloc())?);
        println!(rt; "fault {number}: {came}")?;
    }
    Ok(())
}

fn run_floor(
    rt: &HostRuntime,
    seed: u64,
    floor: u64,
    total: &mut Tally,
) -> Result<Outcome, Trouble> {
    let heap = rt.alloc();
    let mut random = Random::new(seed, floor);
    let case = random_case(heap, &mut random)?;
    let outcome = run_case(heap, &case, random, total);
    if outcome.is_err() {
        println!(rt; "first difference: seed {seed}, floor {floor}")?;
        println!(rt; "{case}")?;
    }
    outcome
}

fn run_floors(rt: &HostRuntime, seed: u64, floors: u64) -> Result<(), Trouble> {
    let mut total = Tally::default();
    let mut outcomes = Outcomes::default();
    for floor in 0..floors {
        outcomes.count(run_floor(rt, seed, floor, &mut total)?);
    }
    println!(rt; "seed {seed}: {outcomes}")?;
    println!(rt; "{total}; no difference")?;
    Ok(())
}

fn number_or(word: Option<String>, usual: u64) -> Result<u64, Trouble> {
    match word {
        Some(word) => word.as_str().parse().map_err(|_| Trouble::Usage),
        None => Ok(usual),
    }
}

fn run(rt: &HostRuntime) -> Result<(), Trouble> {
    let mut words = env::args(rt)?;
    let _program = words.next();
    let seed = number_or(words.next(), SEED)?;
    let floors = number_or(words.next(), FLOORS)?;
    run_examples(rt)?;
    run_faults(rt)?;
    run_floors(rt, seed, floors)
}

fn main(rt: HostRuntime) -> ExitCode {
    match run(&rt) {
        Ok(()) => return ExitCode::SUCCESS,
        // nothing more can be printed
        Err(Trouble::Output(_)) => {}
        Err(trouble) => {
            let _ = println!(rt; "{trouble}");
        }
    }
    ExitCode::FAILURE
}

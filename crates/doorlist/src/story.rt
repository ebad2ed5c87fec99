//! What the program does when it is asked nothing: one task after the other on a floor of its own.
use crate::answers::Listing;
use crate::comparing::say_verdict;
use crate::floor::Floor;
use crate::options::Form;
use crate::problem::Problem;
use crate::question::{Ends, Question, Subject};
use crate::reading::describe_pattern;
use crate::restrictor::Restrictor;
use model::Choice;
use pattern::Pattern;
use plan::{FiledPlan, GridPlan, Sheet};

/// A lobby (0), an office (1), a store (2) and a vault (3).
pub const FLOOR: [u8; 26] = [
    4, 5, 0, 0, 0, 2, 0, 4, 0, 5, 0, 0, 1, 1, 1, 2, 1, 2, 3, 2, 4, 2, 0, 3, 3, 2,
];

/// A grid of one row and two columns, as a file.
const PAIR: [u8; 13] = [2, 2, 0, 0, 0, 1, 0, 0, 1, 0, 6, 0, 0];

const TEXT: &str = "badge^A free? pin^B";

/// Prints a floor, a pattern, its routes over the floor, what a shut door changes, and two floors side by side.
pub(crate) fn tell(rt: &HostRuntime) -> Result<(), Problem> {
    println!(rt; "The built-in floor:")?;
    Floor::Filed(FiledPlan::open(&FLOOR)?).describe(rt, None)?;
    println!(rt; "The pattern {TEXT}:")?;
    describe_pattern(rt, TEXT)?;
    tell_refusal(rt)?;
    println!(rt; "The trails of {TEXT} from 0 to 3:")?;
    tell_listing(rt, Sheet::blank(), Choice::All)?;
    println!(rt; "The shortest of them:")?;
    tell_listing(rt, Sheet::blank(), Choice::Shortest)?;
    println!(rt; "Its trails from 0 to 3 with passage 2 shut:")?;
    let mut sheet = Sheet::blank();
    sheet.shut_passage(2);
    tell_listing(rt, sheet, Choice::All)?;
    tell_comparison(rt)
}

fn tell_refusal(rt: &HostRuntime) -> Result<(), Problem> {
    println!(rt; "The pattern badge ^ pin:")?;
    if let Err(fault) = Pattern::read(b"badge ^ pin") {
        println!(rt; "refused: {fault}")?;
    }
    Ok(())
}

fn tell_listing(rt: &HostRuntime, sheet: Sheet, choice: Choice) -> Result<(), Problem> {
    let floor = Floor::Filed(FiledPlan::open(&FLOOR)?);
    let subject = Subject {
        floor,
        sheet,
        rule: Restrictor::Trail,
        text: String::from_str(rt.alloc(), TEXT)?,
    };
    let ends = Ends {
        start: 0,
        target: 3,
        choice,
    };
    let question = Question { subject, ends };
    let tally = Listing {
        rt,
        question: &question,
        form: Form::Lines,
        top: u64::MAX,
    }
    .write()?;
    let answers = tally.answers();
    println!(rt; "answers: {answers}")?;
    Ok(())
}

fn tell_comparison(rt: &HostRuntime) -> Result<(), Problem> {
    println!(rt; "A grid of 1 by 2 and a file of the same floor, from 0 to 1 by free^A*:")?;
    let grid = pair_question(rt, Floor::Grid(GridPlan::new(1, 2)?))?;
    let file = pair_question(rt, Floor::Filed(FiledPlan::open(&PAIR)?))?;
    say_verdict(rt, grid, file)
}

fn pair_question(rt: &HostRuntime, floor: Floor) -> Result<Question, Problem> {
    let subject = Subject {
        floor,
        sheet: Sheet::blank(),
        rule: Restrictor::Trail,
        text: String::from_str(rt.alloc(), "free^A*")?,
    };
    let ends = Ends {
        start: 0,
        target: 1,
        choice: Choice::All,
    };
    Ok(Question { subject, ends })
}

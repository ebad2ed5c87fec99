//! Listings, and single records.
use crate::lines::{Answer, Record};
use crate::options::{Form, Options};
use crate::problem::Problem;
use crate::question::Question;
use crate::restrictor::Visitor;
use crate::script::read_words;
use plan::Plan;
use route::Rule;
use std::fmt;

/// What a listing came to: how many answers, and whether they are all.
#[derive(Clone, Copy)]
pub enum Tally {
    Ended(u64),
    Cut(u64),
}

impl Tally {
    pub(crate) fn answers(self) -> u64 {
        match self {
            Tally::Ended(answers) | Tally::Cut(answers) => answers,
        }
    }
}

impl fmt::Display for Tally {
    fn fmt<W: fmt::Write>(&self, f: &mut fmt::Formatter<W>) -> fmt::Result {
        let answers = self.answers();
        let noun = if answers == 1 { "answer" } else { "answers" };
        match self {
            Tally::Ended(_) => write!(f, "{answers} {noun}, and the list ended"),
            Tally::Cut(_) => write!(f, "{answers} {noun}, and the list was cut at {answers}"),
        }
    }
}

/// Writes the answers to a question, at most so many.
#[derive(Drop)]
pub struct Listing<'a> {
    pub rt: &'a HostRuntime,
    pub question: &'a Question,
    pub form: Form,
    pub top: u64,
}

impl Visitor for Listing<'_> {
    type Out = Tally;

    fn visit<P: Plan + Drop, R: Rule + Drop>(self, plan: P, rule: R) -> Result<Tally, Problem> {
        let mut enquiry = self.question.pose(plan, rule)?;
        let mut buffer = [0u16; 770];
        for answers in 0..self.top {
            let Some(count) = enquiry.next(&mut buffer)? else {
                return Ok(Tally::Ended(answers));
            };
            let record = &buffer[..count.min(770)];
            write_answer(self.rt, enquiry.plan(), record, self.form)?;
        }
        Ok(Tally::Cut(self.top))
    }
}

impl Listing<'_> {
    pub(crate) fn write(self) -> Result<Tally, Problem> {
        self.question.subject.lend(self)
    }
}

fn write_answer<P: Plan>(
    rt: &HostRuntime,
    plan: &P,
    record: &[u16],
    form: Form,
) -> Result<(), Problem> {
    match form {
        Form::Lines => rt.println(Answer { plan, record })?,
        Form::Records => rt.println(Record(record))?,
        Form::Count => {}
    }
    Ok(())
}

/// Lists the answers to the question of the options, and says on standard error what it came to.
pub(crate) fn list(rt: &HostRuntime, mut options: Options) -> Result<(), Problem> {
    let question = options.question(rt)?;
    let (form, top) = (options.form, options.top);
    let question = &question;
    let tally = Listing {
        rt,
        question,
        form,
        top,
    }
    .write()?;
    if let Form::Count = form {
        rt.println(tally.answers())?;
    }
    rt.eprintln(tally)?;
    Ok(())
}

const RECORD: &str = "a record is numbers from 0 to 65535 with spaces between";

/// Says whether the record behind the pattern is one of an answer.
pub(crate) fn check(rt: &HostRuntime, mut options: Options) -> Result<(), Problem> {
    let rule = options.rule()?;
    let ends = options.ends()?;
    let record = options.last_word()?;
    let record = read_words(rt.alloc(), record.as_str()).map_err(|misread| misread.or(
        Problem::Usage(RECORD),
    ))?;
    let subject = options.subject(rt, rule)?;
    let yes = Question { subject, ends }.check(record.as_slice())?;
    rt.println(if yes { "yes" } else { "no" })?;
    Ok(())
}

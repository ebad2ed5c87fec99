//! The library's side: its plans, patterns, rules and enquiries, made from the bytes of a case.
use crate::calls::{Call, Desk, Reply, Verdict};
use crate::cases::{Case, Source};
use crate::compare::Trial;
use crate::lister::Want;
use crate::routes::Restrictor;
use crate::trouble::Trouble;
use enquiry::Enquiry;
use fault::Fault;
use model::Choice;
use pattern::Pattern;
use plan::{Closure, FiledPlan, GridPlan, Plan, Sheet};
use route::{Acyclic, Rule, Simple, Trail};

/// An enquiry of the library at which calls are made.
#[derive(Drop)]
pub struct Library<P: Plan, R: Rule> {
    enquiry: Enquiry<P, R>,
}

impl From<Fault> for Verdict {
    fn from(fault: Fault) -> Verdict {
        Verdict {
            number: fault.number(),
            layer: fault.layer(),
            place: fault.place(),
        }
    }
}

impl From<Fault> for Trouble {
    fn from(fault: Fault) -> Trouble {
        Trouble::Refused(Verdict::from(fault))
    }
}

impl From<()> for Reply {
    fn from(_done: ()) -> Reply {
        Reply::Done
    }
}

impl From<Option<usize>> for Reply {
    fn from(count: Option<usize>) -> Reply {
        match count {
            Some(count) => Reply::Words(count),
            None => Reply::NoneLeft,
        }
    }
}

impl From<bool> for Reply {
    fn from(yes: bool) -> Reply {
        Reply::Says(yes)
    }
}

fn reply<T>(res: Result<T, Fault>) -> Reply
where
    Reply: From<T>,
{
    match res {
        Ok(answer) => Reply::from(answer),
        Err(fault) => Reply::Refused(Verdict::from(fault)),
    }
}

impl From<Want> for Choice {
    fn from(want: Want) -> Choice {
        match want {
            Want::All => Choice::All,
            Want::Shortest => Choice::Shortest,
        }
    }
}

impl<P: Plan, R: Rule> Desk for Library<P, R> {
    fn answer(&mut self, call: &Call<Vec<u16>>, buffer: &mut [u16]) -> Result<Reply, Trouble> {
        Ok(match call {
            Call::Again => reply(self.enquiry.again()),
            Call::Next(_) => reply(self.enquiry.next(buffer)),
            Call::Pose(start, target, want) => {
                reply(self.enquiry.pose(*start, *target, Choice::from(*want)))
            }
            Call::Check(words) => reply(self.enquiry.check(words.as_slice())),
            Call::Resume(words) => reply(self.enquiry.resume(words.as_slice())),
        })
    }
}

// What an enquiry needs beside its plan and rule, and the trial that is run on it.
#[derive(Drop)]
struct Bench<'a> {
    case: &'a Case,
    pattern: Pattern,
    trial: &'a mut Trial,
}

/// Runs a trial on the library's enquiry for the case; refused where the library refuses to make one.
pub(crate) fn run(case: &Case, trial: &mut Trial) -> Result<(), Trouble> {
    let pattern = Pattern::read(case.text.as_slice())?;
    let bench = Bench {
        case,
        pattern,
        trial,
    };
    match &case.source {
        Source::Grid(rows, columns) => bench.run_shut(GridPlan::new(*rows, *columns)?),
        Source::File(bytes) => bench.run_shut(FiledPlan::open(bytes.as_slice())?),
    }
}

fn sheet_of(numbers: &[u8]) -> Sheet {
    let mut sheet = Sheet::blank();
    for number in numbers {
        sheet.shut_passage(*number);
    }
    sheet
}

impl Bench<'_> {
    // The first sheet lies below the second. Each closure is a type of its own, so no loop or recursion makes them.
    fn run_shut<P: Plan + Drop>(self, plan: P) -> Result<(), Trouble> {
        let Some(first) = self.case.sheets.get(0) else {
            return self.run_ruled(plan);
        };
        let once = Closure {
            below: plan,
            sheet: sheet_of(first.as_slice()),
        };
        let Some(second) = self.case.sheets.get(1) else {
            return self.run_ruled(once);
        };
        let twice = Closure {
            below: once,
            sheet: sheet_of(second.as_slice()),
        };
        self.run_ruled(twice)
    }

    // The library's rules are types, so here a case's rule picks one.
    fn run_ruled<P: Plan + Drop>(self, plan: P) -> Result<(), Trouble> {
        match self.case.rule {
            Restrictor::Trail => self.run_enquiry(plan, Trail),
            Restrictor::Acyclic => self.run_enquiry(plan, Acyclic),
            Restrictor::Simple => self.run_enquiry(plan, Simple),
        }
    }

    // The trial poses its own questions, so none is posed here.
    fn run_enquiry<P: Plan + Drop, R: Rule + Drop>(self, plan: P, rule: R) -> Result<(), Trouble> {
        let mut library = Library {
            enquiry: Enquiry::new(plan, self.pattern, rule),
        };
        self.trial.run(&mut library)
    }
}

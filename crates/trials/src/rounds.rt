//! Trials of one random floor each.
use crate::calls::Verdict;
use crate::cases::Case;
use crate::compare::{Tally, Task, Trial};
use crate::faults::refusal;
use crate::floors::{random_sheets, random_source};
use crate::library::run;
use crate::random::Random;
use crate::reference::Reference;
use crate::routes::Restrictor;
use crate::texts::random_text;
use crate::trouble::Trouble;
use pattern::Pattern;
use std::alloc::Global;

/// How a trial came out where nothing differs.
#[derive(Clone, Copy)]
pub enum Outcome {
    Agreed,
    TextRefused,
    TooLarge,
}

/// How many trials came out how.
#[derive(Clone, Copy, Default)]
pub struct Outcomes {
    pub floors: u64,
    pub refused: u64,
    pub large: u64,
}

impl Outcomes {
    pub(crate) fn count(&mut self, outcome: Outcome) {
        self.floors = self.floors.saturating_add(1);
        match outcome {
            Outcome::Agreed => {}
            Outcome::TextRefused => self.refused = self.refused.saturating_add(1),
            Outcome::TooLarge => self.large = self.large.saturating_add(1),
        }
    }
}

/// The floor, text and rule that these random numbers give; each rule has one chance in three.
pub(crate) fn random_case(heap: Global, random: &mut Random) -> Result<Case, Trouble> {
    let (source, kinds) = random_source(heap, random)?;
    let text = random_text(heap, random, kinds)?;
    let rule = match random.below(3) {
        0 => Restrictor::Trail,
        1 => Restrictor::Acyclic,
        _ => Restrictor::Simple,
    };
    let mut case = Case {
        source,
        sheets: Vec::new(heap),
        text,
        rule,
    };
    let floor = case.floor(heap)?;
    case.sheets = random_sheets(heap, random, &floor)?;
    Ok(case)
}

/// Runs a script on lister and library, and adds up what was compared.
pub(crate) fn run_case(
    heap: Global,
    case: &Case,
    random: Random,
    total: &mut Tally,
) -> Result<Outcome, Trouble> {
    let lister = match case.lister(heap) {
        Ok(lister) => lister,
        Err(Trouble::Refused(own)) => return same_refusal(case, own),
        Err(trouble) => return Err(trouble),
    };
    let mut trial = Trial::new(heap, Reference::new(lister), random, Task::Script);
    let end = run(case, &mut trial);
    *total += trial.tally;
    match end {
        Ok(()) => Ok(Outcome::Agreed),
        Err(Trouble::Refused(got)) => Err(Trouble::Unlike {
            expected: None,
            got: Some(got),
        }),
        Err(Trouble::Large) => Ok(Outcome::TooLarge),
        Err(trouble) => Err(trouble),
    }
}

fn same_refusal(case: &Case, own: Verdict) -> Result<Outcome, Trouble> {
    let expected = Some(own);
    let got = refusal(Pattern::read(case.text.as_slice()));
    if got == expected {
        return Ok(Outcome::TextRefused);
    }
    Err(Trouble::Unlike { expected, got })
}

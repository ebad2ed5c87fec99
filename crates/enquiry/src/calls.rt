//! The enquiry, and the calls that move it: pose, next and again.
ghost use Rattle.std.specs.Prelude.{◌≡◌, ◌<◌, ◌≤◌, None};
ghost use Rattle.model.specs.Patterns.{Tree};
ghost use Rattle.model.specs.Calls.{Pose, Next, Again};
ghost use Rattle.automaton.specs.Tables.{Recognises};
ghost use Rattle.enquiry.specs.Promises.{asked, Kept, Promised, Least, IfRefused, IfAccepted, IsAtFront, LedForward};

use crate::written::write_record;
use fault::{EnquiryFault, Fault};
use model::Choice;
use pattern::Pattern;
use plan::Plan;
use route::{Route, Rule, length_limit};
use search::{Cursor, Progress, Search};

/// A plan, a pattern and a rule, with the question posed, if one is, and where its listing stands.
// What it keeps is a clause and no ghost field: `Kept` gives an answer where there is one, so it is no proposition. The
// clauses `same` and `refused` of its calls tell what was from what is, which no field can.
#[derive(Drop)]
pub struct Enquiry<P: Plan, R: Rule> {
    pub(crate) search: Search<P, R>,
    pub(crate) cursor: Option<Cursor>,
}

impl<P: Plan, R: Rule> Enquiry<P, R> {
    /// A new enquiry: no question is posed yet.
    pub fn new(plan: P, pattern: Pattern, rule: R) -> Self
        ensures kept { (t : Tree) → Recognises pattern.automaton t → Kept (asked (P.Plan.meaning plan) (R.Rule.meaning rule) t) pattern.automaton result.cursor }
        ensures unposed { result.cursor ≡ None }
        ensures holds { (result.search.plan ≡ plan) × ((result.search.rule ≡ rule) × (result.search.automaton ≡ pattern.automaton)) }
    {
        let automaton = pattern.automaton;
        Enquiry {
            search: Search {
                plan,
                rule,
                automaton,
            },
            cursor: None,
        }
    }

    /// The plan that the enquiry holds.
    pub fn plan(&self) -> &P
        ensures { result.now ≡ self.now.search.plan }
    {
        &self.search.plan
    }

    /// Poses a question, and stands before its first answer.
    pub fn pose(&mut self, start: u8, target: u8, choice: Choice) -> Result<(), Fault>
        ensures relation { Promised P.Plan.meaning R.Rule.meaning self.old self.new (λ n s u. Pose n s start target choice result u) }
        ensures same { self.new.search ≡ self.old.search }
        ensures refused { IfRefused result (self.new ≡ self.old) }
    {
        let zones = self.search.plan.zones();
        if start >= zones {
            return Err(Fault::Enquiry(EnquiryFault::Start(start as usize)));
        }
        if target >= zones {
            return Err(Fault::Enquiry(EnquiryFault::Target(target as usize)));
        }
        let most = match choice {
            Choice::All => length_limit(&self.search.rule),
            Choice::Shortest => self.least_length(start, target),
        };
        self.cursor = Some(Cursor {
            choice,
            target,
            most,
            progress: Progress::AtFront(start),
        });
        Ok(())
    }

    // The least length of an allowed output, by searches to growing lengths; the rule's limit where there is none.
    fn least_length(&self, start: u8, target: u8) -> usize
        ensures least { (t : Tree) → Recognises self.now.search.automaton t → start < (P.Plan.meaning self.now.search.plan).zones → Least (asked (P.Plan.meaning self.now.search.plan) (R.Rule.meaning self.now.search.rule) t) start target result }
        ensures short { result ≤ 256 }
    {
        let limit = length_limit(&self.search.rule);
        for most in 0..limit {
            let mut cursor = Cursor {
                choice: Choice::Shortest,
                target,
                most,
                progress: Progress::AtFront(start),
            };
            if self.search.advance(&mut cursor) {
                return most;
            }
        }
        limit
    }

    /// Writes the record of the following answer to the front of the buffer, and gives its count of words; or says
    /// none left, and writes nothing. The buffer is lent, since there is no heap here.
    pub fn next(&mut self, buffer: &mut [u16]) -> Result<Option<usize>, Fault>
        ensures relation { Promised P.Plan.meaning R.Rule.meaning self.old self.new (λ n s u. Next n s buffer.old result buffer.new u) }
        ensures same { self.new.search ≡ self.old.search }
        ensures refused { IfRefused result ((self.new ≡ self.old) × (buffer.new ≡ buffer.old)) }
        ensures forward { LedForward P.Plan.meaning R.Rule.meaning self.old result self.new }
    {
        let Some(cursor) = &mut self.cursor else {
            return Err(Fault::Enquiry(EnquiryFault::Unposed(0)));
        };
        if buffer.len() < 770 {
            return Err(Fault::Enquiry(EnquiryFault::Buffer(buffer.len())));
        }
        let mut route = Route::new(cursor.progress.start());
        if !self.search.arrive(cursor, &mut route) {
            return Ok(None);
        }
        let count = write_record(&route, buffer);
        cursor.progress = Progress::Behind(route);
        Ok(Some(count))
    }

    /// Stands before the first answer again.
    pub fn again(&mut self) -> Result<(), Fault>
        ensures relation { Promised P.Plan.meaning R.Rule.meaning self.old self.new (λ n s u. Again n s result u) }
        ensures same { self.new.search ≡ self.old.search }
        ensures refused { IfRefused result (self.new ≡ self.old) }
        ensures front { IfAccepted result (IsAtFront self.new.cursor) }
    {
        let Some(cursor) = &self.cursor else {
            return Err(Fault::Enquiry(EnquiryFault::Unposed(0)));
        };
        let front = Progress::AtFront(cursor.progress.start());
        self.cursor = Some(cursor.with_progress(front));
        Ok(())
    }
}

//! What is asked of a floor.
use crate::floor::Floor;
use crate::problem::Problem;
use crate::restrictor::{Restrictor, Visitor};
use enquiry::Enquiry;
use fault::Fault;
use listing::{Call, Query, Reply, replay, same_listing};
use model::Choice;
use pattern::Pattern;
use plan::{Plan, Sheet};
use route::Rule;
use std::alloc::Global;

/// What questions are about: a floor, what is shut on it, a rule and a pattern text.
#[derive(Drop)]
pub struct Subject {
    pub floor: Floor,
    pub sheet: Sheet,
    pub rule: Restrictor,
    pub text: String,
}

/// Where routes start and end, and which of them are wanted.
#[derive(Clone, Copy)]
pub struct Ends {
    pub start: u8,
    pub target: u8,
    pub choice: Choice,
}

/// A question in full.
#[derive(Drop)]
pub struct Question {
    pub subject: Subject,
    pub ends: Ends,
}

impl Subject {
    /// Does it with the subject's plan and rule.
    pub(crate) fn lend<V: Visitor>(&self, visitor: V) -> Result<V::Out, Problem> {
        self.floor.lend(self.sheet, self.rule, visitor)
    }

    /// What the calls reply, on one enquiry.
    pub(crate) fn replies(&self, heap: Global, calls: Vec<Call>) -> Result<Vec<Reply>, Problem> {
        let text = self.text.as_bytes();
        self.lend(Replies { text, heap, calls })
    }
}

impl Question {
    /// An enquiry before the first answer, over the subject's plan and under its rule.
    pub(crate) fn pose<P: Plan + Drop, R: Rule + Drop>(
        &self,
        plan: P,
        rule: R,
    ) -> Result<Enquiry<P, R>, Fault> {
        let pattern = Pattern::read(self.subject.text.as_bytes())?;
        let mut enquiry = Enquiry::new(plan, pattern, rule);
        enquiry.pose(self.ends.start, self.ends.target, self.ends.choice)?;
        Ok(enquiry)
    }

    /// Whether the record is one of an answer.
    pub(crate) fn check(&self, record: &[u16]) -> Result<bool, Problem> {
        let question = self;
        self.subject.lend(Check { question, record })
    }

    /// Whether the other question has the same answers.
    pub(crate) fn is_answered_as(self, other: Question) -> Result<bool, Problem> {
        let floor = self.subject.floor;
        let sheet = self.subject.sheet;
        let rule = self.subject.rule;
        floor.lend(sheet, rule, Compare { one: self, other })
    }

    fn query<P: Plan, R: Rule>(&self, plan: P, rule: R) -> Query<'_, P, R> {
        Query {
            plan,
            text: self.subject.text.as_bytes(),
            rule,
            start: self.ends.start,
            target: self.ends.target,
            choice: self.ends.choice,
        }
    }
}

#[derive(Drop)]
struct Replies<'a> {
    text: &'a [u8],
    heap: Global,
    calls: Vec<Call>,
}

impl Visitor for Replies<'_> {
    type Out = Vec<Reply>;

    fn visit<P: Plan + Drop, R: Rule + Drop>(
        self,
        plan: P,
        rule: R,
    ) -> Result<Vec<Reply>, Problem> {
        let Replies { text, heap, calls } = self;
        let replies = replay(heap, plan, text, rule, calls)?;
        Ok(replies)
    }
}

#[derive(Drop)]
struct Check<'a> {
    question: &'a Question,
    record: &'a [u16],
}

impl Visitor for Check<'_> {
    type Out = bool;

    fn visit<P: Plan + Drop, R: Rule + Drop>(self, plan: P, rule: R) -> Result<bool, Problem> {
        let mut enquiry = self.question.pose(plan, rule)?;
        let yes = enquiry.check(self.record)?;
        Ok(yes)
    }
}

#[derive(Drop)]
struct Compare {
    one: Question,
    other: Question,
}

impl Visitor for Compare {
    type Out = bool;

    fn visit<P: Plan + Drop, R: Rule + Drop>(self, plan: P, rule: R) -> Result<bool, Problem> {
        let Compare { one, other } = self;
        let floor = other.subject.floor;
        let sheet = other.subject.sheet;
        let restrictor = other.subject.rule;
        let rest = CompareWith {
            plan,
            rule,
            one,
            other,
        };
        floor.lend(sheet, restrictor, rest)
    }
}

// The same with the first question's plan and rule known.
#[derive(Drop)]
struct CompareWith<P: Plan, R: Rule> {
    plan: P,
    rule: R,
    one: Question,
    other: Question,
}

impl<P: Plan + Drop, R: Rule + Drop> Visitor for CompareWith<P, R> {
    type Out = bool;

    fn visit<Q: Plan + Drop, S: Rule + Drop>(self, second: Q, by: S) -> Result<bool, Problem> {
        let CompareWith {
            plan,
            rule,
            one,
            other,
        } = self;
        let same = same_listing(one.query(plan, rule), other.query(second, by))?;
        Ok(same)
    }
}

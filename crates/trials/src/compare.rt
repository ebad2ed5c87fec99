//! One trial: calls on a desk, each compared with what the reference answers.
use crate::calls::{Call, Desk, Difference, Reply};
use crate::lister::{Question, Want};
use crate::random::Random;
use crate::reference::Reference;
use crate::trouble::Trouble;
use std::alloc::Global;
use std::ops::AddAssign;

/// What was compared.
#[derive(Clone, Copy, Default)]
pub struct Tally {
    pub calls: u64,
    pub answers: u64,
    pub refusals: u64,
    pub listings: u64,
    pub empty: u64,
}

impl AddAssign for Tally {
    fn add_assign(&mut self, other: Tally) {
        self.calls = self.calls.saturating_add(other.calls);
        self.answers = self.answers.saturating_add(other.answers);
        self.refusals = self.refusals.saturating_add(other.refusals);
        self.listings = self.listings.saturating_add(other.listings);
        self.empty = self.empty.saturating_add(other.empty);
    }
}

impl Tally {
    // One call with its reply.
    fn of_call(reply: Reply) -> Tally {
        Tally {
            calls: 1,
            answers: u64::from(matches!(reply, Reply::Words(_))),
            refusals: u64::from(matches!(reply, Reply::Refused(_))),
            listings: 0,
            empty: 0,
        }
    }

    // One full listing.
    fn of_listing(is_empty: bool) -> Tally {
        Tally {
            calls: 0,
            answers: 0,
            refusals: 0,
            listings: 1,
            empty: u64::from(is_empty),
        }
    }
}

/// What a trial asks: a script of random calls, one listing, or these calls.
// no closure, since a desk has as many types as there are plans and rules
#[derive(Clone, Copy)]
pub enum Task {
    Script,
    Listing(Question),
    Calls(&'static [Call<&'static [u16]>]),
}

/// A reference, and what is asked of it and of a desk.
#[derive(Drop)]
pub struct Trial {
    pub heap: Global,
    pub reference: Reference,
    pub random: Random,
    pub task: Task,
    pub tally: Tally,
    pub last: Option<Reply>,
}

impl Trial {
    /// A trial that has asked nothing yet.
    pub(crate) fn new(heap: Global, reference: Reference, random: Random, task: Task) -> Trial {
        Trial {
            heap,
            reference,
            random,
            task,
            tally: Tally::default(),
            last: None,
        }
    }

    /// Asks everything, and stops at the first difference.
    pub(crate) fn run<D: Desk>(&mut self, desk: &mut D) -> Result<(), Trouble> {
        match self.task {
            Task::Script => self.script(desk),
            Task::Listing(question) => {
                let Question {
                    start,
                    target,
                    want,
                } = question;
                self.compare(desk, Call::Pose(start, target, want))?;
                self.drain(desk)
            }
            Task::Calls(calls) => self.calls(desk, calls),
        }
    }

    fn calls<D: Desk>(
        &mut self,
        desk: &mut D,
        calls: &'static [Call<&'static [u16]>],
    ) -> Result<(), Trouble> {
        for call in calls {
            self.compare(desk, call.owned(self.heap)?)?;
        }
        Ok(())
    }

    // Calls before a question, then a few questions, each listed to its end and then called at random.
    fn script<D: Desk>(&mut self, desk: &mut D) -> Result<(), Trouble> {
        self.random_calls(desk, 4)?;
        for _ in 0..1 + self.random.below(3) {
            let pose = self.random_pose(0);
            self.compare(desk, pose)?;
            self.drain(desk)?;
            let count = self.random.below(30);
            self.random_calls(desk, count)?;
        }
        Ok(())
    }

    fn random_calls<D: Desk>(&mut self, desk: &mut D, count: u8) -> Result<(), Trouble> {
        for _ in 0..count {
            let call = self.random_call()?;
            self.compare(desk, call)?;
        }
        Ok(())
    }

    // The full listing, now and then with a call between that changes nothing.
    fn drain<D: Desk>(&mut self, desk: &mut D) -> Result<(), Trouble> {
        for _ in 0..=self.reference.lines().len() {
            if self.random.chance(5) {
                let aside = self.random_aside()?;
                self.compare(desk, aside)?;
            }
            self.compare(desk, Call::Next(770))?;
        }
        self.tally += Tally::of_listing(self.reference.lines().is_empty());
        Ok(())
    }

    fn compare<D: Desk>(&mut self, desk: &mut D, call: Call<Vec<u16>>) -> Result<(), Trouble> {
        let filling = self.random.word();
        let expected = call.ask(self.heap, &mut self.reference, filling)?;
        let got = call.ask(self.heap, desk, filling)?;
        self.tally += Tally::of_call(expected.reply);
        self.last = Some(expected.reply);
        if expected == got {
            return Ok(());
        }
        Err(Trouble::Different(Difference {
            question: self.reference.question(),
            number: self.tally.calls,
            call,
            expected,
            got,
        }))
    }
}

//! A question put in full.
ghost use Rattle.std.specs.Prelude.{◌≡◌, MatchResult};
ghost use Rattle.listing.specs.Queries.{Opened, RefusedFor};
ghost use Rattle.listing.specs.Puts.{put};

use enquiry::Enquiry;
use fault::Fault;
use model::Choice;
use pattern::Pattern;
use plan::Plan;
use route::Rule;

/// A plan, a pattern text, a rule, ends and choice.
#[derive(Drop)]
pub struct Query<'a, P: Plan, R: Rule> {
    pub plan: P,
    pub text: &'a [u8],
    pub rule: R,
    pub start: u8,
    pub target: u8,
    pub choice: Choice,
}

impl<'a, P: Plan + Drop, R: Rule + Drop> Query<'a, P, R> {
    /// An enquiry before the first answer of the question, or the question's first fault.
    pub(crate) fn open(self) -> Result<Enquiry<P, R>, Fault>
        ensures { MatchResult result (λ e. (e.search.plan ≡ self.entry.plan) × (e.search.rule ≡ self.entry.rule) × Opened (put P.Plan.meaning R.Rule.meaning self.entry) e.search.automaton e.cursor) (RefusedFor (put P.Plan.meaning R.Rule.meaning self.entry)) }
    {
        let Query {
            plan,
            text,
            rule,
            start,
            target,
            choice,
        } = self;
        let pattern = Pattern::read(text)?;
        let mut enquiry = Enquiry::new(plan, pattern, rule);
        enquiry.pose(start, target, choice)?;
        Ok(enquiry)
    }
}

//! What every passing rule promises.
ghost use Rattle.std.specs.Prelude.{◌≡◌, ℕ};
ghost use Rattle.model.specs.Rules.{RuleMeaning, KeepsLaws};
ghost use Rattle.route.specs.Reading.{route_of};
ghost use Rattle.route.specs.Limits.{limit, RoutesAreShort};

use crate::Route;

/// A passing rule: told a route, one more passage and the zone that it reaches, it says whether that step
/// may be added.
pub trait Rule {
    /// The greatest length of a route that the rule allows.
    const LONGEST: usize;

    ghost meaning: { Self → RuleMeaning };

    /// The greatest length again, as a question, since the rules of one type may differ in it: trail, acyclic
    /// and simple answer `Self::LONGEST`.
    fn greatest(&self) -> usize
        ensures { result ≡ (meaning self.now).greatest };

    /// Whether the route may go on by the passage into the zone.
    fn may_add(&self, route: &Route, passage: u8, zone: u8) -> bool
        ensures { result ≡ (meaning self.now).permits (route_of route.now) passage zone };

    ghost keeps: { (x : Self) → KeepsLaws (meaning x) };
}

/// The smaller of the length that the rule states and 256. No allowed route of a plan is longer
/// (`routes_are_short`).
pub fn length_limit<R: Rule>(rule: &R) -> usize
    ensures { result ≡ limit (R.Rule.meaning rule.now) }
{
    rule.greatest().min(256)
}

/// A theorem: no route of a plan that a lawful rule allows is longer than the rule states, or than 256, since
/// no passage repeats.
pub fn routes_are_short()
    ensures { RoutesAreShort }
{}

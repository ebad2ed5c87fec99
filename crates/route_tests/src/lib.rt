//! Passing rules written outside crate `route`, and examples of the three that it has.
//!
//! `Nowhere` and `LiftsEarly` show that a rule of one's own needs no more than a meaning (`specs/Own.antt`), the two
//! laws and the two methods.
#![tactic(auto)]

ghost use Rattle.std.specs.Prelude.{◌≡◌};
ghost use Rattle.route_tests.specs.Own.{nowhere, lifts_early};
ghost use Rattle.route_tests.specs.Laws.{nowhere_keeps, lifts_early_keeps};

use route::{Route, Rule, Trail};

#[cfg(test)]
mod tests;

/// A rule that allows no step.
#[derive(Clone, Copy)]
pub struct Nowhere;

impl Rule for Nowhere {
    const LONGEST: usize = 0;

    ghost meaning = { λ _. nowhere };

    ghost keeps = { λ x. nowhere_keeps };

    fn greatest(&self) -> usize {
        Self::LONGEST
    }

    fn may_add(&self, _route: &Route, _passage: u8, _zone: u8) -> bool {
        false
    }
}

/// A trail that does not enter the zones 5 and 6, those of the lifts, after its third step.
#[derive(Clone, Copy)]
pub struct LiftsEarly;

impl Rule for LiftsEarly {
    const LONGEST: usize = 1000;

    ghost meaning = { λ _. lifts_early };

    ghost keeps = { λ x. lifts_early_keeps };

    fn greatest(&self) -> usize {
        Self::LONGEST
    }

    fn may_add(&self, route: &Route, passage: u8, zone: u8) -> bool {
        let early = route.length() < 3;
        let lift = zone == 5 || zone == 6;
        Trail.may_add(route, passage, zone) && (early || !lift)
    }
}

//! The three rules that restrict routes: trail, acyclic and simple.
ghost use Rattle.std.specs.Prelude.{◌≡◌, ℕ};
ghost use Rattle.model.specs.Rules.{trail, acyclic, simple};
ghost use Rattle.model.proofs.RuleLaws.{restrictors};

use crate::Route;
use crate::passing::Rule;

// Each rule answers `greatest` itself: a default would have to be tied to the rule's meaning.

/// No passage twice.
#[derive(Clone, Copy)]
pub struct Trail;

impl Rule for Trail {
    const LONGEST: usize = 256;

    ghost meaning = { λ _. trail };

    ghost keeps = { λ x. restrictors.trail_keeps };

    fn greatest(&self) -> usize {
        Self::LONGEST
    }

    fn may_add(&self, route: &Route, passage: u8, _zone: u8) -> bool {
        !route.uses(passage)
    }
}

/// No zone twice, the start included.
#[derive(Clone, Copy)]
pub struct Acyclic;

impl Rule for Acyclic {
    const LONGEST: usize = 63;

    ghost meaning = { λ _. acyclic };

    ghost keeps = { λ x. restrictors.acyclic_keeps };

    fn greatest(&self) -> usize {
        Self::LONGEST
    }

    fn may_add(&self, route: &Route, _passage: u8, zone: u8) -> bool {
        !(zone == route.start || route.reaches(zone))
    }
}

/// No zone twice, but a route may end where it starts.
#[derive(Clone, Copy)]
pub struct Simple;

impl Rule for Simple {
    const LONGEST: usize = 64;

    ghost meaning = { λ _. simple };

    ghost keeps = { λ x. restrictors.simple_keeps };

    fn greatest(&self) -> usize {
        Self::LONGEST
    }

    fn may_add(&self, route: &Route, _passage: u8, zone: u8) -> bool {
        !route.reaches(zone) && route.is_open()
    }
}

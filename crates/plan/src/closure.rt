//! A plan with passages shut.
ghost use Rattle.std.specs.Prelude.{◌≡◌, ℕ, ◌<◌, ◌≤◌};
ghost use Rattle.model.specs.Plans.{PlanMeaning, triple, LeastLeaving};
ghost use Rattle.plan.specs.Shut.{shut, without};

use crate::questions::Plan;
use crate::sheet::Sheet;

/// Any plan, another closure included, without the passages that the sheet shuts.
#[derive(Drop)]
pub struct Closure<P: Plan> {
    pub below: P,
    pub sheet: Sheet,
}

impl<P: Plan> Plan for Closure<P> {
    ghost meaning = { λ s. without (P.Plan.meaning s.below) (shut s.sheet.bytes) };

    fn zones(&self) -> u8 {
        self.below.zones()
    }

    fn passage(&self, number: usize) -> Option<(u8, u8, u8)> {
        if number >= 256 || self.sheet.is_shut(number as u8) {
            return None;
        }
        self.below.passage(number)
    }

    fn leaving(&self, zone: u8, from: usize) -> Option<u8> {
        // a loop: `find` asks for an end, and `successors` has none that is known
        let mut next = from;
        while let Some(found) = self.below.leaving(zone, next) {
            if !self.sheet.is_shut(found) {
                return Some(found);
            }
            next = found as usize + 1;
        }
        None
    }
}

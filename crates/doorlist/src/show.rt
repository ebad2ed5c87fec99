//! Plans as lines of text.
ghost use Rattle.std.specs.Prelude.{◌-◌};
ghost use Rattle.std.specs.Iterator.{at_most};

use model::Label;
use plan::{Closure, Plan};
use std::io;

/// The passages that leave a zone, in the order of their numbers.
#[derive(Drop)]
struct Leaving<'a, P: Plan> {
    plan: &'a P,
    zone: u8,
    next: usize,
}

impl<P: Plan> Iterator for Leaving<'_, P> {
    type Item = u8;

    ghost remaining = { λ s. at_most (256 - s.next) };

    fn next(&mut self) -> Option<u8> {
        let number = self.plan.leaving(self.zone, self.next)?;
        self.next = number as usize + 1;
        Some(number)
    }
}

/// Each zone with the passages that leave it.
pub(crate) fn show_plan<P: Plan>(rt: &HostRuntime, plan: &P) -> io::Result<()> {
    for zone in 0..plan.zones() {
        println!(rt; "zone {zone}")?;
        show_leaving(rt, plan, zone)?;
    }
    Ok(())
}

fn show_leaving<P: Plan>(rt: &HostRuntime, plan: &P, zone: u8) -> io::Result<()> {
    for number in (Leaving {
        plan,
        zone,
        next: 0,
    }) {
        if let Some((_, destination, kind)) = plan.passage(number as usize) {
            let kind = Label::Kind(kind);
            println!(rt; "  {number} {kind} to {destination}")?;
        }
    }
    Ok(())
}

/// The passages that are shut.
pub(crate) fn show_shut<P: Plan>(rt: &HostRuntime, plan: &Closure<P>) -> io::Result<()> {
    for number in (0..=255u8).filter(|number| plan.sheet.is_shut(*number)) {
        if let Some((origin, destination, kind)) = plan.below.passage(number as usize) {
            let kind = Label::Kind(kind);
            println!(rt; "shut: {number} {kind} from {origin} to {destination}")?;
        }
    }
    Ok(())
}

/// How many passages are shut.
pub(crate) fn count_shut<P: Plan>(plan: &Closure<P>) -> usize {
    (0..256usize)
        .filter(|number| plan.below.passage(*number).is_some() && plan.passage(*number).is_none())
        .count()
}

/// How many passages the plan has.
pub(crate) fn count_passages<P: Plan>(plan: &P) -> usize {
    (0..256usize)
        .filter(|number| plan.passage(*number).is_some())
        .count()
}

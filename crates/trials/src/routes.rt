//! Every allowed route from a zone.
use crate::bounds::MOST_ROUTES;
use crate::floor::{Floor, Passage};
use crate::trouble::Trouble;
use std::alloc::Global;
use std::collections::VecDeque;

/// Which routes are allowed.
// The library's rules are types; the lister, written apart, has a list of its own.
#[derive(Clone, Copy, Debug)]
pub enum Restrictor {
    Trail,
    Acyclic,
    Simple,
}

/// A route: where it starts, and its passages in turn.
#[derive(Drop)]
pub struct Route {
    pub start: u8,
    pub steps: Vec<Passage>,
}

impl Route {
    /// The zone in which the route ends.
    pub(crate) fn end(&self) -> u8 {
        self.zone_after(self.steps.len())
    }

    // The zone in which the route stands after so many passages.
    fn zone_after(&self, count: usize) -> u8 {
        match self.steps.get(..count) {
            Some([.., passage]) => passage.destination,
            _ => self.start,
        }
    }

    // Two places of the route, the first before the second, that may not both be there: places are passages
    // for a trail and zones for the others.
    fn clash(&self, rule: Restrictor, first: usize, second: usize) -> bool {
        let same_zone = self.zone_after(first) == self.zone_after(second);
        match rule {
            Restrictor::Trail => match (self.steps.get(first), self.steps.get(second)) {
                (Some(one), Some(other)) => one.number == other.number,
                _ => false,
            },
            Restrictor::Acyclic => same_zone,
            Restrictor::Simple => same_zone && !(first == 0 && second == self.steps.len()),
        }
    }

    /// Whether the route keeps to the rule: a trail repeats no passage, an acyclic route no zone, and a simple
    /// one no zone but that its last may be its first.
    pub(crate) fn keeps(&self, rule: Restrictor) -> bool {
        (0..=self.steps.len()).all(|second| (0..second).all(|first| !self.clash(
            rule, first, second,
        )))
    }

    // The route with one passage more.
    fn longer(&self, passage: Passage) -> Result<Route, Trouble> {
        let mut steps = self.steps.clone()?;
        steps.push(passage)?;
        Ok(Route {
            start: self.start,
            steps,
        })
    }
}

/// Every allowed route from the start, shorter before longer. Each is an allowed one with one passage more.
pub(crate) fn routes(
    heap: Global,
    floor: &Floor,
    rule: Restrictor,
    start: u8,
) -> Result<Vec<Route>, Trouble> {
    let mut all = Vec::new(heap);
    let mut ahead = VecDeque::new(heap);
    ahead.push_back(Route {
        start,
        steps: Vec::new(heap),
    })?;
    for _ in 0..MOST_ROUTES {
        let Some(route) = ahead.pop_front() else {
            return Ok(all);
        };
        add_longer(&mut ahead, floor, rule, &route)?;
        all.push(route)?;
    }
    Err(Trouble::Large)
}

fn add_longer(
    ahead: &mut VecDeque<Route>,
    floor: &Floor,
    rule: Restrictor,
    route: &Route,
) -> Result<(), Trouble> {
    let here = route.end();
    let onward = floor
        .passages
        .iter()
        .filter(|passage| passage.origin == here);
    for passage in onward {
        let longer = route.longer(*passage)?;
        if longer.keeps(rule) {
            ahead.push_back(longer)?;
        }
    }
    Ok(())
}

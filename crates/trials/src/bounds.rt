//! What a trial may take. A trial that would take more is cut short, the same way for the same seed.
use crate::floor::Passage;
use crate::kinds::{KINDS, Kind};
use crate::routes::Route;
use crate::tree::Tree;
use crate::trouble::Trouble;

/// The routes that a listing looks at.
pub const MOST_ROUTES: usize = 20000;

/// The markings of one part of a route.
pub const MOST_MARKINGS: usize = 500;

/// The parts and products that a listing looks at.
pub const MOST_WORK: usize = 2000000;

// The steps of a search that tries every mark on every route, without looking ahead.
const MOST_STEPS: u64 = 1000000;

// Where nothing is found, the shortest answers are sought once for each length.
const MOST_LENGTHS: u64 = 256;

/// What may still be spent on one listing.
#[derive(Drop)]
pub struct Work {
    left: usize,
}

impl Work {
    pub(crate) fn new() -> Work {
        Work { left: MOST_WORK }
    }

    pub(crate) fn spend(&mut self, amount: usize) -> Result<(), Trouble> {
        self.left = self.left.checked_sub(amount).ok_or(Trouble::Large)?;
        Ok(())
    }
}

/// Refuses routes on which the library's search would take too long; `vain` says that it seeks the shortest
/// answers and finds none.
pub(crate) fn searchable(tree: &Tree, routes: &[Route], vain: bool) -> Result<(), Trouble> {
    let marks = KINDS.map(|kind| marks_of(tree, kind));
    let steps = routes
        .iter()
        .map(|route| marked_ways(&marks, route.steps.as_slice()))
        .fold(0u64, |sum, ways| sum.saturating_add(ways));
    let rounds = if vain { MOST_LENGTHS } else { 1 };
    if steps.saturating_mul(rounds) > MOST_STEPS {
        return Err(Trouble::Large);
    }
    Ok(())
}

// In how many ways the passages of a route may be marked, each for itself.
fn marked_ways(marks: &[u64; 8], steps: &[Passage]) -> u64 {
    steps
        .iter()
        .map(|passage| marks[passage.kind as usize])
        .fold(1, |product: u64, ways| product.saturating_mul(ways))
}

// How many marks the names that fit a kind have.
fn marks_of(tree: &Tree, kind: Kind) -> u64 {
    (0..=8u8).filter(|mark| tree.gives(kind, *mark)).count() as u64
}

//! The brute-force lister: every allowed route, every marking, sorted.
//!
//! It is written from the definitions alone and shares nothing with the library but the bytes of plans and
//! patterns. It is slow, and easy to believe.
use crate::bounds::{Work, searchable};
use crate::floor::Floor;
use crate::markings::route_markings;
use crate::routes::{Restrictor, Route, routes};
use crate::tree::Tree;
use crate::trouble::Trouble;
use std::alloc::Global;

/// Which answers are wanted.
// The library's choice is another type: the lister is written apart from it.
#[derive(Clone, Copy, Debug)]
pub enum Want {
    All,
    Shortest,
}

/// What a listing is asked for.
#[derive(Clone, Copy, Debug)]
pub struct Question {
    pub start: u8,
    pub target: u8,
    pub want: Want,
}

/// A record, behind what decides its place: the passage and the mark of each step in turn.
#[derive(PartialEq, Eq, PartialOrd, Ord, Drop)]
pub struct Line {
    order: Vec<u16>,
    pub words: Vec<u16>,
}

/// What is listed: the answers of a pattern on a floor under a rule.
#[derive(Drop)]
pub struct Lister {
    pub heap: Global,
    pub floor: Floor,
    pub tree: Tree,
    pub rule: Restrictor,
}

impl Lister {
    /// The records of all answers, in their order.
    pub(crate) fn list(&self, question: Question) -> Result<Vec<Line>, Trouble> {
        let routes = routes(self.heap, &self.floor, self.rule, question.start)?;
        searchable(&self.tree, routes.as_slice(), false)?;
        let mut work = Work::new();
        let mut lines = Vec::new(self.heap);
        for route in routes.iter().filter(|route| route.end() == question.target) {
            self.add_lines(&mut lines, route, &mut work)?;
        }
        if let Want::Shortest = question.want {
            searchable(&self.tree, routes.as_slice(), lines.is_empty())?;
            keep_shortest(&mut lines);
        }
        lines.sort()?;
        lines.dedup();
        Ok(lines)
    }

    fn add_lines(
        &self,
        lines: &mut Vec<Line>,
        route: &Route,
        work: &mut Work,
    ) -> Result<(), Trouble> {
        let markings = route_markings(self.heap, &self.tree, route.steps.as_slice(), work)?;
        for marking in markings.all.iter() {
            lines.push(Line::new(self.heap, route, marking.as_slice())?)?;
        }
        Ok(())
    }
}

impl Line {
    fn new(heap: Global, route: &Route, marking: &[u8]) -> Result<Line, Trouble> {
        let mut order = Vec::new(heap);
        let mut words = Vec::new(heap);
        words.push((route.steps.len() & 0xffff) as u16)?;
        words.push(u16::from(route.start))?;
        for (passage, mark) in route.steps.iter().zip(marking.iter()) {
            let number = u16::from(passage.number);
            let mark = u16::from(*mark);
            order.extend_from_slice(&[number, mark])?;
            words.extend_from_slice(&[number, u16::from(passage.destination), mark])?;
        }
        Ok(Line { order, words })
    }
}

// The lines of the fewest words.
fn keep_shortest(lines: &mut Vec<Line>) {
    let least = lines.iter().map(|line| line.words.len()).min();
    lines.retain(|line| Some(line.words.len()) == least);
}

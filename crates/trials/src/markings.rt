//! The ways in which a pattern marks a route.
use crate::bounds::{MOST_MARKINGS, Work};
use crate::floor::Passage;
use crate::tree::{Joint, Name, Repeat, Tree};
use crate::trouble::Trouble;
use std::alloc::Global;
use std::collections::{BTreeMap, BTreeSet};

/// A mark for each passage of a part of a route: 0 for no letter, 1 to 8 for A to H.
pub type Marking = Vec<u8>;

/// The markings of one part of a route, each once.
#[derive(Clone, Drop)]
pub struct Markings {
    pub all: BTreeSet<Marking>,
}

// What markings a pattern gives the parts of a route from one place on, by the place where a part ends.
#[derive(Clone, Drop)]
struct Row {
    ends: BTreeMap<usize, Markings>,
}

// A row for each place of a route.
type Table = Vec<Row>;

impl Markings {
    fn new(heap: Global) -> Markings {
        Markings {
            all: BTreeSet::new(heap),
        }
    }

    fn add(&mut self, marking: Marking) -> Result<(), Trouble> {
        if self.all.len() >= MOST_MARKINGS && !self.all.contains(&marking) {
            return Err(Trouble::Large);
        }
        self.all.insert(marking)?;
        Ok(())
    }

    fn add_all(&mut self, others: Markings) -> Result<(), Trouble> {
        for marking in others.all {
            self.add(marking)?;
        }
        Ok(())
    }

    // Every marking of the one with every marking of the other behind it.
    fn add_products(&mut self, before: &Markings, behind: &Markings) -> Result<(), Trouble> {
        for first in before.all.iter() {
            self.add_behind(first, behind)?;
        }
        Ok(())
    }

    fn add_behind(&mut self, first: &Marking, behind: &Markings) -> Result<(), Trouble> {
        for second in behind.all.iter() {
            let mut marking = first.clone()?;
            marking.extend_from_slice(second.as_slice())?;
            self.add(marking)?;
        }
        Ok(())
    }
}

impl Row {
    fn new(heap: Global) -> Row {
        Row {
            ends: BTreeMap::new(heap),
        }
    }

    // A row with one marking.
    fn of_one(heap: Global, end: usize, marking: Marking) -> Result<Row, Trouble> {
        let mut row = Row::new(heap);
        let mut markings = Markings::new(heap);
        markings.add(marking)?;
        row.ends.insert(end, markings)?;
        Ok(row)
    }

    fn add_all(&mut self, heap: Global, others: Row) -> Result<(), Trouble> {
        for (end, markings) in others.ends {
            self.ends
                .entry(end)?
                .or_insert(Markings::new(heap))
                .add_all(markings)?;
        }
        Ok(())
    }
}

// What a pattern is held against.
#[derive(Drop)]
struct Matcher<'a> {
    heap: Global,
    steps: &'a [Passage],
    work: &'a mut Work,
}

/// The markings that a pattern gives a whole route.
pub(crate) fn route_markings(
    heap: Global,
    tree: &Tree,
    steps: &[Passage],
    work: &mut Work,
) -> Result<Markings, Trouble> {
    let mut matcher = Matcher { heap, steps, work };
    let mut table = matcher.table(tree)?;
    let whole = match table.first_mut() {
        Some(row) => row.ends.remove(&steps.len()),
        None => None,
    };
    Ok(whole.unwrap_or(Markings::new(heap)))
}

impl Matcher<'_> {
    fn table(&mut self, tree: &Tree) -> Result<Table, Trouble> {
        let places = self.steps.len().saturating_add(1);
        self.work.spend(places.saturating_mul(places))?;
        match tree {
            Tree::Empty => self.nothing(),
            Tree::Name(name) => self.named(*name),
            Tree::Joined(joint, left, right) => {
                let left = self.table(left)?;
                let right = self.table(right)?;
                match joint {
                    Joint::Then => self.sequences(&left, &right),
                    Joint::Or => self.either(left, right),
                }
            }
            Tree::Repeated(repeat, once) => {
                let once = self.table(once)?;
                let first = match repeat {
                    Repeat::Plus => once.clone()?,
                    Repeat::Star | Repeat::Maybe => self.nothing()?,
                };
                match repeat {
                    Repeat::Maybe => self.either(first, once),
                    Repeat::Star | Repeat::Plus => self.rounds(first, once),
                }
            }
        }
    }

    // No passage, no mark.
    fn nothing(&self) -> Result<Table, Trouble> {
        let mut table = Vec::new(self.heap);
        for place in 0..=self.steps.len() {
            table.push(Row::of_one(self.heap, place, Vec::new(self.heap))?)?;
        }
        Ok(table)
    }

    // One passage that fits, with its mark.
    fn named(&self, name: Name) -> Result<Table, Trouble> {
        let mut table = Vec::new(self.heap);
        for (passage, end) in self.steps.iter().zip(1usize..) {
            table.push(if name.fits(passage.kind) {
                Row::of_one(self.heap, end, vec![in self.heap; name.mark]?)?
            } else {
                Row::new(self.heap)
            })?;
        }
        table.push(Row::new(self.heap))?;
        Ok(table)
    }

    fn either(&self, left: Table, right: Table) -> Result<Table, Trouble> {
        let mut table = left;
        for (row, others) in table.iter_mut().zip(right) {
            row.add_all(self.heap, others)?;
        }
        Ok(table)
    }

    fn sequences(&mut self, left: &Table, right: &Table) -> Result<Table, Trouble> {
        let mut table = Vec::new(self.heap);
        for row in left.iter() {
            table.push(self.sequences_from(row, right)?)?;
        }
        Ok(table)
    }

    // Every marking of the left pattern up to a middle, with every marking of the right one from there on.
    fn sequences_from(&mut self, left: &Row, right: &Table) -> Result<Row, Trouble> {
        let mut row = Row::new(self.heap);
        for (middle, before) in left.ends.iter() {
            if let Some(behind) = right.get(*middle) {
                self.add_behind(&mut row, before, behind)?;
            }
        }
        Ok(row)
    }

    // The first rounds, with any number of further ones. An empty round adds nothing.
    fn rounds(&mut self, first: Table, once: Table) -> Result<Table, Trouble> {
        let mut further = once;
        for (place, row) in further.iter_mut().enumerate() {
            row.ends.remove(&place);
        }
        let mut table = first;
        for row in table.iter_mut() {
            self.add_rounds(row, &further)?;
        }
        Ok(table)
    }

    // Every round ends further on: when the turn comes to a place, the rounds up to it are all there.
    fn add_rounds(&mut self, row: &mut Row, further: &Table) -> Result<(), Trouble> {
        for (place, behind) in further.iter().enumerate() {
            if let Some(before) = row.ends.remove(&place) {
                self.add_behind(row, &before, behind)?;
                row.ends.insert(place, before)?;
            }
        }
        Ok(())
    }

    fn add_behind(
        &mut self,
        row: &mut Row,
        before: &Markings,
        behind: &Row,
    ) -> Result<(), Trouble> {
        for (end, after) in behind.ends.iter() {
            self.work
                .spend(before.all.len().saturating_mul(after.all.len()))?;
            row.ends
                .entry(*end)?
                .or_insert(Markings::new(self.heap))
                .add_products(before, after)?;
        }
        Ok(())
    }
}

//! Answers and records as lines of text.
use model::Label;
use plan::Plan;
use std::fmt;

/// The words of a record in decimal, with one space between.
#[derive(Clone, Copy)]
pub struct Record<'a>(pub &'a [u16]);

/// The answer of a record: zones, the doors between them with their kinds, and the lists that are not empty.
#[derive(Drop)]
pub struct Answer<'a, P: Plan> {
    pub plan: &'a P,
    pub record: &'a [u16],
}

impl fmt::Display for Record<'_> {
    fn fmt<W: fmt::Write>(&self, f: &mut fmt::Formatter<W>) -> fmt::Result {
        let [first, others @ ..] = self.0 else {
            return Ok(());
        };
        write!(f, "{first}")?;
        for word in others {
            write!(f, " {word}")?;
        }
        Ok(())
    }
}

impl<P: Plan> fmt::Display for Answer<'_, P> {
    fn fmt<W: fmt::Write>(&self, f: &mut fmt::Formatter<W>) -> fmt::Result {
        let [_, start, words @ ..] = self.record else {
            return Ok(());
        };
        let (steps, _) = words.as_chunks::<3>();
        write!(f, "{start}")?;
        for [number, zone, _] in steps {
            match self.plan.passage(*number as usize) {
                Some((_, _, kind)) => write!(f, " -[{number} {}]-> {zone}", Label::Kind(kind))?,
                None => write!(f, " -[{number} no door]-> {zone}")?,
            }
        }
        for (letter, mark) in ('A'..='H').zip(1..) {
            write_list(f, letter, mark, steps)?;
        }
        Ok(())
    }
}

// The passages with the mark behind its letter, if there are any.
fn write_list<W: fmt::Write>(
    f: &mut fmt::Formatter<W>,
    letter: char,
    mark: u16,
    steps: &[[u16; 3]],
) -> fmt::Result {
    if steps.iter().any(|[_, _, found]| *found == mark) {
        write!(f, "  {letter}:")?;
    }
    for [number, _, _] in steps.iter().filter(|[_, _, found]| *found == mark) {
        write!(f, " {number}")?;
    }
    Ok(())
}

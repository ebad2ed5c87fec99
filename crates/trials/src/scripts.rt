//! Random calls: proper ones, and ones that must be refused. A match on a random number is a table of chances.
use crate::calls::Call;
use crate::compare::Trial;
use crate::floor::Passage;
use crate::lister::{Line, Want};
use crate::random::Random;
use crate::trouble::Trouble;
use std::alloc::Global;

impl Trial {
    /// Any of the five calls.
    pub(crate) fn random_call(&mut self) -> Result<Call<Vec<u16>>, Trouble> {
        match self.random.below(20) {
            0..=8 => Ok(Call::Next(self.random.length())),
            9 => Ok(Call::Again),
            10..=14 => Ok(Call::Check(self.random_words()?)),
            15..=18 => Ok(Call::Resume(self.random_words()?)),
            _ => Ok(self.random_pose(10)),
        }
    }

    /// A call that changes nothing: a check, or a next without room.
    pub(crate) fn random_aside(&mut self) -> Result<Call<Vec<u16>>, Trouble> {
        if self.random.chance(20) {
            return Ok(Call::Next(self.random.place(770)));
        }
        Ok(Call::Check(self.random_words()?))
    }

    /// A question, its ends mostly where passages begin and end, or those of the question before; so many times in
    /// a hundred an end is perhaps no zone.
    pub(crate) fn random_pose(&mut self, astray: u8) -> Call<Vec<u16>> {
        let want = if self.random.chance(60) {
            Want::All
        } else {
            Want::Shortest
        };
        let again = self.random.chance(30);
        match self.reference.question() {
            Some(question) if again => Call::Pose(question.start, question.target, want),
            _ => {
                let start = self.random_end(astray, |passage| passage.origin);
                let target = self.random_end(astray, |passage| passage.destination);
                Call::Pose(start, target, want)
            }
        }
    }

    fn random_end<F: Fn(&Passage) -> u8 + Drop>(&mut self, astray: u8, end_of: F) -> u8
        requires { F.IsAlwaysCallable end_of }
    {
        let floor = &self.reference.lister.floor;
        if self.random.chance(astray) {
            return if self.random.chance(50) {
                floor.zones
            } else {
                self.random.byte()
            };
        }
        let place = self.random.place(floor.passages.len());
        let other = self.random.below(floor.zones);
        match floor.passages.get(place) {
            Some(passage) if self.random.chance(75) => end_of(passage),
            _ => other,
        }
    }

    // A record of this listing or the one before, or of no listing.
    fn random_record(&mut self) -> Result<Vec<u16>, Trouble> {
        if self.random.chance(80) {
            self.random.record(self.heap, self.reference.lines())
        } else {
            self.random.record(self.heap, self.reference.lines_before())
        }
    }

    // A record, as it is, longer, spoilt or cut; or words without sense.
    fn random_words(&mut self) -> Result<Vec<u16>, Trouble> {
        let mut words = self.random_record()?;
        match self.random.below(10) {
            0..=4 => {}
            5 => self.random.add_tail(&mut words)?,
            6 | 7 => self.random.spoil(words.as_mut_slice()),
            8 => words.truncate(self.random.place(words.len())),
            _ => return self.random.malformed(self.heap),
        }
        Ok(words)
    }
}

impl Random {
    fn length(&mut self) -> usize {
        match self.below(20) {
            0 => 769,
            1 => 771,
            2 => self.place(770),
            3 => 770 + self.below(200) as usize,
            _ => 770,
        }
    }

    // One of these records, or one that is perhaps not among them.
    fn record(&mut self, heap: Global, lines: &[Line]) -> Result<Vec<u16>, Trouble> {
        match lines.get(self.place(lines.len())) {
            Some(line) if self.chance(90) => Ok(line.words.clone()?),
            _ => self.other_record(heap),
        }
    }

    fn other_record(&mut self, heap: Global) -> Result<Vec<u16>, Trouble> {
        let count = self.below(4);
        let mut words = vec![in heap; u16::from(count), u16::from(self.below(6))]?;
        for _ in 0..count {
            let number = u16::from(self.byte());
            let zone = u16::from(self.below(6));
            words.extend_from_slice(&[number, zone, u16::from(self.below(9))])?;
        }
        Ok(words)
    }

    fn add_tail(&mut self, words: &mut Vec<u16>) -> Result<(), Trouble> {
        for _ in 0..self.below(5) {
            words.push(self.word())?;
        }
        Ok(())
    }

    // One word becomes another.
    fn spoil(&mut self, words: &mut [u16]) {
        let place = self.place(words.len());
        let other = match self.below(4) {
            0 => self.word(),
            1 => u16::from(self.below(12)),
            2 => 256,
            _ => u16::from(self.below(64)),
        };
        if let Some(word) = words.get_mut(place) {
            *word = other;
        }
    }

    // Many words with a count near the greatest.
    fn malformed(&mut self, heap: Global) -> Result<Vec<u16>, Trouble> {
        let mut words = vec![in heap; 250 + u16::from(self.below(10))]?;
        for _ in 0..self.place(800) {
            words.push(u16::from(self.below(9)))?;
        }
        if self.chance(50) {
            self.spoil(words.as_mut_slice());
        }
        Ok(words)
    }
}

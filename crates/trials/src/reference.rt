//! What an enquiry should answer, read off the lister's listing.
use crate::calls::{Call, Desk, Reply, Verdict};
use crate::lister::{Line, Lister, Question};
use crate::trouble::Trouble;

/// A question, all its records, and how many of them are delivered.
#[derive(Drop)]
pub struct Listing {
    question: Question,
    lines: Vec<Line>,
    delivered: usize,
}

/// An enquiry that lists everything when a question is posed, and then delivers record after record.
#[derive(Drop)]
pub struct Reference {
    pub lister: Lister,
    listing: Option<Listing>,
    /// the listing of the question before
    before: Option<Listing>,
}

const NOT_POSED: Verdict = Verdict {
    number: 45,
    layer: 3,
    place: 0,
};

fn refusal(number: u8, place: usize) -> Verdict {
    Verdict {
        number,
        layer: 3,
        place,
    }
}

impl Listing {
    fn again(&mut self) -> Reply {
        self.delivered = 0;
        Reply::Done
    }

    fn next(&mut self, buffer: &mut [u16]) -> Result<Reply, Verdict> {
        if buffer.len() < 770 {
            return Err(refusal(42, buffer.len()));
        }
        let Some(line) = self.lines.get(self.delivered) else {
            return Ok(Reply::NoneLeft);
        };
        // `copy_from_slice` would ask for equal lengths.
        for (place, word) in buffer.iter_mut().zip(line.words.iter()) {
            *place = *word;
        }
        self.delivered = self.delivered.saturating_add(1);
        Ok(Reply::Words(line.words.len()))
    }

    fn check(&self, words: &[u16]) -> Result<Reply, Verdict> {
        well_formed(words)?;
        Ok(Reply::Says(self.find(words).is_some()))
    }

    fn resume(&mut self, words: &[u16]) -> Result<Reply, Verdict> {
        well_formed(words)?;
        let place = self.find(words).ok_or(refusal(44, 0))?;
        self.delivered = place.saturating_add(1);
        Ok(Reply::Done)
    }

    // The place of the record with which the words begin.
    fn find(&self, words: &[u16]) -> Option<usize> {
        self.lines
            .iter()
            .position(|line| words.starts_with(line.words.as_slice()))
    }
}

// A fault where the words show that they begin with no record.
fn well_formed(words: &[u16]) -> Result<(), Verdict> {
    let [count, _, ..] = words else {
        return Err(refusal(43, words.len()));
    };
    if *count > 256 {
        return Err(refusal(43, 0));
    }
    let Some(record) = words.get(..2 + 3 * *count as usize) else {
        return Err(refusal(43, words.len()));
    };
    let mut marks = record.iter().enumerate().skip(4).step_by(3);
    match marks.find(|(_, mark)| **mark > 8) {
        Some((place, _)) => Err(refusal(43, place)),
        None => Ok(()),
    }
}

fn lines_of(listing: &Option<Listing>) -> &[Line] {
    match listing {
        Some(listing) => listing.lines.as_slice(),
        None => &[],
    }
}

impl Reference {
    pub(crate) fn new(lister: Lister) -> Reference {
        Reference {
            lister,
            listing: None,
            before: None,
        }
    }

    /// The question posed.
    pub(crate) fn question(&self) -> Option<Question> {
        self.listing.as_ref().map(|listing| listing.question)
    }

    /// The records of the question posed.
    pub(crate) fn lines(&self) -> &[Line] {
        lines_of(&self.listing)
    }

    /// The records of the question before.
    pub(crate) fn lines_before(&self) -> &[Line] {
        lines_of(&self.before)
    }

    fn posed(&mut self) -> Result<&mut Listing, Verdict> {
        self.listing.as_mut().ok_or(NOT_POSED)
    }

    fn pose(&mut self, question: Question) -> Result<Reply, Trouble> {
        let Question { start, target, .. } = question;
        let zones = self.lister.floor.zones;
        if start >= zones {
            return Err(Trouble::Refused(refusal(40, start as usize)));
        }
        if target >= zones {
            return Err(Trouble::Refused(refusal(41, target as usize)));
        }
        let lines = self.lister.list(question)?;
        self.before = self.listing.replace(Listing {
            question,
            lines,
            delivered: 0,
        });
        Ok(Reply::Done)
    }

    fn reply(&mut self, call: &Call<Vec<u16>>, buffer: &mut [u16]) -> Result<Reply, Trouble> {
        Ok(match call {
            Call::Again => self.posed()?.again(),
            Call::Next(_) => self.posed()?.next(buffer)?,
            Call::Pose(start, target, want) => self.pose(Question {
                start: *start,
                target: *target,
                want: *want,
            })?,
            Call::Check(words) => self.posed()?.check(words.as_slice())?,
            Call::Resume(words) => self.posed()?.resume(words.as_slice())?,
        })
    }
}

impl Desk for Reference {
    fn answer(&mut self, call: &Call<Vec<u16>>, buffer: &mut [u16]) -> Result<Reply, Trouble> {
        match self.reply(call, buffer) {
            Err(Trouble::Refused(verdict)) => Ok(Reply::Refused(verdict)),
            reply => reply,
        }
    }
}

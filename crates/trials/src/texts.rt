//! Random pattern texts. A match on a random number is a table of chances.
use crate::floors::Kinds;
use crate::kinds::{Kind, Word};
use crate::random::Random;
use crate::trouble::Trouble;
use std::alloc::Global;

// A text in the making: how many parentheses are open, and how many names in a hundred have a letter.
#[derive(Drop)]
struct Writer<'a> {
    random: &'a mut Random,
    kinds: Kinds,
    letters: u8,
    text: Vec<u8>,
    open: u8,
}

/// A pattern, mostly a small one over the kinds of a floor; now and then one at the limits, or spoilt.
pub(crate) fn random_text(
    heap: Global,
    random: &mut Random,
    kinds: Kinds,
) -> Result<Vec<u8>, Trouble> {
    let letters = match (kinds.long, random.below(2)) {
        (false, _) => 35,
        (true, 0) => 0,
        (true, _) => 100,
    };
    let mut writer = Writer {
        random,
        kinds,
        letters,
        text: Vec::new(heap),
        open: 0,
    };
    writer.pattern()?;
    let text = writer.text;
    if random.chance(5) {
        return Ok(spoilt(random, text));
    }
    Ok(text)
}

// One byte replaced, or the text cut off.
fn spoilt(random: &mut Random, mut text: Vec<u8>) -> Vec<u8> {
    let place = random.place(text.len());
    let wrong = b" ^|*+?()AHIaz-"
        .get(random.place(14))
        .copied()
        .unwrap_or(0);
    if random.chance(30) {
        text.truncate(place);
    } else if let Some(byte) = text.get_mut(place) {
        *byte = wrong;
    }
    text
}

impl Writer<'_> {
    fn pattern(&mut self) -> Result<(), Trouble> {
        let names = if self.random.chance(92) {
            1 + self.random.below(6)
        } else {
            1 + self.random.below(33)
        };
        if self.random.chance(2) {
            self.open_some(14, 100)?;
        }
        for place in 0..names {
            if place > 0 && self.random.chance(20) {
                self.sign(b'|')?;
            }
            self.open_some(3, 12)?;
            self.item()?;
            self.close_some(35)?;
        }
        self.close_some(100)
    }

    fn spaces(&mut self) -> Result<(), Trouble> {
        for _ in 0..2u8 {
            if self.random.chance(12) {
                self.text.push(b' ')?;
            }
        }
        Ok(())
    }

    fn sign(&mut self, sign: u8) -> Result<(), Trouble> {
        self.spaces()?;
        self.text.push(sign)?;
        Ok(())
    }

    // A space stands between two names, or they would be one.
    fn name(&mut self, word: Word) -> Result<(), Trouble> {
        self.spaces()?;
        if self
            .text
            .last()
            .is_some_and(|last| last.is_ascii_lowercase())
        {
            self.text.push(b' ')?;
        }
        self.text.extend_from_slice(word.name().as_bytes())?;
        Ok(())
    }

    fn repetition(&mut self, percent: u8) -> Result<(), Trouble> {
        if !self.random.chance(percent) {
            return Ok(());
        }
        match self.random.below(3) {
            0 => self.sign(b'*'),
            1 => self.sign(b'+'),
            _ => self.sign(b'?'),
        }
    }

    fn item(&mut self) -> Result<(), Trouble> {
        let word = match self.random.below(20) {
            0 => Word::Empty,
            1 => Word::Passage(Some(Kind::in_circle(self.random.below(8)))),
            2..=9 => Word::Passage(None),
            _ => Word::Passage(Some(self.kinds.pick(self.random))),
        };
        self.name(word)?;
        if word != Word::Empty && self.random.chance(self.letters) {
            self.letter()?;
        }
        self.repetition(35)
    }

    fn letter(&mut self) -> Result<(), Trouble> {
        self.sign(b'^')?;
        let letter = match self.random.below(10) {
            _ if self.kinds.long => 0,
            0 | 1 => self.random.below(8),
            _ => self.random.below(2),
        };
        self.sign(b'A' + letter % 8)
    }

    fn open_some(&mut self, most: u8, percent: u8) -> Result<(), Trouble> {
        for _ in 0..most {
            if self.random.chance(percent) {
                self.sign(b'(')?;
                self.open = self.open.saturating_add(1);
            }
        }
        Ok(())
    }

    fn close_some(&mut self, percent: u8) -> Result<(), Trouble> {
        for _ in 0..self.open {
            if self.random.chance(percent) {
                self.sign(b')')?;
                self.repetition(40)?;
                self.open = self.open.saturating_sub(1);
            }
        }
        Ok(())
    }
}

//! The kinds of passages, and the names of pattern texts.

/// A kind of passage; a plan file has its place in the list.
#[derive(Clone, Copy, PartialEq, Eq, Debug)]
pub enum Kind {
    Free,
    Badge,
    Pin,
    Turn,
    Lift,
    Fire,
    Dock,
    Stair,
}

/// A name: no passage, or one of a kind, or where none is given one of any kind.
// no Option of an Option, which would not say what is missing
#[derive(Clone, Copy, PartialEq, Eq, Debug)]
pub enum Word {
    Empty,
    Passage(Option<Kind>),
}

/// Every kind.
pub const KINDS: [Kind; 8] = [
    Kind::Free,
    Kind::Badge,
    Kind::Pin,
    Kind::Turn,
    Kind::Lift,
    Kind::Fire,
    Kind::Dock,
    Kind::Stair,
];

const WORDS: [(Word, &'static str); 10] = [
    (Word::Empty, "empty"),
    (Word::Passage(None), "any"),
    (Word::Passage(Some(Kind::Free)), "free"),
    (Word::Passage(Some(Kind::Badge)), "badge"),
    (Word::Passage(Some(Kind::Pin)), "pin"),
    (Word::Passage(Some(Kind::Turn)), "turn"),
    (Word::Passage(Some(Kind::Lift)), "lift"),
    (Word::Passage(Some(Kind::Fire)), "fire"),
    (Word::Passage(Some(Kind::Dock)), "dock"),
    (Word::Passage(Some(Kind::Stair)), "stair"),
];

impl Kind {
    /// The kind at a place, the kinds standing in a circle.
    pub(crate) fn in_circle(place: u8) -> Kind {
        KINDS[place as usize % KINDS.len()]
    }
}

impl Word {
    pub(crate) fn read(name: &[u8]) -> Option<Word> {
        WORDS
            .iter()
            .find(|(_, text)| text.as_bytes() == name)
            .map(|(word, _)| *word)
    }

    pub(crate) fn name(self) -> &'static str {
        WORDS
            .iter()
            .find(|(word, _)| *word == self)
            .map_or("", |(_, text)| *text)
    }
}

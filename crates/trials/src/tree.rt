//! Pattern texts, read by a stack and not by descent; the first fault of a text that is none.
use crate::calls::Verdict;
use crate::kinds::{Kind, Word};
use crate::trouble::Trouble;
use std::alloc::Global;
use std::mem;

/// A name with its letter: the kind of passage that it fits, or any where there is none, and the mark.
#[derive(Clone, Copy)]
pub struct Name {
    pub kind: Option<Kind>,
    /// 0 for no letter, 1 to 8 for A to H, as a record has it
    // a number and no enum, since it is only copied into records, and sorted and compared there
    pub mark: u8,
}

/// How two patterns stand side by side.
#[derive(Clone, Copy)]
pub enum Joint {
    Then,
    Or,
}

/// How often a pattern may come.
#[derive(Clone, Copy)]
pub enum Repeat {
    Star,
    Plus,
    Maybe,
}

/// A pattern.
#[derive(Drop)]
pub enum Tree {
    Empty,
    Name(Name),
    Joined(Joint, Box<Tree>, Box<Tree>),
    Repeated(Repeat, Box<Tree>),
}

impl Name {
    pub(crate) fn fits(self, kind: Kind) -> bool {
        self.kind.is_none_or(|fitting| fitting == kind)
    }
}

impl Tree {
    /// Whether a name of the pattern fits that kind and has that mark.
    pub(crate) fn gives(&self, kind: Kind, mark: u8) -> bool {
        match self {
            Tree::Empty => false,
            Tree::Name(name) => name.mark == mark && name.fits(kind),
            Tree::Joined(_, left, right) => left.gives(kind, mark) || right.gives(kind, mark),
            Tree::Repeated(_, once) => once.gives(kind, mark),
        }
    }
}

#[derive(Clone, Copy)]
enum Token {
    Word(Word),
    Letter(u8),
    Caret,
    Bar,
    Repeat(Repeat),
    Open,
    Close,
}

// What may stand next.
#[derive(Clone, Copy)]
enum Awaits {
    Atom,
    Letter,
    // behind a name: also `^` or a repetition
    Caret,
    // behind another atom: also a repetition
    Repetition,
    // behind a repetition
    More,
}

// What is read of a pattern in parentheses: alternatives, the sequence behind them, and its last item.
#[derive(Default, Drop)]
struct Level {
    alternatives: Option<Tree>,
    sequence: Option<Tree>,
    item: Option<Tree>,
}

#[derive(Drop)]
struct Builder {
    heap: Global,
    outer: Vec<Level>,
    level: Level,
    awaits: Awaits,
    names: usize,
}

/// The tree of a text; where it has none, the text's first fault.
pub(crate) fn read(heap: Global, text: &[u8]) -> Result<Tree, Trouble> {
    if text.len() > 512 {
        return Err(Trouble::Refused(refusal(30, 512)));
    }
    let mut builder = Builder {
        heap,
        outer: Vec::new(heap),
        level: Level::default(),
        awaits: Awaits::Atom,
        names: 0,
    };
    // The parts come without their places.
    let mut at = 0usize;
    for part in text.chunk_by(|one, next| one.is_ascii_lowercase() && next.is_ascii_lowercase()) {
        if part != b" ".as_slice() {
            let token = token_of(part, at)?;
            builder.check(token, at)?;
            builder.take(token)?;
        }
        at = at.saturating_add(part.len());
    }
    builder.finish(at)
}

fn refusal(number: u8, place: usize) -> Verdict {
    Verdict {
        number,
        layer: 2,
        place,
    }
}

// A token is a run of small letters or one other byte.
// no `TryFrom`: the fault has the place of the token
fn token_of(part: &[u8], at: usize) -> Result<Token, Verdict> {
    match part {
        [letter @ b'A'..=b'H'] => Ok(Token::Letter(*letter - b'A' + 1)),
        b"^" => Ok(Token::Caret),
        b"|" => Ok(Token::Bar),
        b"*" => Ok(Token::Repeat(Repeat::Star)),
        b"+" => Ok(Token::Repeat(Repeat::Plus)),
        b"?" => Ok(Token::Repeat(Repeat::Maybe)),
        b"(" => Ok(Token::Open),
        b")" => Ok(Token::Close),
        [b'a'..=b'z', ..] => Word::read(part).map(Token::Word).ok_or(refusal(32, at)),
        _ => Err(refusal(31, at)),
    }
}

// A part behind what stands before it, if anything does.
fn joined(heap: Global, before: Option<Tree>, joint: Joint, part: Tree) -> Result<Tree, Trouble> {
    match before {
        Some(before) => Ok(Tree::Joined(joint, Box::new(heap, before)?, Box::new(heap, part)?)),
        None => Ok(part),
    }
}

impl Builder {
    // The fault of a token that cannot be taken.
    fn check(&self, token: Token, at: usize) -> Result<(), Verdict> {
        match token {
            _ if !self.may_stand(token) => Err(refusal(33, at)),
            Token::Word(Word::Passage(_)) if self.names >= 31 => Err(refusal(34, at)),
            Token::Open if self.outer.len() >= 16 => Err(refusal(35, at)),
            _ => Ok(()),
        }
    }

    fn may_stand(&self, token: Token) -> bool {
        match token {
            Token::Word(_) | Token::Open => !matches!(self.awaits, Awaits::Letter),
            Token::Letter(_) => matches!(self.awaits, Awaits::Letter),
            Token::Caret => matches!(self.awaits, Awaits::Caret),
            Token::Repeat(_) => matches!(self.awaits, Awaits::Caret | Awaits::Repetition),
            Token::Bar => self.is_behind_item(),
            Token::Close => self.is_behind_item() && !self.outer.is_empty(),
        }
    }

    fn is_behind_item(&self) -> bool {
        !matches!(self.awaits, Awaits::Atom | Awaits::Letter)
    }

    fn take(&mut self, token: Token) -> Result<(), Trouble> {
        match token {
            Token::Word(Word::Empty) => self.take_atom(Tree::Empty, Awaits::Repetition),
            Token::Word(Word::Passage(kind)) => {
                self.names = self.names.saturating_add(1);
                self.take_atom(Tree::Name(Name { kind, mark: 0 }), Awaits::Caret)
            }
            Token::Caret => {
                self.awaits = Awaits::Letter;
                Ok(())
            }
            Token::Letter(mark) => {
                self.mark_last(mark);
                Ok(())
            }
            Token::Repeat(repeat) => self.take_repetition(repeat),
            Token::Bar => self.end_sequence(),
            Token::Open => self.open_level(),
            Token::Close => self.close_level(),
        }
    }

    fn take_atom(&mut self, atom: Tree, awaits: Awaits) -> Result<(), Trouble> {
        self.end_item()?;
        self.level.item = Some(atom);
        self.awaits = awaits;
        Ok(())
    }

    // A letter behind a name: the name is the last item.
    fn mark_last(&mut self, mark: u8) {
        if let Some(Tree::Name(name)) = &mut self.level.item {
            name.mark = mark;
        }
        self.awaits = Awaits::Repetition;
    }

    fn take_repetition(&mut self, repeat: Repeat) -> Result<(), Trouble> {
        if let Some(item) = self.level.item.take() {
            self.level.item = Some(Tree::Repeated(repeat, Box::new(self.heap, item)?));
        }
        self.awaits = Awaits::More;
        Ok(())
    }

    // The item, if any, ends the sequence so far.
    fn end_item(&mut self) -> Result<(), Trouble> {
        if let Some(item) = self.level.item.take() {
            let before = self.level.sequence.take();
            self.level.sequence = Some(joined(self.heap, before, Joint::Then, item)?);
        }
        Ok(())
    }

    // The sequence is one more alternative.
    fn end_sequence(&mut self) -> Result<(), Trouble> {
        self.end_item()?;
        if let Some(sequence) = self.level.sequence.take() {
            let before = self.level.alternatives.take();
            self.level.alternatives = Some(joined(self.heap, before, Joint::Or, sequence)?);
        }
        self.awaits = Awaits::Atom;
        Ok(())
    }

    fn open_level(&mut self) -> Result<(), Trouble> {
        self.end_item()?;
        self.outer.push(mem::take(&mut self.level))?;
        self.awaits = Awaits::Atom;
        Ok(())
    }

    fn close_level(&mut self) -> Result<(), Trouble> {
        self.end_sequence()?;
        let inner = self.level.alternatives.take();
        if let Some(level) = self.outer.pop() {
            self.level = level;
            self.level.item = inner;
        }
        self.awaits = Awaits::Repetition;
        Ok(())
    }

    // The whole pattern, where the text may end.
    fn finish(mut self, at: usize) -> Result<Tree, Trouble> {
        if !self.is_behind_item() || !self.outer.is_empty() {
            return Err(Trouble::Refused(refusal(33, at)));
        }
        self.end_sequence()?;
        Ok(self.level.alternatives.take().unwrap_or(Tree::Empty))
    }
}

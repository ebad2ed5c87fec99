// The names that a pattern may have.
ghost use Rattle.std.specs.Prelude.{◌≡◌, MatchResult, ◌≢◌};
ghost use Rattle.fault.specs.declared.PatternFault.TheVariants.{Unknown};
ghost use Rattle.reader.specs.Words.{spelling, meaning};

use fault::PatternFault;
use grammar::Symbol;
use model::Label;

/// A name that a pattern may have. Spelling and meaning are said of names; a symbol need not be one.
#[derive(Clone, Copy, PartialEq, Eq, Debug)]
pub enum Word {
    Free,
    Badge,
    Pin,
    Turn,
    Lift,
    Fire,
    Dock,
    Stair,
    Any,
    Empty,
}

#[tactic(auto, using(crate::proofs::Spelled::spelled3, crate::proofs::Spelled::spelled4, crate::proofs::Spelled::spelled5))]
// no `TryFrom`: the fault has the place of the name
pub fn look_up(name: &[u8], place: usize) -> Result<Word, PatternFault>
    ensures { MatchResult result (λ w. spelling w ≡ name.now) (λ f. (f ≡ Unknown place) × ((w : Word) → spelling w ≢ name.now)) }
{
    match name {
        b"free" => Ok(Word::Free),
        b"badge" => Ok(Word::Badge),
        b"pin" => Ok(Word::Pin),
        b"turn" => Ok(Word::Turn),
        b"lift" => Ok(Word::Lift),
        b"fire" => Ok(Word::Fire),
        b"dock" => Ok(Word::Dock),
        b"stair" => Ok(Word::Stair),
        b"any" => Ok(Word::Any),
        b"empty" => Ok(Word::Empty),
        _ => Err(PatternFault::Unknown(place)),
    }
}

impl Word {
    /// The symbol that the word is converted to.
    pub fn symbol(self) -> Symbol
        ensures { result ≡ meaning self }
    {
        Symbol::from(self)
    }
}

impl From<Word> for Symbol {
    ghost from_gives = { λ w r. r ≡ meaning w };

    fn from(word: Word) -> Symbol {
        match word {
            Word::Free => Symbol::Name(Label::Kind(0)),
            Word::Badge => Symbol::Name(Label::Kind(1)),
            Word::Pin => Symbol::Name(Label::Kind(2)),
            Word::Turn => Symbol::Name(Label::Kind(3)),
            Word::Lift => Symbol::Name(Label::Kind(4)),
            Word::Fire => Symbol::Name(Label::Kind(5)),
            Word::Dock => Symbol::Name(Label::Kind(6)),
            Word::Stair => Symbol::Name(Label::Kind(7)),
            Word::Any => Symbol::Name(Label::Any),
            Word::Empty => Symbol::Empty,
        }
    }
}

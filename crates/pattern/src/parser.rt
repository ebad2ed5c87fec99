// The parser: it takes one symbol after the other, and builds the automaton of the pattern in place.
ghost use Rattle.std.specs.Prelude.{◌≡◌, ◌<◌, ◌≤◌, [], None as none};
ghost use Rattle.grammar.specs.Machine.{due};
ghost use Rattle.grammar.specs.declared.Symbol.TheVariants.{Name as name, Letter as letter, Caret as caret, Bar as bar, Repeat as repeat, Open as opens, Close as closes};
ghost use Rattle.automaton.specs.Tables.{Known, Within};
ghost use Rattle.pattern.specs.Parts.{Room, room_prop, Repeated, Usable};

use crate::levels::{Level, Levels};
use automaton::{Automaton, Fragment};
use fault::PatternFault;
use grammar::{Symbol, Times};
use model::Label;

// How many names a pattern may have.
const MOST: usize = 31;

/// What was read last: nothing, so that an atom is due; a name, which `^` may follow; a name and `^`, so that a letter is
/// due; an atom, which `*`, `+` or `?` may follow; an item. A name gets its position when it is known to have no letter,
/// or which one.
#[derive(Clone, Copy)]
pub enum Mode {
    Due,
    Named(Label),
    Marking(Label),
    Atom(Fragment),
    Item(Fragment),
}

/// The levels around the one that is read, that level, and what was read last. There is room for a name that has no
/// position yet.
#[derive(Clone, Copy)]
pub struct Parser {
    pub automaton: Automaton,
    pub levels: Levels,
    pub level: Level,
    pub mode: Mode,
    pub ghost few: { automaton.count ≤ 31 },
    pub ghost within: { Within automaton },
    pub ghost room: { Room automaton mode } by { room_prop automaton mode },
}

fn repeated(automaton: &mut Automaton, times: Times, atom: Fragment) -> Fragment
    ensures { Repeated automaton.old automaton.new times atom result }
{
    match times {
        Times::ZeroOrMore => automaton.many(atom),
        Times::OneOrMore => automaton.some(atom),
        Times::ZeroOrOne => automaton.optional(atom),
    }
}

impl Parser {
    ghost use Rattle.pattern.specs.Parsing.{Shows, ItemRead, Settled, Closing, Took, Ended};

    pub fn new() -> Parser
        ensures { Shows result 0 [] none none due }
    {
        Parser {
            automaton: Automaton::new(),
            levels: Levels::new(),
            level: Level::default(),
            mode: Mode::Due,
        }
    }

    // The item that is read, behind which an atom is due.
    fn item(&mut self, place: usize) -> Result<Fragment, PatternFault>
        ensures { ItemRead self.old self.new place result }
    {
        let item = match self.mode {
            Mode::Named(label) => self.automaton.name(label, 0),
            Mode::Atom(f) | Mode::Item(f) => f,
            Mode::Due | Mode::Marking(_) => return Err(PatternFault::Misplaced(place)),
        };
        self.mode = Mode::Due;
        Ok(item)
    }

    // An atom begins: the item that is read goes behind those before it.
    fn settle(&mut self, place: usize) -> Result<(), PatternFault>
        ensures { Settled self.old self.new place result }
    {
        if let Mode::Due = self.mode {
            return Ok(());
        }
        let item = self.item(place)?;
        self.level.items = Some(self.level.joined(&mut self.automaton, item));
        Ok(())
    }

    // What is read since the innermost open parenthesis ends here.
    fn pattern_read(&mut self, place: usize) -> Result<Fragment, PatternFault>
        ensures { Closing self.old self.new place result }
    {
        let item = self.item(place)?;
        let sequence = self.level.joined(&mut self.automaton, item);
        Ok(self.level.chosen(&self.automaton, sequence))
    }

    fn name(&mut self, label: Label, place: usize) -> Result<(), PatternFault>
        requires { Known label }
        ensures { Took self.old (name label) place result self.new }
    {
        self.settle(place)?;
        if self.automaton.count >= MOST {
            return Err(PatternFault::Names(place));
        }
        self.mode = Mode::Named(label);
        Ok(())
    }

    fn empty(&mut self, place: usize) -> Result<(), PatternFault>
        ensures { Took self.old Symbol.Empty place result self.new }
    {
        self.settle(place)?;
        self.mode = Mode::Atom(self.automaton.empty());
        Ok(())
    }

    fn letter(&mut self, mark: u8, place: usize) -> Result<(), PatternFault>
        requires { mark < 9 }
        ensures { Took self.old (letter mark) place result self.new }
    {
        let Mode::Marking(label) = self.mode else {
            return Err(PatternFault::Misplaced(place));
        };
        self.mode = Mode::Atom(self.automaton.name(label, mark));
        Ok(())
    }

    fn caret(&mut self, place: usize) -> Result<(), PatternFault>
        ensures { Took self.old caret place result self.new }
    {
        let Mode::Named(label) = self.mode else {
            return Err(PatternFault::Misplaced(place));
        };
        self.mode = Mode::Marking(label);
        Ok(())
    }

    fn bar(&mut self, place: usize) -> Result<(), PatternFault>
        ensures { Took self.old bar place result self.new }
    {
        let all = self.pattern_read(place)?;
        self.level = Level {
            sequences: Some(all),
            items: None,
        };
        Ok(())
    }

    fn repeat(&mut self, times: Times, place: usize) -> Result<(), PatternFault>
        ensures { Took self.old (repeat times) place result self.new }
    {
        if let Mode::Item(_) = self.mode {
            return Err(PatternFault::Misplaced(place));
        }
        let atom = self.item(place)?;
        self.mode = Mode::Item(repeated(&mut self.automaton, times, atom));
        Ok(())
    }

    fn open(&mut self, place: usize) -> Result<(), PatternFault>
        ensures { Took self.old opens place result self.new }
    {
        self.settle(place)?;
        self.levels
            .push(self.level)
            .ok_or(PatternFault::Nested(place))?;
        self.level = Level::default();
        Ok(())
    }

    fn close(&mut self, place: usize) -> Result<(), PatternFault>
        ensures { Took self.old closes place result self.new }
    {
        let all = self.pattern_read(place)?;
        self.level = self.levels.pop().ok_or(PatternFault::Misplaced(place))?;
        self.mode = Mode::Atom(all);
        Ok(())
    }

    /// Takes one symbol, or says what is wrong with it. Only `compile` calls it, with symbols of the reader. The type has
    /// more labels and letters than a text can have, and no fault is for those; so this asks that the symbol be usable.
    pub fn take(&mut self, symbol: Symbol, place: usize) -> Result<(), PatternFault>
        requires { Usable symbol }
        ensures { Took self.old symbol place result self.new }
    {
        match symbol {
            Symbol::Name(label) => self.name(label, place),
            Symbol::Empty => self.empty(place),
            Symbol::Letter(mark) => self.letter(mark, place),
            Symbol::Caret => self.caret(place),
            Symbol::Bar => self.bar(place),
            Symbol::Repeat(times) => self.repeat(times, place),
            Symbol::Open => self.open(place),
            Symbol::Close => self.close(place),
        }
    }

    /// The automaton of the whole, at the end of the text.
    pub fn finish(&mut self, place: usize) -> Result<Automaton, PatternFault>
        ensures { Ended self.old place result }
    {
        let all = self.pattern_read(place)?;
        if self.levels.depth > 0 {
            return Err(PatternFault::Misplaced(place));
        }
        let mut whole = self.automaton;
        whole.finish(all);
        Ok(whole)
    }
}

// The levels of a pattern: what is read between parentheses, and the stack of those around it.
ghost use Rattle.std.specs.Prelude.{◌≡◌, ◌≤◌, MatchOption};
ghost use Rattle.pattern.specs.Parts.{JoinedTo, EitherOf};
ghost use Rattle.pattern.specs.declared.levels.TheConstants.{DEEPEST};

use automaton::{Automaton, Fragment};

// How many parentheses may be open together.
const DEEPEST: usize = 16;

/// What stands since a parenthesis that is open, or since the start: the sequences before the last `|`, and the items
/// behind it.
#[derive(Clone, Copy, Default)]
pub struct Level {
    pub sequences: Option<Fragment>,
    pub items: Option<Fragment>,
}

/// The levels around the one that is read, the outermost first. There is no heap below the programs, so that the stack
/// lies in an array.
#[derive(Clone, Copy)]
pub struct Levels {
    pub held: [Level; DEEPEST],
    pub depth: usize,
    pub ghost deep: { depth ≤ DEEPEST },
}

impl Level {
    /// The item behind those before it.
    pub fn joined(&self, automaton: &mut Automaton, item: Fragment) -> Fragment
        ensures { JoinedTo automaton.old automaton.new self.now.items item result }
    {
        // `map_or` would lose what its closure leaves of the automaton.
        match self.items {
            None => item,
            Some(before) => automaton.sequence(before, item),
        }
    }

    /// The sequence or one of those before it.
    pub fn chosen(&self, automaton: &Automaton, sequence: Fragment) -> Fragment
        ensures { EitherOf automaton.now self.now.sequences sequence result }
    {
        // By a match as `joined`, so that the two are read side by side.
        match self.sequences {
            None => sequence,
            Some(before) => automaton.either(before, sequence),
        }
    }
}

impl Levels {
    ghost use Rattle.pattern.specs.Stack.{Pushed, Popped};

    pub fn new() -> Levels
        ensures { result.depth ≡ 0 }
    {
        Levels {
            held: [Level::default(); DEEPEST],
            depth: 0,
        }
    }

    /// One level more, or none if as many are open as may be.
    pub fn push(&mut self, level: Level) -> Option<()>
        ensures { MatchOption result (self.old.depth ≡ 16) (λ _. Pushed self.old self.new level) }
    {
        if self.depth == DEEPEST {
            return None;
        }
        self.held[self.depth] = level;
        self.depth += 1;
        Some(())
    }

    /// The innermost level, which is taken off, or none if no parenthesis is open.
    pub fn pop(&mut self) -> Option<Level>
        ensures { MatchOption result (self.old.depth ≡ 0) (Popped self.old self.new) }
    {
        self.depth = self.depth.checked_sub(1)?;
        Some(self.held[self.depth])
    }
}

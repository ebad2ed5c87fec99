//! From a pattern text to its automaton, or to the first fault.
//!
//! `Pattern::read` answers `Ok` exactly when the text breaks no rule. Then the automaton recognises the one tree that the
//! grammar gives for the text: it accepts exactly the words of pairs (kind, mark) that the tree reads. Otherwise the
//! answer is the first fault: the text is judged token by token from the left, each by the numbers of the faults, and
//! its end counts as a token. `specs/Texts.antt` says which rules there are and what first means; `verdicts_stand`
//! proves that a text has at most one tree and at most one verdict.
#![tactic(auto)]

ghost use Rattle.std.specs.Result.{MatchResult};
ghost use Rattle.pattern.specs.Texts.{FaultOf, OneTree, OneVerdict};
ghost use Rattle.pattern.specs.Verdicts.{Reading, Compiles};

mod levels;
mod parser;

use automaton::Automaton;
use fault::{Fault, PatternFault};
use parser::Parser;
use reader::{Reader, next_symbol};

// How many bytes a text may have.
const LONGEST: usize = 512;

/// A pattern that was read from a text.
#[derive(Clone, Copy)]
pub struct Pattern {
    pub automaton: Automaton,
}

// Reads the symbols of the text one by one, and lets the parser take each.
fn compile(text: &[u8]) -> Result<Automaton, PatternFault>
    ensures { Compiles text.now result }
{
    if text.len() > LONGEST {
        return Err(PatternFault::Long(LONGEST));
    }
    let mut reader = Reader::new(text);
    let mut parser = Parser::new();
    'tokens: while let (Some(symbol), place) = next_symbol(&mut reader)? {
        parser.take(symbol, place)?;
    }
    parser.finish(text.len())
}

impl Pattern {
    /// The pattern of a text, or the first fault.
    pub fn read(text: &[u8]) -> Result<Pattern, Fault>
        ensures { MatchResult result (λ p. Reading text.now p.automaton) (FaultOf text.now) }
    {
        let automaton = compile(text)?;
        Ok(Pattern { automaton })
    }
}

/// Carries the theorems that a text has at most one tree and at most one verdict.
pub fn verdicts_stand()
    ensures tree { OneTree }
    ensures verdict { OneVerdict }
{}

//! The grammar of patterns, over symbols: the tokens of a text whose names are known.
//!
//! A pattern is one or more sequences joined by `|`; a sequence is one or more items; an item is an atom, or an atom and
//! one of `*`, `+`, `?`; an atom is a name, `empty`, a pattern in parentheses, or a name followed by `^` and a letter.
//! `specs/Grammar.antt` says it by concatenation, with the tree that each part gives. `specs/Machine.antt` reads symbols
//! one by one; `grammar_stands` proves that it goes on exactly while some pattern begins with what it has read, that it
//! ends with the tree that the grammar gives, and that symbols have at most one tree.
#![tactic(auto)]

ghost use Rattle.grammar.specs.Theorems.{GoesOn, GivesTree, OneTree};

mod shown;

use model::Label;

/// How often an atom may be repeated.
#[derive(Clone, Copy, PartialEq, Eq, Debug)]
pub enum Times {
    /// `*`
    ZeroOrMore,
    /// `+`
    OneOrMore,
    /// `?`
    ZeroOrOne,
}

/// A token whose name is known. A letter goes by its mark, 1 to 8, the word that records have for it.
#[derive(Clone, Copy, PartialEq, Eq, Debug)]
pub enum Symbol {
    Name(Label),
    Empty,
    Letter(u8),
    Caret,
    Bar,
    Repeat(Times),
    Open,
    Close,
}

/// Carries the theorems about the grammar.
pub fn grammar_stands()
    ensures goes { GoesOn }
    ensures gives { GivesTree }
    ensures one { OneTree }
{}

//! Symbols as a pattern has them.
use crate::{Symbol, Times};
use std::fmt;

impl fmt::Display for Times {
    fn fmt<W: fmt::Write>(&self, f: &mut fmt::Formatter<W>) -> fmt::Result {
        f.pad(match self {
            Times::ZeroOrMore => "*",
            Times::OneOrMore => "+",
            Times::ZeroOrOne => "?",
        })
    }
}

impl fmt::Display for Symbol {
    fn fmt<W: fmt::Write>(&self, f: &mut fmt::Formatter<W>) -> fmt::Result {
        match self {
            Symbol::Name(label) => write!(f, "{label}"),
            Symbol::Letter(mark) => write!(f, "{}", char::from(b'@' + (*mark).min(8))),
            Symbol::Repeat(times) => write!(f, "{times}"),
            Symbol::Empty => f.pad("empty"),
            Symbol::Caret => f.pad("^"),
            Symbol::Bar => f.pad("|"),
            Symbol::Open => f.pad("("),
            Symbol::Close => f.pad(")"),
        }
    }
}

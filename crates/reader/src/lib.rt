//! The reading of a pattern text into tokens.
//!
//! A table of 256 classes sorts the bytes (`specs/Classes.antt` has its rule by ranges). A `Reader` yields the tokens of
//! the text one by one, each with its place: a name is the longest run of a to z, a letter A to H or a sign is one byte,
//! and spaces may stand around them. `next_symbol` knows the names. A byte of the class `Refused` and an unknown name are faults at
//! their place (`specs/Tokens.antt`).
#![tactic(auto)]

mod class;
mod reader;
mod symbol;
mod word;

pub use class::{Class, class_of};
pub use reader::{Reader, Token};
pub use symbol::next_symbol;
pub use word::{Word, look_up};

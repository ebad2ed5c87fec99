// The reader of a pattern text: it yields one token after the other.
ghost use Rattle.std.specs.Prelude.{◌≡◌, ℕ, ◌<◌, ◌≤◌, length, MatchResult, ◌≢◌, slice_index};
ghost use Rattle.fault.specs.declared.PatternFault.TheVariants.{Byte};
ghost use Rattle.reader.specs.Classes.{class_of};
ghost use Rattle.reader.specs.declared.class.Class.TheVariants.{Sign as sign};
ghost use Rattle.reader.specs.Tokens.{AllOf, sign_of, TokenAt, RefusedAt};

use crate::class::{Class, class_of};
use fault::PatternFault;
use grammar::{Symbol, Times};

/// A token of the text: a name, which borrows its letters from the text; a letter or a sign, which is a symbol by itself;
/// or the end.
#[derive(Clone, Copy)]
pub enum Token<'a> {
    Name(&'a [u8]),
    Lone(Symbol),
    End,
}

// The symbol of a sign; only signs are asked for, so it is no conversion of bytes.
fn sign_of(b: u8) -> Symbol
    requires { class_of b ≡ sign }
    ensures { result ≡ sign_of b }
{
    match b {
        b'^' => Symbol::Caret,
        b'|' => Symbol::Bar,
        b'*' => Symbol::Repeat(Times::ZeroOrMore),
        b'+' => Symbol::Repeat(Times::OneOrMore),
        b'?' => Symbol::Repeat(Times::ZeroOrOne),
        b'(' => Symbol::Open,
        _ => Symbol::Close,
    }
}

// The end of the run of bytes of the class that begins at `from`.
fn run_end(text: &[u8], from: usize, class: Class) -> usize
    requires { from ≤ length text.now }
    ensures within { result ≤ length text.now }
    ensures onward { from ≤ result }
    ensures all { AllOf class text.now from result }
    ensures stops { result < length text.now → class_of (slice_index text.now result) ≢ class }
{
    for n in from..text.len() {
        if class_of(text[n]) != class {
            return n;
        }
    }
    text.len()
}

/// The text that is read, and the place up to which it has been.
#[derive(Drop)]
pub struct Reader<'a> {
    text: &'a [u8],
    at: usize,
    ghost ok: { at ≤ length text.now },
}

impl<'a> Reader<'a> {
    pub fn new(text: &'a [u8]) -> Reader<'a>
        ensures { (result.text.now ≡ text.now) × (result.at ≡ 0) }
    {
        Reader { text, at: 0 }
    }

    /// The next token with its place.
    pub fn next_token(&mut self) -> Result<(Token<'a>, usize), PatternFault>
        ensures same { self.new.text.now ≡ self.old.text.now }
        ensures token { MatchResult result
            (λ t. TokenAt self.old.text.now self.old.at t.0 t.1 self.new.at)
            (λ f. RefusedAt self.old.text.now self.old.at f) }
    {
        let text = self.text;
        let place = run_end(text, self.at, Class::Space);
        if place >= text.len() {
            self.at = place;
            return Ok((Token::End, place));
        }
        let b = text[place];
        match class_of(b) {
            Class::Refused => Err(PatternFault::Byte(place)),
            Class::Small => {
                let end = run_end(text, place, Class::Small);
                self.at = end;
                Ok((Token::Name(&text[place..end]), place))
            }
            Class::Capital => {
                self.at = place + 1;
                Ok((Token::Lone(Symbol::Letter(b - 64)), place))
            }
            _ => {
                self.at = place + 1;
                Ok((Token::Lone(sign_of(b)), place))
            }
        }
    }
}

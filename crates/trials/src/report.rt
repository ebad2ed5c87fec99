//! What the program prints.
use crate::calls::{Answer, Difference, Reply};
use crate::cases::{Case, Source};
use crate::compare::Tally;
use crate::rounds::Outcomes;
use crate::trouble::Trouble;
use std::fmt;

/// Whether an example came out as it must.
#[derive(Clone, Copy)]
pub(crate) struct Came(pub bool);

// Bytes as two digits each, with a space before each.
#[derive(Clone, Copy)]
struct Bytes<'a>(&'a [u8]);

// A text as it reads, other bytes than letters, signs and spaces as dots.
#[derive(Clone, Copy)]
struct Text<'a>(&'a [u8]);

impl fmt::Display for Came {
    fn fmt<W: fmt::Write>(&self, f: &mut fmt::Formatter<W>) -> fmt::Result {
        f.write_str(if self.0 { "ok" } else { "wrong" })
    }
}

impl fmt::Display for Bytes<'_> {
    fn fmt<W: fmt::Write>(&self, f: &mut fmt::Formatter<W>) -> fmt::Result {
        for byte in self.0 {
            write!(f, " {byte:02x}")?;
        }
        Ok(())
    }
}

impl fmt::Display for Text<'_> {
    fn fmt<W: fmt::Write>(&self, f: &mut fmt::Formatter<W>) -> fmt::Result {
        for byte in self.0 {
            let shown = match *byte {
                b' '..=b'~' => *byte as char,
                _ => '.',
            };
            write!(f, "{shown}")?;
        }
        Ok(())
    }
}

/// Everything that is needed to make a floor again.
impl fmt::Display for Case {
    fn fmt<W: fmt::Write>(&self, f: &mut fmt::Formatter<W>) -> fmt::Result {
        match &self.source {
            Source::Grid(rows, columns) => writeln!(f, "  grid {rows} by {columns}")?,
            Source::File(bytes) => writeln!(f, "  file{}", Bytes(bytes.as_slice()))?,
        }
        for sheet in self.sheets.iter() {
            writeln!(f, "  shut {sheet:?}")?;
        }
        writeln!(f, "  text{}", Bytes(self.text.as_slice()))?;
        writeln!(f, "  that is {}", Text(self.text.as_slice()))?;
        let rule = self.rule;
        write!(f, "  rule {rule:?}")
    }
}

/// Why the trials stopped.
impl fmt::Display for Trouble {
    fn fmt<W: fmt::Write>(&self, f: &mut fmt::Formatter<W>) -> fmt::Result {
        match self {
            Trouble::Memory => write!(f, "no memory is left"),
            Trouble::Large => write!(f, "too large for the lister"),
            Trouble::Usage => write!(f, "usage: trials [SEED [FLOORS]]"),
            Trouble::Output(error) => write!(f, "{error}"),
            Trouble::Refused(verdict) => write!(f, "  refused {verdict:?}"),
            Trouble::Different(difference) => write!(f, "{difference}"),
            Trouble::Unlike { expected, got } => write!(f, "  expected {expected:?}, got {got:?}"),
        }
    }
}

/// What was asked, expected and got.
impl fmt::Display for Difference {
    fn fmt<W: fmt::Write>(&self, f: &mut fmt::Formatter<W>) -> fmt::Result {
        let Difference {
            question,
            number,
            call,
            expected,
            got,
        } = self;
        writeln!(f, "  posed {question:?}")?;
        writeln!(f, "  call {number}: {call:?}")?;
        writeln!(f, "  expected {expected}")?;
        write!(f, "  got {got}")
    }
}

/// The reply, and the record at the front of the buffer.
impl fmt::Display for Answer {
    fn fmt<W: fmt::Write>(&self, f: &mut fmt::Formatter<W>) -> fmt::Result {
        let reply = self.reply;
        let count = match reply {
            Reply::Words(count) => count,
            _ => 0,
        };
        write!(f, "{reply:?}\n  words")?;
        for word in self.words.iter().take(count) {
            write!(f, " {word}")?;
        }
        Ok(())
    }
}

impl fmt::Display for Outcomes {
    fn fmt<W: fmt::Write>(&self, f: &mut fmt::Formatter<W>) -> fmt::Result {
        let Outcomes {
            floors,
            refused,
            large,
        } = self;
        write!(
            f,
            "{floors} floors ({refused} with a text that is refused, {large} cut short as too large)"
        )
    }
}

impl fmt::Display for Tally {
    fn fmt<W: fmt::Write>(&self, f: &mut fmt::Formatter<W>) -> fmt::Result {
        let Tally {
            calls,
            answers,
            refusals,
            listings,
            empty,
        } = self;
        write!(
            f,
            "{calls} calls compared ({refusals} refused), {listings} full listings ({empty} empty), {answers} answers"
        )
    }
}

//! Scripts: a file of calls, one a line.
use crate::lines::Record;
use crate::options::Options;
use crate::problem::{Misread, Problem};
use listing::{Call, Reply};
use model::Choice;
use std::alloc::Global;
use std::{fmt, fs};

/// Makes the calls of the script behind the pattern, and prints what they reply.
pub(crate) fn run_script(rt: &HostRuntime, mut options: Options) -> Result<(), Problem> {
    let rule = options.rule()?;
    let path = options.last_word()?;
    let script = fs::read_to_string(rt, path.as_str()).map_err(|error| Problem::Unreadable(
        path, error,
    ))?;
    let calls = read_script(rt.alloc(), script.as_str())?;
    let subject = options.subject(rt, rule)?;
    for reply in subject.replies(rt.alloc(), calls)? {
        rt.println(ReplyLine(&reply))?;
    }
    Ok(())
}

/// The calls of a script.
fn read_script(heap: Global, text: &str) -> Result<Vec<Call>, Problem> {
    let mut calls = Vec::new(heap);
    for (number, line) in (1..).zip(text.lines()) {
        let call = read_call(heap, line.trim()).map_err(|misread| misread.or(Problem::Script(
            number,
        )))?;
        calls.push(call)?;
    }
    Ok(calls)
}

fn read_call(heap: Global, line: &str) -> Result<Call, Misread> {
    let (verb, rest) = line.split_once(' ').unwrap_or((line, ""));
    match verb {
        "pose" => read_pose(rest),
        "next" => read_next(heap, rest),
        "again" if rest.is_empty() => Ok(Call::Again),
        "check" => Ok(Call::Check(read_words(heap, rest)?)),
        "resume" => Ok(Call::Resume(read_words(heap, rest)?)),
        _ => Err(Misread::Words),
    }
}

fn read_pose(rest: &str) -> Result<Call, Misread> {
    let (start, others) = rest.split_once(' ').ok_or(Misread::Words)?;
    let (target, choice) = others.split_once(' ').ok_or(Misread::Words)?;
    let (start, target) = (start.parse::<u8>()?, target.parse::<u8>()?);
    // No `FromStr`: `Choice` is the library's, and has these names in scripts alone.
    match choice {
        "all" => Ok(Call::Pose(start, target, Choice::All)),
        "shortest" => Ok(Call::Pose(start, target, Choice::Shortest)),
        _ => Err(Misread::Words),
    }
}

// A buffer of so many words, or else one in which every record has room.
fn read_next(heap: Global, rest: &str) -> Result<Call, Misread> {
    let size = if rest.is_empty() {
        770
    } else {
        rest.parse::<usize>()?
    };
    Ok(Call::Next(vec![in heap; 0u16; size]?))
}

/// Words in decimal with spaces between.
pub(crate) fn read_words(heap: Global, text: &str) -> Result<Vec<u16>, Misread> {
    text.split_whitespace()
        .map(|word| -> Result<u16, Misread> { Ok(word.parse::<u16>()?) })
        .try_collect(heap)
}

/// A reply as a line.
#[derive(Clone, Copy)]
struct ReplyLine<'a>(&'a Reply);

impl fmt::Display for ReplyLine<'_> {
    fn fmt<W: fmt::Write>(&self, f: &mut fmt::Formatter<W>) -> fmt::Result {
        match self.0 {
            Reply::Pose(Ok(())) => write!(f, "posed"),
            Reply::Next(Ok(Some(count)), buffer) => {
                let words = buffer.as_slice();
                let record = Record(&words[..(*count).min(words.len())]);
                write!(f, "{record}")
            }
            Reply::Next(Ok(None), _) => write!(f, "none left"),
            Reply::Again(Ok(())) => write!(f, "again"),
            Reply::Check(Ok(true)) => write!(f, "yes"),
            Reply::Check(Ok(false)) => write!(f, "no"),
            Reply::Resume(Ok(())) => write!(f, "resumed"),
            Reply::Pose(Err(fault))
            | Reply::Next(Err(fault), _)
            | Reply::Again(Err(fault))
            | Reply::Check(Err(fault))
            | Reply::Resume(Err(fault)) => write!(f, "refused: {fault}"),
        }
    }
}

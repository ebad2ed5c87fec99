//! Calls on an enquiry, replies to them, and who replies.
use crate::lister::{Question, Want};
use crate::trouble::Trouble;
use std::alloc::{AllocError, Global};

/// A fault by its number, layer and place.
// Numbers and no enum: they are what the library gives out of its faults, and so what is compared.
#[derive(Clone, Copy, PartialEq, Eq, Debug)]
pub struct Verdict {
    pub number: u8,
    pub layer: u8,
    pub place: usize,
}

/// One call with what it is handed; for next, the length of the buffer.
#[derive(Clone, Copy, Debug, Drop)]
pub enum Call<W> {
    Again,
    Next(usize),
    // a question's parts, so that a difference shows them without their names
    Pose(u8, u8, Want),
    Check(W),
    Resume(W),
}

/// What a call answers.
#[derive(Clone, Copy, PartialEq, Eq, Debug)]
pub enum Reply {
    Done,
    NoneLeft,
    Words(usize),
    Says(bool),
    Refused(Verdict),
}

/// A reply, and the buffer after it.
#[derive(PartialEq, Eq, Drop)]
pub struct Answer {
    pub reply: Reply,
    pub words: Vec<u16>,
}

/// Where lister and library do not agree: the question posed, the call and its number, and both answers.
#[derive(Drop)]
pub struct Difference {
    pub question: Option<Question>,
    pub number: u64,
    pub call: Call<Vec<u16>>,
    pub expected: Answer,
    pub got: Answer,
}

/// Whoever answers calls: the library, or the lister's own enquiry.
pub trait Desk {
    /// Answers one call; next writes to the buffer.
    fn answer(&mut self, call: &Call<Vec<u16>>, buffer: &mut [u16]) -> Result<Reply, Trouble>;
}

impl Call<&'static [u16]> {
    /// The call with words of its own.
    pub(crate) fn owned(self, heap: Global) -> Result<Call<Vec<u16>>, AllocError> {
        Ok(match self {
            Call::Again => Call::Again,
            Call::Next(room) => Call::Next(room),
            Call::Pose(start, target, want) => Call::Pose(start, target, want),
            Call::Check(words) => Call::Check(Vec::from_slice(heap, words)?),
            Call::Resume(words) => Call::Resume(Vec::from_slice(heap, words)?),
        })
    }
}

impl Call<Vec<u16>> {
    /// The answer of a desk whose buffer is filled with that word.
    pub(crate) fn ask<D: Desk>(
        &self,
        heap: Global,
        desk: &mut D,
        filling: u16,
    ) -> Result<Answer, Trouble> {
        let room = match self {
            Call::Next(room) => *room,
            _ => 0,
        };
        let mut words = vec![in heap; filling; room]?;
        let reply = desk.answer(self, words.as_mut_slice())?;
        Ok(Answer { reply, words })
    }
}

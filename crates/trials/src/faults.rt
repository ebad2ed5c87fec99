//! Every fault by example: what is handed in, and the fault that it must meet.
use crate::calls::{Call, Reply, Verdict};
use crate::compare::Task;
use crate::examples::EXAMPLES;
use crate::lister::Want;
use crate::tree::read;
use crate::trouble::Trouble;
use fault::Fault;
use pattern::Pattern;
use plan::{FiledPlan, GridPlan, Sheet};
use std::alloc::Global;

/// What is handed in: a plan file, the sides of a grid, a sheet, a text of so many equal parts, or calls on an
/// enquiry over a floor of four zones, of which the last is refused.
#[derive(Clone, Copy)]
pub enum Input {
    File(&'static [u8]),
    Grid(u8, u8),
    Sheet(&'static [u8]),
    Text(&'static [u8], u16),
    Calls(&'static [Call<&'static [u16]>]),
}

/// An input and its fault.
#[derive(Clone, Copy)]
pub struct FaultExample {
    pub input: Input,
    pub verdict: Verdict,
}

/// An example of every fault.
pub const FAULTS: [FaultExample; 22] = [
    FaultExample {
        input: Input::File(&[4, 5]),
        verdict: Verdict {
            number: 10,
            layer: 1,
            place: 2,
        },
    },
    FaultExample {
        input: Input::File(&[0, 0, 0]),
        verdict: Verdict {
            number: 11,
            layer: 1,
            place: 0,
        },
    },
    FaultExample {
        input: Input::File(&[1, 1, 1]),
        verdict: Verdict {
            number: 12,
            layer: 1,
            place: 1,
        },
    },
    FaultExample {
        input: Input::File(&[1, 0, 0, 0]),
        verdict: Verdict {
            number: 13,
            layer: 1,
            place: 4,
        },
    },
    FaultExample {
        input: Input::File(&[1, 0, 0, 1, 0]),
        verdict: Verdict {
            number: 14,
            layer: 1,
            place: 3,
        },
    },
    FaultExample {
        input: Input::File(&[1, 2, 0, 0, 0, 7, 0, 0, 7, 0, 0]),
        verdict: Verdict {
            number: 15,
            layer: 1,
            place: 8,
        },
    },
    FaultExample {
        input: Input::File(&[1, 1, 0, 0, 0, 7, 1, 0]),
        verdict: Verdict {
            number: 16,
            layer: 1,
            place: 6,
        },
    },
    FaultExample {
        input: Input::File(&[1, 1, 0, 0, 0, 7, 0, 8]),
        verdict: Verdict {
            number: 17,
            layer: 1,
            place: 7,
        },
    },
    FaultExample {
        input: Input::Grid(8, 9),
        verdict: Verdict {
            number: 20,
            layer: 1,
            place: 0,
        },
    },
    FaultExample {
        input: Input::Sheet(&[0; 31]),
        verdict: Verdict {
            number: 21,
            layer: 1,
            place: 31,
        },
    },
    FaultExample {
        input: Input::Text(b" ", 513),
        verdict: Verdict {
            number: 30,
            layer: 2,
            place: 512,
        },
    },
    FaultExample {
        input: Input::Text(b"badge-pin", 1),
        verdict: Verdict {
            number: 31,
            layer: 2,
            place: 5,
        },
    },
    FaultExample {
        input: Input::Text(b"bagde", 1),
        verdict: Verdict {
            number: 32,
            layer: 2,
            place: 0,
        },
    },
    FaultExample {
        input: Input::Text(b"badge ^ pin", 1),
        verdict: Verdict {
            number: 33,
            layer: 2,
            place: 8,
        },
    },
    FaultExample {
        input: Input::Text(b"free ", 32),
        verdict: Verdict {
            number: 34,
            layer: 2,
            place: 155,
        },
    },
    FaultExample {
        input: Input::Text(b"(", 17),
        verdict: Verdict {
            number: 35,
            layer: 2,
            place: 16,
        },
    },
    FaultExample {
        input: Input::Calls(&[Call::Pose(4, 0, Want::All)]),
        verdict: Verdict {
            number: 40,
            layer: 3,
            place: 4,
        },
    },
    FaultExample {
        input: Input::Calls(&[Call::Pose(0, 9, Want::All)]),
        verdict: Verdict {
            number: 41,
            layer: 3,
            place: 9,
        },
    },
    FaultExample {
        input: Input::Calls(&[Call::Pose(0, 3, Want::All), Call::Next(769)]),
        verdict: Verdict {
            number: 42,
            layer: 3,
            place: 769,
        },
    },
    FaultExample {
        input: Input::Calls(&[Call::Pose(0, 3, Want::All), Call::Check(&[257, 0])]),
        verdict: Verdict {
            number: 43,
            layer: 3,
            place: 0,
        },
    },
    FaultExample {
        input: Input::Calls(&[Call::Pose(1, 3, Want::All), Call::Resume(&[0, 0])]),
        verdict: Verdict {
            number: 44,
            layer: 3,
            place: 0,
        },
    },
    FaultExample {
        input: Input::Calls(&[Call::Next(770)]),
        verdict: Verdict {
            number: 45,
            layer: 3,
            place: 0,
        },
    },
];

/// The fault by which the library refuses.
pub(crate) fn refusal<T: Drop>(res: Result<T, Fault>) -> Option<Verdict> {
    res.err().map(Verdict::from)
}

// The fault by which the lister refuses a text.
fn own_refusal(heap: Global, text: &[u8]) -> Result<Option<Verdict>, Trouble> {
    match read(heap, text) {
        Ok(_) => Ok(None),
        Err(Trouble::Refused(verdict)) => Ok(Some(verdict)),
        Err(trouble) => Err(trouble),
    }
}

fn repeated(heap: Global, part: &[u8], times: u16) -> Result<Vec<u8>, Trouble> {
    let mut text = Vec::new(heap);
    for _ in 0..times {
        text.extend_from_slice(part)?;
    }
    Ok(text)
}

impl FaultExample {
    /// Whether the input meets the fault, with its layer and place; a text at the lister too.
    pub(crate) fn holds(&self, heap: Global) -> Result<bool, Trouble> {
        let fault = Some(self.verdict);
        Ok(match self.input {
            Input::File(bytes) => refusal(FiledPlan::open(bytes)) == fault,
            Input::Grid(rows, columns) => refusal(GridPlan::new(rows, columns)) == fault,
            Input::Sheet(bytes) => refusal(Sheet::new(bytes)) == fault,
            Input::Text(part, times) => {
                let text = repeated(heap, part, times)?;
                refusal(Pattern::read(text.as_slice())) == fault
                    && own_refusal(heap, text.as_slice())? == fault
            }
            Input::Calls(calls) => last_reply(heap, calls)? == Some(Reply::Refused(self.verdict)),
        })
    }
}

// What the last of the calls is answered; nothing where there is no enquiry.
fn last_reply(
    heap: Global,
    calls: &'static [Call<&'static [u16]>],
) -> Result<Option<Reply>, Trouble> {
    match EXAMPLES[0].run(heap, Task::Calls(calls)) {
        Ok(trial) => Ok(trial.last),
        Err(Trouble::Refused(_)) => Ok(None),
        Err(trouble) => Err(trouble),
    }
}

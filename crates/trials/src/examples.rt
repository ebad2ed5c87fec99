//! Worked examples: floors, questions and the records that they must list.
use crate::cases::{Case, Source};
use crate::compare::{Task, Trial};
use crate::library::run;
use crate::lister::{Line, Question, Want};
use crate::random::Random;
use crate::reference::Reference;
use crate::routes::Restrictor;
use crate::trouble::Trouble;
use std::alloc::Global;

const FLOOR_E: [u8; 26] = [
    4, 5, 0, 0, 0, 2, 0, 4, 0, 5, 0, 0, 1, 1, 1, 2, 1, 2, 3, 2, 4, 2, 0, 3, 3, 2,
];

const FLOOR_L: [u8; 8] = [1, 1, 0, 0, 0, 7, 0, 0];

const FLOOR_TWO: [u8; 13] = [2, 2, 0, 0, 0, 1, 0, 0, 1, 0, 6, 0, 0];

/// A floor, perhaps with one passage shut, a pattern, a rule, a question and the records of its listing, one behind
/// the other.
#[derive(Clone, Copy)]
pub struct Example {
    source: Source<&'static [u8]>,
    shut: Option<u8>,
    text: &'static [u8],
    rule: Restrictor,
    question: Question,
    records: &'static [u16],
}

/// The examples; faults of enquiries are met on the floor of the first.
pub const EXAMPLES: [Example; 12] = [
    Example {
        source: Source::File(&FLOOR_E),
        shut: None,
        text: b"badge^A free? pin^B",
        rule: Restrictor::Trail,
        question: Question {
            start: 0,
            target: 3,
            want: Want::All,
        },
        records: &[
            2, 0, 0, 1, 1, 2, 3, 2, 3, 0, 0, 1, 1, 4, 2, 0, 3, 3, 2, 2, 0, 1, 2, 1, 3, 3, 2,
        ],
    },
    Example {
        source: Source::File(&FLOOR_E),
        shut: None,
        text: b"badge^A free? pin^B",
        rule: Restrictor::Trail,
        question: Question {
            start: 0,
            target: 3,
            want: Want::Shortest,
        },
        records: &[2, 0, 0, 1, 1, 2, 3, 2, 2, 0, 1, 2, 1, 3, 3, 2],
    },
    Example {
        source: Source::File(&FLOOR_E),
        shut: None,
        text: b"badge^A pin | badge^A pin",
        rule: Restrictor::Trail,
        question: Question {
            start: 0,
            target: 3,
            want: Want::All,
        },
        records: &[2, 0, 0, 1, 1, 2, 3, 0, 2, 0, 1, 2, 1, 3, 3, 0],
    },
    Example {
        source: Source::File(&FLOOR_E),
        shut: None,
        text: b"badge^A pin | badge pin^A",
        rule: Restrictor::Trail,
        question: Question {
            start: 0,
            target: 3,
            want: Want::All,
        },
        records: &[
            2, 0, 0, 1, 0, 2, 3, 1, 2, 0, 0, 1, 1, 2, 3, 0, 2, 0, 1, 2, 0, 3, 3, 1, 2, 0, 1, 2, 1,
            3, 3, 0,
        ],
    },
    Example {
        source: Source::File(&FLOOR_L),
        shut: None,
        text: b"free*",
        rule: Restrictor::Trail,
        question: Question {
            start: 0,
            target: 0,
            want: Want::All,
        },
        records: &[0, 0, 1, 0, 7, 0, 0],
    },
    Example {
        source: Source::File(&FLOOR_L),
        shut: None,
        text: b"free*",
        rule: Restrictor::Simple,
        question: Question {
            start: 0,
            target: 0,
            want: Want::All,
        },
        records: &[0, 0, 1, 0, 7, 0, 0],
    },
    Example {
        source: Source::File(&FLOOR_L),
        shut: None,
        text: b"free*",
        rule: Restrictor::Acyclic,
        question: Question {
            start: 0,
            target: 0,
            want: Want::All,
        },
        records: &[0, 0],
    },
    Example {
        source: Source::File(&FLOOR_L),
        shut: None,
        text: b"free free",
        rule: Restrictor::Trail,
        question: Question {
            start: 0,
            target: 0,
            want: Want::All,
        },
        records: &[],
    },
    Example {
        source: Source::Grid(2, 2),
        shut: None,
        text: b"any any",
        rule: Restrictor::Simple,
        question: Question {
            start: 0,
            target: 3,
            want: Want::All,
        },
        records: &[2, 0, 0, 1, 0, 5, 3, 0, 2, 0, 1, 2, 0, 8, 3, 0],
    },
    Example {
        source: Source::Grid(2, 2),
        shut: Some(5),
        text: b"any any",
        rule: Restrictor::Simple,
        question: Question {
            start: 0,
            target: 3,
            want: Want::All,
        },
        records: &[2, 0, 1, 2, 0, 8, 3, 0],
    },
    Example {
        source: Source::Grid(1, 2),
        shut: None,
        text: b"free^A*",
        rule: Restrictor::Trail,
        question: Question {
            start: 0,
            target: 1,
            want: Want::All,
        },
        records: &[1, 0, 0, 1, 1],
    },
    Example {
        source: Source::File(&FLOOR_TWO),
        shut: None,
        text: b"free^A*",
        rule: Restrictor::Trail,
        question: Question {
            start: 0,
            target: 1,
            want: Want::All,
        },
        records: &[1, 0, 0, 1, 1],
    },
];

impl Example {
    // The example's floor, pattern and rule.
    fn case(&self, heap: Global) -> Result<Case, Trouble> {
        let mut sheets = Vec::new(heap);
        if let Some(number) = self.shut {
            sheets.push(vec![in heap; number]?)?;
        }
        Ok(Case {
            source: match self.source {
                Source::Grid(rows, columns) => Source::Grid(rows, columns),
                Source::File(bytes) => Source::File(Vec::from_slice(heap, bytes)?),
            },
            sheets,
            text: Vec::from_slice(heap, self.text)?,
            rule: self.rule,
        })
    }

    /// A trial on the example's floor, run to its end; refused where the floor or the pattern is.
    pub(crate) fn run(&self, heap: Global, task: Task) -> Result<Trial, Trouble> {
        let case = self.case(heap)?;
        let reference = Reference::new(case.lister(heap)?);
        let mut trial = Trial::new(heap, reference, Random::new(0, 0), task);
        run(&case, &mut trial)?;
        Ok(trial)
    }

    /// Whether lister and library both list the records.
    pub(crate) fn holds(&self, heap: Global) -> Result<bool, Trouble> {
        match self.run(heap, Task::Listing(self.question)) {
            Ok(trial) => Ok(self.are_records(trial.reference.lines())),
            Err(Trouble::Refused(_)) => Ok(false),
            Err(trouble) => Err(trouble),
        }
    }

    fn are_records(&self, lines: &[Line]) -> bool {
        let words = lines.iter().flat_map(|line| line.words.iter());
        words.eq(self.records.iter())
    }
}

//! Faults: why an input was refused.
//!
//! Every fault belongs to one layer (1 plan, 2 pattern, 3 enquiry), has a number of its own and names
//! the place at which the input breaks a rule. `specs/Faults.antt` lists each case with its number,
//! layer and place; `number`, `layer` and `place` answer by that list.
#![tactic(auto)]

ghost use Rattle.std.specs.Prelude.{◌≡◌};
ghost use Rattle.fault.specs.declared.Fault.TheVariants.{Plan, Pattern, Enquiry};
ghost use Rattle.fault.specs.Faults.{number_of, layer_of, place_of, plan_number, plan_place, pattern_number, pattern_place, enquiry_number, enquiry_place};

mod words;

/// What is wrong with a plan file, a grid or a closure sheet.
#[derive(Clone, Copy, PartialEq, Eq, Debug)]
pub enum PlanFault {
    /// fewer than three bytes
    Short(usize),
    /// no zone, or more than 64
    Zones(usize),
    /// more than 256 passages
    Passages(usize),
    /// not as many bytes as the zones and passages take
    Length(usize),
    /// an entry of the contents that starts wrongly, falls or passes the last body
    Entry(usize),
    /// a passage number that an earlier body has
    Repeated(usize),
    /// a destination that is no zone
    Destination(usize),
    /// a kind over 7
    Kind(usize),
    /// a grid without cells, or with more than 64
    Cells(usize),
    /// a closure sheet that has not 32 bytes
    Sheet(usize),
}

/// What is wrong with a pattern text.
#[derive(Clone, Copy, PartialEq, Eq, Debug)]
pub enum PatternFault {
    /// more than 512 bytes
    Long(usize),
    /// a byte that no token has
    Byte(usize),
    /// a name that is no kind, nor `any` or `empty`
    Unknown(usize),
    /// a token, or the end, where no pattern goes on so
    Misplaced(usize),
    /// the 32nd name
    Names(usize),
    /// the 17th parenthesis that is open
    Nested(usize),
}

/// What is wrong with a call on an enquiry.
#[derive(Clone, Copy, PartialEq, Eq, Debug)]
pub enum EnquiryFault {
    /// a start that is no zone
    Start(usize),
    /// a target that is no zone
    Target(usize),
    /// a buffer of fewer than 770 words
    Buffer(usize),
    /// words that are no record
    Malformed(usize),
    /// a record that is no answer
    NotAnswer(usize),
    /// a call before a question is posed
    Unposed(usize),
}

/// One fault, by its layer.
#[derive(Clone, Copy, PartialEq, Eq, Debug)]
pub enum Fault {
    Plan(PlanFault),
    Pattern(PatternFault),
    Enquiry(EnquiryFault),
}

// The layers' cases differ, so each has its own list of numbers and places.
impl PlanFault {
    fn number(self) -> u8
        ensures { result ≡ plan_number self }
    {
        match self {
            PlanFault::Short(_) => 10,
            PlanFault::Zones(_) => 11,
            PlanFault::Passages(_) => 12,
            PlanFault::Length(_) => 13,
            PlanFault::Entry(_) => 14,
            PlanFault::Repeated(_) => 15,
            PlanFault::Destination(_) => 16,
            PlanFault::Kind(_) => 17,
            PlanFault::Cells(_) => 20,
            PlanFault::Sheet(_) => 21,
        }
    }

    fn place(self) -> usize
        ensures { result ≡ plan_place self }
    {
        match self {
            PlanFault::Short(at)
            | PlanFault::Zones(at)
            | PlanFault::Passages(at)
            | PlanFault::Length(at)
            | PlanFault::Entry(at)
            | PlanFault::Repeated(at)
            | PlanFault::Destination(at)
            | PlanFault::Kind(at)
            | PlanFault::Cells(at)
            | PlanFault::Sheet(at) => at,
        }
    }
}

impl PatternFault {
    fn number(self) -> u8
        ensures { result ≡ pattern_number self }
    {
        match self {
            PatternFault::Long(_) => 30,
            PatternFault::Byte(_) => 31,
            PatternFault::Unknown(_) => 32,
            PatternFault::Misplaced(_) => 33,
            PatternFault::Names(_) => 34,
            PatternFault::Nested(_) => 35,
        }
    }

    fn place(self) -> usize
        ensures { result ≡ pattern_place self }
    {
        match self {
            PatternFault::Long(at)
            | PatternFault::Byte(at)
            | PatternFault::Unknown(at)
            | PatternFault::Misplaced(at)
            | PatternFault::Names(at)
            | PatternFault::Nested(at) => at,
        }
    }
}

impl EnquiryFault {
    fn number(self) -> u8
        ensures { result ≡ enquiry_number self }
    {
        match self {
            EnquiryFault::Start(_) => 40,
            EnquiryFault::Target(_) => 41,
            EnquiryFault::Buffer(_) => 42,
            EnquiryFault::Malformed(_) => 43,
            EnquiryFault::NotAnswer(_) => 44,
            EnquiryFault::Unposed(_) => 45,
        }
    }

    fn place(self) -> usize
        ensures { result ≡ enquiry_place self }
    {
        match self {
            EnquiryFault::Start(at)
            | EnquiryFault::Target(at)
            | EnquiryFault::Buffer(at)
            | EnquiryFault::Malformed(at)
            | EnquiryFault::NotAnswer(at)
            | EnquiryFault::Unposed(at) => at,
        }
    }
}

impl Fault {
    pub fn number(self) -> u8
        ensures { result ≡ number_of self }
    {
        match self {
            Fault::Plan(f) => f.number(),
            Fault::Pattern(f) => f.number(),
            Fault::Enquiry(f) => f.number(),
        }
    }

    pub fn layer(self) -> u8
        ensures { result ≡ layer_of self }
    {
        match self {
            Fault::Plan(_) => 1,
            Fault::Pattern(_) => 2,
            Fault::Enquiry(_) => 3,
        }
    }

    pub fn place(self) -> usize
        ensures { result ≡ place_of self }
    {
        match self {
            Fault::Plan(f) => f.place(),
            Fault::Pattern(f) => f.place(),
            Fault::Enquiry(f) => f.place(),
        }
    }
}

impl From<PlanFault> for Fault {
    ghost from_gives = { λ f r. r ≡ Plan f };

    fn from(fault: PlanFault) -> Fault {
        Fault::Plan(fault)
    }
}

impl From<PatternFault> for Fault {
    ghost from_gives = { λ f r. r ≡ Pattern f };

    fn from(fault: PatternFault) -> Fault {
        Fault::Pattern(fault)
    }
}

impl From<EnquiryFault> for Fault {
    ghost from_gives = { λ f r. r ≡ Enquiry f };

    fn from(fault: EnquiryFault) -> Fault {
        Fault::Enquiry(fault)
    }
}

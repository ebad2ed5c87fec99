//! Faults in words that a person can act on.
use crate::{EnquiryFault, Fault, PatternFault, PlanFault};
use std::error::Error;
use std::fmt;

impl fmt::Display for PlanFault {
    fn fmt<W: fmt::Write>(&self, f: &mut fmt::Formatter<W>) -> fmt::Result {
        f.pad(match self {
            PlanFault::Short(_) => "a plan file has at least 3 bytes",
            PlanFault::Zones(_) => "a plan has 1 to 64 zones",
            PlanFault::Passages(_) => "a plan has at most 256 passages",
            PlanFault::Length(_) =>
                "the file is longer or shorter than its zones and passages take",
            PlanFault::Entry(_) =>
                "the first entry of the contents is 0, and entries neither fall nor pass the last passage",
            PlanFault::Repeated(_) => "an earlier passage has this number already",
            PlanFault::Destination(_) => "the destination is no zone of this plan",
            PlanFault::Kind(_) => "a kind is 0 to 7",
            PlanFault::Cells(_) => "a grid has 1 to 64 cells",
            PlanFault::Sheet(_) => "a closure sheet has 32 bytes",
        })
    }
}

impl fmt::Display for PatternFault {
    fn fmt<W: fmt::Write>(&self, f: &mut fmt::Formatter<W>) -> fmt::Result {
        f.pad(match self {
            PatternFault::Long(_) => "a pattern has at most 512 bytes",
            PatternFault::Byte(_) =>
                "a pattern is written with small letters, A to H, spaces and ^ | * + ? ( )",
            PatternFault::Unknown(_) =>
                "the names are free, badge, pin, turn, lift, fire, dock, stair, any and empty",
            PatternFault::Misplaced(_) => "no pattern goes on like this",
            PatternFault::Names(_) => "a pattern has at most 31 names besides empty",
            PatternFault::Nested(_) => "at most 16 parentheses are open together",
        })
    }
}

impl fmt::Display for EnquiryFault {
    fn fmt<W: fmt::Write>(&self, f: &mut fmt::Formatter<W>) -> fmt::Result {
        f.pad(match self {
            EnquiryFault::Start(_) => "the start is no zone of this plan",
            EnquiryFault::Target(_) => "the target is no zone of this plan",
            EnquiryFault::Buffer(_) => "a buffer for a record has at least 770 words",
            EnquiryFault::Malformed(_) => "these words are no record",
            EnquiryFault::NotAnswer(_) => "this record is no answer to the question",
            EnquiryFault::Unposed(_) => "no question has been posed yet",
        })
    }
}

// Number, layer and place, and then what is wrong.
impl fmt::Display for Fault {
    fn fmt<W: fmt::Write>(&self, f: &mut fmt::Formatter<W>) -> fmt::Result {
        let (number, layer, place) = (self.number(), self.layer(), self.place());
        write!(f, "fault {number} layer {layer} place {place}: ")?;
        match self {
            Fault::Plan(fault) => write!(f, "{fault}"),
            Fault::Pattern(fault) => write!(f, "{fault}"),
            Fault::Enquiry(fault) => write!(f, "{fault}"),
        }
    }
}

impl Error for PlanFault {}

impl Error for PatternFault {}

impl Error for EnquiryFault {}

impl Error for Fault {}

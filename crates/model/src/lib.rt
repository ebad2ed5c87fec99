//! The subject in its own words: plans, routes, patterns, rules, answers, records, their order, questions,
//! the five calls on an enquiry and runs of calls; and the theorems about them.
//!
//! The definitions stand in `specs/`, one page for each, and everything that the other crates promise is
//! said by them. No enquiry runs here. The code is two enums of the vocabulary, and in `theorems` one
//! function for each theorem, whose contract is the theorem: without its proof the crate is refused.
#![tactic(auto)]

mod theorems;

use std::fmt;
pub use theorems::{
    calls_have_one_run, examples_come_out, greatest_lengths_are_reached, law_of_listings,
    law_of_next, listings_end, patterns_keep_laws, plan_edges_hold, records_keep_laws,
    rules_are_restrictors, worked_calls_come_out,
};

/// What a name of a pattern fits: the passages of one kind, or all.
// A kind is a number, as plans answer it, and the laws of patterns hold for every number: an enum would ask more.
#[derive(Clone, Copy, PartialEq, Eq, Debug)]
pub enum Label {
    Kind(u8),
    Any,
}

/// The name as a pattern has it; a kind that no plan has goes by the last name.
impl fmt::Display for Label {
    fn fmt<W: fmt::Write>(&self, f: &mut fmt::Formatter<W>) -> fmt::Result {
        f.pad(match self {
            Label::Kind(0) => "free",
            Label::Kind(1) => "badge",
            Label::Kind(2) => "pin",
            Label::Kind(3) => "turn",
            Label::Kind(4) => "lift",
            Label::Kind(5) => "fire",
            Label::Kind(6) => "dock",
            Label::Kind(_) => "stair",
            Label::Any => "any",
        })
    }
}

/// Which answers a question wants.
#[derive(Clone, Copy, PartialEq, Eq, Debug)]
pub enum Choice {
    All,
    Shortest,
}

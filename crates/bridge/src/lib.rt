//! What the search finds are the answers of the enquiry.
//!
//! Theorems only. The search of crate `search` goes through a space of tracks, and asks an automaton; the answers of
//! crate `model` are routes with lists that a pattern gives, that a rule allows, and that go from start to target.
//! `answers_agree` says that the two are the same, and `readings_agree` that the words which a pattern reads are the
//! outputs which it gives.
//!
//! `specs/Lines.antt` says which record a track writes down, and how a pattern sees the lines of a record;
//! `specs/Ahead.antt` says how lines lead on from a track; `specs/Statement.antt` holds the two theorems.
#![tactic(auto)]

ghost use Rattle.bridge.specs.Statement.{AnswersAgree, ReadingsAgree};

/// The answers of the search are the answers of the enquiry. For every plan, pattern and lawful rule, every
/// automaton that recognises the pattern, every question that starts in a zone of the plan and every greatest
/// length: a track from the start that stands in the space and is final there writes down a candidate; the
/// lines of each candidate that is no longer than the greatest length are a goal of the space; and no
/// candidate is longer than the rule's limit.
pub fn answers_agree()
    ensures { AnswersAgree }
{}

/// Words and outputs agree, for every plan and pattern. The outputs of the pattern are what is written down by those
/// records of paths whose lines the pattern reads; and where no passage repeats, a record writes down an output
/// exactly when the pattern reads its lines.
pub fn readings_agree()
    ensures { ReadingsAgree }
{}

//! Enquiries: a plan, a pattern and a rule, and the five calls on them.
//!
//! Each call does what crate `model` says of it (`model/specs/Calls.antt`), for every plan, every lawful rule and
//! every tree that the pattern recognises. The clause `relation` of a call says so of every enquiry that keeps
//! what it should (`specs/Promises.antt`, `Kept`); a new enquiry does, and every call keeps it. The other clauses
//! have no premise: plan, rule and pattern never change, and a refusal changes nothing.
#![tactic(auto)]

mod calls;
mod checks;
mod formed;
mod walk;
mod written;

pub use calls::Enquiry;

//! On top of the five calls: whole lists of calls, and two listings side by side.
//!
//! `replay` reads a pattern text, makes a new enquiry and runs a list of calls on it. Its contract has no premise: what
//! it returns is the one run of these calls on the one tree of the text, so every next among them that is not
//! refused says none left exactly when no answer is to come, and otherwise delivers the first one to come; and every
//! full listing among them equals one of any other enquiry exactly when the two have the same answers
//! (`specs/Events.antt`).
//!
//! `same_listing` lists two questions side by side, which may differ in everything, and says whether the listings are
//! equal: exactly when the two have the same answers (`specs/Queries.antt`).
#![tactic(auto)]

mod call;
mod compare;
mod perform;
mod query;
mod replays;

pub use call::{Call, Reply, Trouble};
pub use compare::same_listing;
pub use query::Query;
pub use replays::replay;

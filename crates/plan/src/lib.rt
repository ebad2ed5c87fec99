//! Floor plans: what they mean, and three ways of having one.
//!
//! A plan has 1 to 64 zones and passages numbered 0 to 255, and answers three questions: how many zones
//! there are, what a passage number names, and which passage leaves a zone next. The trait `Plan` ties the
//! answers of every implementation to one meaning (`model/specs/Plans.antt`).
//!
//! - `FiledPlan` is read from the bytes of a file (`specs/Filed.antt`: what the bytes say;
//!   `specs/FiledLaw.antt`: the same in words, and which fault is the first).
//! - `GridPlan` computes a rectangular floor (`specs/Grid.antt`).
//! - `Closure` is any plan without the passages that a `Sheet` shuts (`specs/Shut.antt`).
#![tactic(auto)]

mod bytes;
mod closure;
mod filed;
mod grid;
mod questions;
mod sheet;

pub use closure::Closure;
pub use filed::FiledPlan;
pub use grid::GridPlan;
pub use questions::Plan;
pub use sheet::Sheet;

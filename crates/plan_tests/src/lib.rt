//! Plans by example: every fault with its bytes and place, and the edges of what is accepted.
#![tactic(auto)]

#[cfg(test)]
mod closures;
#[cfg(test)]
mod files;
#[cfg(test)]
mod grids;
#[cfg(test)]
mod verdicts;

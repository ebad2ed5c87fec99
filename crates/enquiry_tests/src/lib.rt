//! Enquiries by example: listings, faults and their order, and how the calls follow one another.
#![tactic(auto)]

#[cfg(test)]
mod faults;
#[cfg(test)]
mod floor;
#[cfg(test)]
mod listings;
#[cfg(test)]
mod standing;

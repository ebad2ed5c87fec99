//! Sets of small numbers as the bits of a number.
//!
//! `specs/Bit.antt` says what it means that a bit is set, and `proofs/Bit.antt` how that goes through
//! `&`, `|` and `1 << k`. The crates that keep sets as masks share both; there is no code here.
#![tactic(auto)]

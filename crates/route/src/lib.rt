//! The route record and the passing rules.
//!
//! `Route` is the record that a search fills, one step at a time: passage, zone reached, mark and the
//! mask of the states after it. `specs/Reading.antt` reads it in two ways. `route_of` is the model's route, the
//! first `len` steps in turn without marks and masks; `track_of` is the same with them, newest step first,
//! so that `push` is one more in front. `proofs/Views.antt` shows that the two agree.
//!
//! A passing rule implements `Rule`. Its ghost `meaning` is a `RuleMeaning` of crate `model`, so it sees
//! start, passages and zones and never marks or masks, and it owes two laws: an allowed route uses no
//! passage twice, and is no longer than the greatest length that the rule states. `Trail`, `Acyclic` and `Simple`
//! mean `trail`, `acyclic` and `simple` of crate `model`, whose theorem `Restrictors` says that they allow exactly
//! the trails, the acyclic and the simple routes.
//!
//! No allowed route of a plan has more than 256 passages, since none repeats, whatever a rule states: that is
//! the theorem of `routes_are_short`, and `length_limit` is the smaller of the two numbers.
#![tactic(auto)]

ghost use Rattle.std.specs.Prelude.{◌≡◌, ◌≤◌};

pub mod passing;
pub mod restrictors;
pub mod steps;

pub use passing::{Rule, length_limit, routes_are_short};
pub use restrictors::{Acyclic, Simple, Trail};

/// A route of at most 256 steps, oldest first; entries from `len` on say nothing.
// Plain arrays: an enquiry holds it without a heap, and copies it out before a rule is asked.
#[derive(Clone, Copy)]
pub struct Route {
    pub start: u8,
    pub passages: [u8; 256],
    pub zones: [u8; 256],
    pub marks: [u8; 256],
    pub masks: [u32; 256],
    pub len: usize,
    ghost fits: { len ≤ 256 },
}

impl Route {
    /// The route of no step that stands in the zone `start`.
    pub fn new(start: u8) -> Self
        ensures { (result.start ≡ start) × (result.len ≡ 0) }
    {
        Route {
            start,
            passages: [0; 256],
            zones: [0; 256],
            marks: [0; 256],
            masks: [0; 256],
            len: 0,
        }
    }
}

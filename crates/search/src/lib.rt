//! The one search, for every plan and every rule.
//!
//! `Search::advance` moves a cursor to the answer that comes next, in record order, or says that there is none; `arrive`
//! puts that answer into a route that is lent, and `next_answer` hands it back.
//! The promise is stated over an abstract space of tracks (`specs/Spaces.antt`, `specs/Listings.antt`): which steps may
//! be added where, and which tracks are answers. `specs/Hunts.antt` is the space of an enquiry, and
//! `specs/Trails.antt` the track at which a listing stands.
#![tactic(auto)]

mod cursor;
mod progress;
mod search;

pub use cursor::Cursor;
pub use progress::Progress;
pub use search::Search;

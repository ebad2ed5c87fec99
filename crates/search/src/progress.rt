//! Where a listing stands.
ghost use Rattle.std.specs.Prelude.{◌≡◌};
ghost use Rattle.route.specs.Reading.{track_of};
ghost use Rattle.search.specs.Trails.{trail};

use route::Route;

/// Where a listing stands: before its first answer, in the zone where its routes start, or behind an answer.
#[derive(Clone, Copy)]
pub enum Progress {
    AtFront(u8),
    Behind(Route),
}

impl Progress {
    /// The route from which the search goes on.
    pub fn route(&self) -> Route
        ensures { track_of result ≡ trail self.now }
    {
        match self {
            Progress::AtFront(start) => Route::new(*start),
            Progress::Behind(route) => *route,
        }
    }

    /// The zone where the routes start.
    pub fn start(&self) -> u8
        ensures { result ≡ (trail self.now).start }
    {
        match self {
            Progress::AtFront(start) => *start,
            Progress::Behind(route) => route.start,
        }
    }
}

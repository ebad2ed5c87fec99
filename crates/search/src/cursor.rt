//! The question of a listing, and where it stands.
ghost use Rattle.std.specs.Prelude.{◌≤◌};

use crate::progress::Progress;
use model::Choice;

/// The question of a listing, the greatest length of its answers, and where it stands.
#[derive(Clone, Copy)]
pub struct Cursor {
    pub choice: Choice,
    pub target: u8,
    pub most: usize,
    pub progress: Progress,
    ghost short: { most ≤ 256 },
}

impl Cursor {
    ghost use Rattle.std.specs.Prelude.{◌≡◌};
    ghost use Rattle.search.specs.Trails.{placed};

    /// The same question, standing elsewhere.
    pub fn with_progress(&self, progress: Progress) -> Cursor
        ensures { result ≡ placed self.now progress }
    {
        Cursor {
            choice: self.choice,
            target: self.target,
            most: self.most,
            progress,
        }
    }
}

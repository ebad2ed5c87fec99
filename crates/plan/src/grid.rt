//! A rectangular floor whose passages are computed.
ghost use Rattle.std.specs.Prelude.{◌≡◌, ℕ, ◌*◌, ◌<◌, ◌≤◌, Some, None, MatchResult};
ghost use Rattle.model.specs.Plans.{PlanMeaning, triple, LeastLeaving};
ghost use Rattle.plan.specs.Grid.{grid_fault, grid_passage};
ghost use Rattle.plan.specs.GridMeaning.{grid};
ghost use Rattle.plan.specs.Filed.{layered};

use crate::questions::Plan;
use fault::{Fault, PlanFault};

/// Rows and columns of cells; every cell is a zone, with a passage to each neighbour.
#[derive(Clone, Copy)]
pub struct GridPlan {
    rows: u8,
    columns: u8,
    ghost some: { 1 ≤ rows * columns },
    ghost few: { rows * columns ≤ 64 },
}

impl GridPlan {
    /// The grid with that many rows and columns, 1 to 64 cells in all.
    pub fn new(rows: u8, columns: u8) -> Result<GridPlan, Fault>
        ensures { MatchResult result (λ g. (grid_fault rows columns ≡ None) × (g.rows ≡ rows) × (g.columns ≡ columns)) (λ f. Some f ≡ layered (grid_fault rows columns)) }
    {
        let cells = rows as usize * columns as usize;
        if cells == 0 || cells > 64 {
            return Err(PlanFault::Cells(0).into());
        }
        Ok(GridPlan { rows, columns })
    }
}

impl Plan for GridPlan {
    ghost meaning = { λ s. grid s.rows s.columns s.some s.few };

    fn zones(&self) -> u8 {
        self.rows * self.columns
    }

    fn passage(&self, number: usize) -> Option<(u8, u8, u8)> {
        let zone = number / 4;
        let rows = self.rows as usize;
        let columns = self.columns as usize;
        if zone >= rows * columns {
            return None;
        }
        let row = zone / columns;
        let column = zone % columns;
        // Below 64, as every zone is; `try_from` would add a case that never comes.
        let here = zone as u8;
        match number % 4 {
            0 => (column + 1 < columns).then(|| (here, here + 1, 0)),
            1 => (row + 1 < rows).then(|| (here, here + self.columns, 1)),
            2 => (column > 0).then(|| (here, here - 1, 0)),
            _ => (row > 0).then(|| (here, here - self.columns, 1)),
        }
    }

    fn leaving(&self, zone: u8, from: usize) -> Option<u8> {
        let first = 4 * zone as usize;
        (first.max(from)..first + 4)
            .find(|number| self.passage(*number).is_some())
            .map(|number| number as u8)
    }
}

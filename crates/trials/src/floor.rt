//! Floors as plain lists of passages, read from the same bytes as the library's plans.
ghost use Rattle.std.specs.Prelude.{◌<◌};

use crate::kinds::{KINDS, Kind};
use crate::trouble::Trouble;
use std::alloc::Global;

#[derive(Clone, Copy)]
pub struct Passage {
    pub number: u8,
    pub origin: u8,
    pub destination: u8,
    pub kind: Kind,
}

/// How many zones there are, and every passage, in no order.
#[derive(Drop)]
pub struct Floor {
    pub zones: u8,
    pub passages: Vec<Passage>,
}

// The number of two bytes, the lower one first.
fn pair(bytes: &[u8], at: usize) -> usize {
    match bytes.get(at..) {
        Some([low, high, ..]) => u16::from_le_bytes([*low, *high]) as usize,
        _ => 0,
    }
}

impl Floor {
    /// The floor that a plan file describes; the file is taken to be sound.
    pub(crate) fn from_file(heap: Global, bytes: &[u8]) -> Result<Floor, Trouble> {
        let mut floor = Floor {
            zones: bytes.first().copied().unwrap_or(0),
            passages: Vec::new(heap),
        };
        for zone in 0..floor.zones {
            floor.add_bodies(bytes, zone)?;
        }
        Ok(floor)
    }

    // The bodies of a zone run from its entry to the next zone's, those of the last zone to the end.
    fn add_bodies(&mut self, bytes: &[u8], zone: u8) -> Result<(), Trouble> {
        let entry = 3 + 2 * zone as usize;
        let first = pair(bytes, entry);
        let last = if zone.saturating_add(1) < self.zones {
            pair(bytes, entry + 2)
        } else {
            pair(bytes, 1)
        };
        let bodies = bytes.get(3 + 2 * self.zones as usize..).unwrap_or(&[]);
        for body in bodies.chunks_exact(3).take(last).skip(first) {
            if let [number, destination, kind] = body
                && let Some(kind) = KINDS.get(*kind as usize)
            {
                self.passages.push(Passage {
                    number: *number,
                    origin: zone,
                    destination: *destination,
                    kind: *kind,
                })?;
            }
        }
        Ok(())
    }

    /// A grid of cells with a passage to each neighbour; there are at most 64 cells.
    pub(crate) fn from_grid(heap: Global, rows: u8, columns: u8) -> Result<Floor, Trouble> {
        let mut floor = Floor {
            zones: (rows as u16 * columns as u16).min(64) as u8,
            passages: Vec::new(heap),
        };
        for cell in 0..floor.zones {
            floor.add_cell(cell, rows, columns)?;
        }
        Ok(floor)
    }

    // The passages of a cell have four numbers of their own, one for each side, be there a passage or not.
    fn add_cell(&mut self, cell: u8, rows: u8, columns: u8) -> Result<(), Trouble>
        requires { cell < 64 }
    {
        if columns == 0 {
            return Ok(());
        }
        let row = cell / columns;
        let column = cell % columns;
        let sides = [
            (columns - column > 1, cell + 1, Kind::Free),
            (
                rows.saturating_sub(row) > 1,
                cell.saturating_add(columns),
                Kind::Badge,
            ),
            (column > 0, cell.saturating_sub(1), Kind::Free),
            (row > 0, cell.saturating_sub(columns), Kind::Badge),
        ];
        for (number, (open, destination, kind)) in (4 * cell..=4 * cell + 3).zip(sides) {
            if open {
                self.passages.push(Passage {
                    number,
                    origin: cell,
                    destination,
                    kind,
                })?;
            }
        }
        Ok(())
    }

    /// Shuts the passages of these numbers.
    pub(crate) fn shut(&mut self, numbers: &[u8]) {
        self.passages
            .retain(|passage| !numbers.contains(&passage.number));
    }
}

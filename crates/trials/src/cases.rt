//! A floor, a pattern text and a rule, as bytes that lister and library both read.
use crate::floor::Floor;
use crate::lister::Lister;
use crate::routes::Restrictor;
use crate::tree::read;
use crate::trouble::Trouble;
use std::alloc::Global;

/// Where a floor comes from: a grid of rows and columns, or the bytes of a plan file.
#[derive(Clone, Copy, Drop)]
pub enum Source<B> {
    Grid(u8, u8),
    File(B),
}

/// What an enquiry is made of; each sheet is a list of passages to shut, one closure on the other.
#[derive(Drop)]
pub struct Case {
    pub source: Source<Vec<u8>>,
    pub sheets: Vec<Vec<u8>>,
    pub text: Vec<u8>,
    pub rule: Restrictor,
}

impl Case {
    /// The lister of the case; refused where the text is.
    pub(crate) fn lister(&self, heap: Global) -> Result<Lister, Trouble> {
        Ok(Lister {
            heap,
            tree: read(heap, self.text.as_slice())?,
            floor: self.floor(heap)?,
            rule: self.rule,
        })
    }

    /// The floor as the lister sees it.
    pub(crate) fn floor(&self, heap: Global) -> Result<Floor, Trouble> {
        let mut floor = match &self.source {
            Source::Grid(rows, columns) => Floor::from_grid(heap, *rows, *columns)?,
            Source::File(bytes) => Floor::from_file(heap, bytes.as_slice())?,
        };
        for sheet in self.sheets.iter() {
            floor.shut(sheet.as_slice());
        }
        Ok(floor)
    }
}

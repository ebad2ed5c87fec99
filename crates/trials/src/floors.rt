//! Random floors as plan files and grids, with passages shut. The heap is handed on by value and the random numbers are
//! lent, so the two are no struct.
use crate::cases::Source;
use crate::floor::{Floor, Passage};
use crate::kinds::Kind;
use crate::random::Random;
use crate::trouble::Trouble;
use std::alloc::Global;

/// What a pattern over a floor should name: so many kinds from the first on, in a circle; on a long floor, where
/// marks have too many ways to fall, every name with the same letter or none.
// whether a floor is long has no value beside it: both sorts have the same kinds
#[derive(Clone, Copy)]
pub struct Kinds {
    first: u8,
    count: u8,
    pub long: bool,
}

impl Kinds {
    pub(crate) fn pick(self, random: &mut Random) -> Kind {
        Kind::in_circle(self.first.wrapping_add(random.below(self.count)))
    }
}

// What a plan file is written from.
#[derive(Drop)]
struct Draft {
    zones: u8,
    kinds: Kinds,
    bodies: Vec<Passage>,
}

/// A floor and the kinds that it has.
pub(crate) fn random_source(
    heap: Global,
    random: &mut Random,
) -> Result<(Source<Vec<u8>>, Kinds), Trouble> {
    if random.chance(25) {
        let source = Source::Grid(1 + random.below(3), 1 + random.below(3));
        let kinds = Kinds {
            first: 0,
            count: 2,
            long: false,
        };
        return Ok((source, kinds));
    }
    let long = random.chance(1);
    let kinds = Kinds {
        first: random.below(8),
        count: 1 + random.below(3),
        long,
    };
    let draft = if long {
        ring(heap, random, kinds)?
    } else {
        random_draft(heap, random, kinds)?
    };
    Ok((Source::File(draft.file(heap)?), kinds))
}

// A few passages between a few zones that stand together; the other zones have none.
fn random_draft(heap: Global, random: &mut Random, kinds: Kinds) -> Result<Draft, Trouble> {
    let zones = if random.chance(90) {
        1 + random.below(6)
    } else {
        1 + random.below(64)
    };
    let used = zones.min(1 + random.below(6));
    let first = random.below(zones);
    let most = if used == 1 { 5 } else { 5 + 2 * used.min(4) };
    let mut draft = Draft {
        zones,
        kinds,
        bodies: Vec::new(heap),
    };
    for _ in 0..random.below(most) {
        let origin = near(random, first, used, zones);
        let destination = near(random, first, used, zones);
        draft.add(random, origin, destination)?;
    }
    Ok(draft)
}

// One of the zones from the first on, in a circle.
fn near(random: &mut Random, first: u8, used: u8, zones: u8) -> u8 {
    // Below `zones`, so the mask takes nothing off.
    let zone = first as u16 + random.below(used) as u16;
    (zone.checked_rem(zones as u16).unwrap_or(0) & 0xff) as u8
}

// A long way round, perhaps with its last passage missing: the longest routes without a zone twice.
fn ring(heap: Global, random: &mut Random, kinds: Kinds) -> Result<Draft, Trouble> {
    let zones = if random.chance(50) {
        64
    } else {
        20 + random.below(45)
    };
    let missing = random.below(2);
    let mut draft = Draft {
        zones,
        kinds,
        bodies: Vec::new(heap),
    };
    for origin in 0..zones - missing {
        let destination = if origin + 1 < zones { origin + 1 } else { 0 };
        draft.add(random, origin, destination)?;
    }
    Ok(draft)
}

impl Draft {
    // A passage with a number of its own.
    fn add(&mut self, random: &mut Random, origin: u8, destination: u8) -> Result<(), Trouble> {
        let number = self.free_number(random.byte());
        let kind = self.kinds.pick(random);
        self.bodies.push(Passage {
            number,
            origin,
            destination,
            kind,
        })?;
        Ok(())
    }

    // The first number from the wish on that no passage has.
    fn free_number(&self, wish: u8) -> u8 {
        (0..=255u8)
            .map(|step| wish.wrapping_add(step))
            .find(|number| !self.has_number(*number))
            .unwrap_or(wish)
    }

    fn has_number(&self, number: u8) -> bool {
        self.bodies.iter().any(|body| body.number == number)
    }

    // The bodies of each zone stand together, as they come; there are fewer than 256.
    fn file(mut self, heap: Global) -> Result<Vec<u8>, Trouble> {
        self.bodies.sort_by_key(|body| body.origin)?;
        let mut file = vec![in heap; self.zones]?;
        file.extend_from_slice(&self.bodies_before(self.zones))?;
        for zone in 0..self.zones {
            file.extend_from_slice(&self.bodies_before(zone))?;
        }
        for body in self.bodies {
            file.extend_from_slice(&[body.number, body.destination, body.kind as u8])?;
        }
        Ok(file)
    }

    // How many bodies the zones before one have, the bodies being sorted. They are at most 256, so the mask takes nothing off.
    fn bodies_before(&self, zone: u8) -> [u8; 2] {
        let count = self.bodies.partition_point(|body| body.origin < zone);
        ((count & 0xffff) as u16).to_le_bytes()
    }
}

/// No sheet, one or two; most of what they shut is there.
pub(crate) fn random_sheets(
    heap: Global,
    random: &mut Random,
    floor: &Floor,
) -> Result<Vec<Vec<u8>>, Trouble> {
    let mut sheets = Vec::new(heap);
    for _ in 0..random.below(3) {
        sheets.push(random_sheet(heap, random, floor)?)?;
    }
    Ok(sheets)
}

fn random_sheet(heap: Global, random: &mut Random, floor: &Floor) -> Result<Vec<u8>, Trouble> {
    let mut sheet = Vec::new(heap);
    for _ in 0..random.below(4) {
        sheet.push(random_number(random, floor))?;
    }
    Ok(sheet)
}

fn random_number(random: &mut Random, floor: &Floor) -> u8 {
    let place = random.place(floor.passages.len());
    let other = random.byte();
    match floor.passages.get(place) {
        Some(passage) if random.chance(80) => passage.number,
        _ => other,
    }
}

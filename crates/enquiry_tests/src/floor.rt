//! The floor and the pattern of these tests, with the three records of its listing.
use enquiry::Enquiry;
use model::Choice;
use pattern::Pattern;
use plan::FiledPlan;
use route::Trail;
use std::process::Abort;
use std::test::Fail;

pub const FLOOR: [u8; 26] = [
    4, 5, 0, 0, 0, 2, 0, 4, 0, 5, 0, 0, 1, 1, 1, 2, 1, 2, 3, 2, 4, 2, 0, 3, 3, 2,
];

pub const FIRST: [u16; 8] = [2, 0, 0, 1, 1, 2, 3, 2];

pub const SECOND: [u16; 11] = [3, 0, 0, 1, 1, 4, 2, 0, 3, 3, 2];

pub const THIRD: [u16; 8] = [2, 0, 1, 2, 1, 3, 3, 2];

/// A new enquiry on the floor.
pub(crate) fn fresh(text: &[u8]) -> Result<Enquiry<FiledPlan, Trail>, Fail> {
    let Ok(plan) = FiledPlan::open(&FLOOR) else {
        return Err(Fail::new("the floor is refused"));
    };
    let Ok(pattern) = Pattern::read(text) else {
        return Err(Fail::new("the pattern is refused"));
    };
    Ok(Enquiry::new(plan, pattern, Trail))
}

/// The same with the question from 0 to 3 posed.
pub(crate) fn asked(rt: &impl Abort, choice: Choice) -> Result<Enquiry<FiledPlan, Trail>, Fail> {
    let mut enquiry = fresh(b"badge^A free? pin^B")?;
    assert!(rt; enquiry.pose(0, 3, choice).is_ok());
    Ok(enquiry)
}

/// Whether next delivers just this record; with no words, whether it says none left.
pub(crate) fn delivers(enquiry: &mut Enquiry<FiledPlan, Trail>, record: &[u16]) -> bool {
    let mut buffer = [9u16; 770];
    match enquiry.next(&mut buffer) {
        Ok(Some(count)) => count == record.len() && count <= 770 && &buffer[0..count] == record,
        Ok(None) => record.is_empty() && buffer[0] == 9,
        Err(_) => false,
    }
}

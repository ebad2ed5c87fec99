//! Listings.
use crate::floor::{FIRST, SECOND, THIRD, asked, delivers};
use model::Choice;
use std::test::Fail;

#[test]
fn all_answers(rt: HostRuntime) -> Result<(), Fail> {
    let mut enquiry = asked(&rt, Choice::All)?;
    assert!(rt; delivers(&mut enquiry, &FIRST));
    assert!(rt; delivers(&mut enquiry, &SECOND));
    assert!(rt; delivers(&mut enquiry, &THIRD));
    assert!(rt; delivers(&mut enquiry, &[]));
    assert!(rt; delivers(&mut enquiry, &[]), "none left stays");
    Ok(())
}

#[test]
fn shortest_answers(rt: HostRuntime) -> Result<(), Fail> {
    let mut enquiry = asked(&rt, Choice::Shortest)?;
    assert!(rt; delivers(&mut enquiry, &FIRST));
    assert!(rt; delivers(&mut enquiry, &THIRD));
    assert!(rt; delivers(&mut enquiry, &[]));
    Ok(())
}

#[test]
fn words_behind_the_record_stay(rt: HostRuntime) -> Result<(), Fail> {
    let mut enquiry = asked(&rt, Choice::All)?;
    let mut buffer = [7u16; 1000];
    assert!(rt; enquiry.next(&mut buffer).is_ok());
    assert!(rt; buffer[7] == 2);
    assert!(rt; buffer[8] == 7);
    assert!(rt; buffer[999] == 7);
    Ok(())
}

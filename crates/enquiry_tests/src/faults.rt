//! The faults of the calls, and their order.
use crate::floor::{FIRST, asked, delivers, fresh};
use fault::Fault;
use model::Choice;
use std::test::Fail;

// Number and place of a refusal, or 0.
fn refusal(outcome: Result<(), Fault>) -> (u8, usize) {
    match outcome {
        Ok(()) => (0, 0),
        Err(fault) => (fault.number(), fault.place()),
    }
}

// Number and place of a refused check, or 1 for yes and 0 for no.
fn judgement(outcome: Result<bool, Fault>) -> (u8, usize) {
    match outcome {
        Ok(true) => (1, 0),
        Ok(false) => (0, 0),
        Err(fault) => (fault.number(), fault.place()),
    }
}

#[test]
fn on_a_new_enquiry(rt: HostRuntime) -> Result<(), Fail> {
    let mut enquiry = fresh(b"free")?;
    let mut buffer = [0u16; 3];
    assert_eq!(rt; refusal(enquiry.again()), (45, 0));
    assert_eq!(rt; judgement(enquiry.check(&[])), (45, 0));
    assert_eq!(rt; refusal(enquiry.resume(&[])), (45, 0));
    match enquiry.next(&mut buffer) {
        Ok(_) => Err(Fail::new("delivered")),
        Err(fault) => {
            assert_eq!(rt; (fault.number(), fault.place()), (45, 0));
            Ok(())
        },
    }
}

#[test]
fn ends_of_a_question(rt: HostRuntime) -> Result<(), Fail> {
    let mut enquiry = fresh(b"free")?;
    assert_eq!(rt; refusal(enquiry.pose(4, 9, Choice::All)), (40, 4));
    assert_eq!(rt; refusal(enquiry.pose(3, 9, Choice::All)), (41, 9));
    assert_eq!(rt; refusal(enquiry.pose(3, 3, Choice::Shortest)), (0, 0));
    Ok(())
}

#[test]
fn room_in_the_buffer(rt: HostRuntime) -> Result<(), Fail> {
    let mut enquiry = asked(&rt, Choice::All)?;
    let mut small = [9u16; 769];
    match enquiry.next(&mut small) {
        Ok(_) => return Err(Fail::new("delivered")),
        Err(fault) => assert_eq!(rt; (fault.number(), fault.place()), (42, 769)),
    }
    assert!(rt; small[0] == 9);
    assert!(rt; delivers(&mut enquiry, &FIRST), "nothing was skipped");
    Ok(())
}

#[test]
fn words_that_are_no_record(rt: HostRuntime) -> Result<(), Fail> {
    let enquiry = asked(&rt, Choice::All)?;
    assert_eq!(rt; judgement(enquiry.check(&[])), (43, 0));
    assert_eq!(rt; judgement(enquiry.check(&[0])), (43, 1));
    assert_eq!(rt; judgement(enquiry.check(&[257, 0])), (43, 0));
    assert_eq!(rt; judgement(enquiry.check(&[1, 0, 0, 1])), (43, 4));
    assert_eq!(rt;
        judgement(enquiry.check(&[2, 0, 0, 1, 9, 2, 3, 10])),
        (43, 4)
    );
    assert_eq!(rt;
        judgement(enquiry.check(&[2, 0, 0, 1, 8, 2, 3, 9])),
        (43, 7)
    );
    Ok(())
}

#[test]
fn records_that_are_no_answers(rt: HostRuntime) -> Result<(), Fail> {
    let mut enquiry = asked(&rt, Choice::All)?;
    assert_eq!(rt; judgement(enquiry.check(&FIRST)), (1, 0));
    assert_eq!(rt; judgement(enquiry.check(&[0, 0])), (0, 0));
    assert_eq!(rt;
        judgement(enquiry.check(&[2, 0, 0, 1, 0, 2, 3, 2])),
        (0, 0),
        "another mark"
    );
    assert_eq!(rt;
        judgement(enquiry.check(&[2, 0, 0, 2, 1, 2, 3, 2])),
        (0, 0),
        "another zone"
    );
    assert_eq!(rt;
        judgement(enquiry.check(&[1, 0, 60000, 70, 0])),
        (0, 0),
        "unknown passage and zone"
    );
    assert_eq!(rt; refusal(enquiry.resume(&[0, 0])), (44, 0));
    assert_eq!(rt; refusal(enquiry.resume(&[0])), (43, 1));
    Ok(())
}

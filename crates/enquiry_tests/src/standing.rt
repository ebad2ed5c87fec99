//! Where an enquiry stands after pose, again and resume.
use crate::floor::{FIRST, SECOND, THIRD, asked, delivers};
use model::Choice;
use std::test::Fail;

#[test]
fn again_after_none_left(rt: HostRuntime) -> Result<(), Fail> {
    let mut enquiry = asked(&rt, Choice::Shortest)?;
    assert!(rt; delivers(&mut enquiry, &FIRST));
    assert!(rt; delivers(&mut enquiry, &THIRD));
    assert!(rt; delivers(&mut enquiry, &[]));
    assert!(rt; enquiry.again().is_ok());
    assert!(rt; delivers(&mut enquiry, &FIRST));
    Ok(())
}

#[test]
fn pose_after_pose(rt: HostRuntime) -> Result<(), Fail> {
    let mut enquiry = asked(&rt, Choice::All)?;
    assert!(rt; delivers(&mut enquiry, &FIRST));
    assert!(rt; enquiry.pose(0, 3, Choice::Shortest).is_ok());
    assert!(rt; delivers(&mut enquiry, &FIRST));
    assert!(rt; enquiry.pose(9, 3, Choice::All).is_err());
    assert!(rt;
        delivers(&mut enquiry, &THIRD),
        "a refused pose changes nothing"
    );
    Ok(())
}

#[test]
fn resume_behind_each(rt: HostRuntime) -> Result<(), Fail> {
    let mut enquiry = asked(&rt, Choice::All)?;
    assert!(rt; enquiry.resume(&FIRST).is_ok());
    assert!(rt; delivers(&mut enquiry, &SECOND));
    assert!(rt; enquiry.resume(&THIRD).is_ok());
    assert!(rt; delivers(&mut enquiry, &[]));
    assert!(rt;
        enquiry
            .resume(&[3, 0, 0, 1, 1, 4, 2, 0, 3, 3, 2, 8, 8])
            .is_ok()
    );
    assert!(rt;
        delivers(&mut enquiry, &THIRD),
        "words behind the record are ignored"
    );
    Ok(())
}

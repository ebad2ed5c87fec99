//! Grid floors.
use crate::verdicts::verdict_of;
use plan::{GridPlan, Plan};
use std::test::Fail;

fn verdict(rows: u8, columns: u8) -> (u8, usize) {
    verdict_of(GridPlan::new(rows, columns))
}

#[test]
fn sizes(rt: HostRuntime) {
    assert_eq!(rt; verdict(1, 64), (0, 64));
    assert_eq!(rt; verdict(64, 1), (0, 64));
    assert_eq!(rt; verdict(8, 8), (0, 64));
    assert_eq!(rt; verdict(1, 1), (0, 1));
    assert_eq!(rt; verdict(8, 9), (20, 0));
    assert_eq!(rt; verdict(0, 7), (20, 0));
    assert_eq!(rt; verdict(7, 0), (20, 0));
    assert_eq!(rt; verdict(255, 255), (20, 0));
}

#[test]
fn questions(rt: HostRuntime) -> Result<(), Fail> {
    let Ok(plan) = GridPlan::new(2, 2) else {
        return Err(Fail::new("refused"));
    };
    assert!(rt; plan.passage(0) == Some((0, 1, 0)), "east");
    assert!(rt; plan.passage(1) == Some((0, 2, 1)), "south");
    assert!(rt; plan.passage(2) == None, "no west");
    assert!(rt; plan.passage(3) == None, "no north");
    assert!(rt; plan.passage(14) == Some((3, 2, 0)), "west");
    assert!(rt; plan.passage(15) == Some((3, 1, 1)), "north");
    assert!(rt; plan.passage(16) == None, "no such zone");
    assert!(rt; plan.passage(usize::MAX) == None);
    assert!(rt; plan.leaving(1, 0) == Some(5));
    assert!(rt; plan.leaving(1, 6) == Some(6));
    assert!(rt; plan.leaving(1, 7) == None);
    assert!(rt; plan.leaving(4, 0) == None, "zone out of range");
    assert!(rt; plan.leaving(255, 0) == None);
    Ok(())
}

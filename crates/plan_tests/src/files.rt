//! Plan files.
use crate::verdicts::verdict_of;
use plan::{FiledPlan, Plan};
use std::test::Fail;

fn verdict(bytes: &[u8]) -> (u8, usize) {
    verdict_of(FiledPlan::open(bytes))
}

// A file of one zone and 256 passages, each from the zone to itself.
fn full() -> [u8; 773] {
    let mut bytes = [0; 773];
    bytes[0] = 1;
    bytes[2] = 1;
    for number in 0..=255u8 {
        bytes[5 + 3 * number as usize] = number;
    }
    bytes
}

#[test]
fn each_fault(rt: HostRuntime) {
    assert_eq!(rt; verdict(&[4, 5]), (10, 2));
    assert_eq!(rt; verdict(&[]), (10, 0));
    assert_eq!(rt; verdict(&[0, 0, 0]), (11, 0));
    assert_eq!(rt; verdict(&[65, 0, 0]), (11, 0));
    assert_eq!(rt; verdict(&[1, 1, 1]), (12, 1));
    assert_eq!(rt; verdict(&[1, 0, 0, 0]), (13, 4));
    assert_eq!(rt; verdict(&[1, 0, 0, 0, 0, 0]), (13, 5));
    assert_eq!(rt; verdict(&[1, 0, 0, 1, 0]), (14, 3));
    assert_eq!(rt; verdict(&[1, 2, 0, 0, 0, 7, 0, 0, 7, 0, 0]), (15, 8));
    assert_eq!(rt; verdict(&[1, 1, 0, 0, 0, 7, 1, 0]), (16, 6));
    assert_eq!(rt; verdict(&[1, 1, 0, 0, 0, 7, 0, 8]), (17, 7));
}

#[test]
fn order_of_faults(rt: HostRuntime) {
    assert_eq!(rt; verdict(&[0, 1, 1]), (11, 0), "zones before passages");
    assert_eq!(rt; verdict(&[1, 1, 1, 9]), (12, 1), "passages before length");
    assert_eq!(rt; verdict(&[1, 1, 0, 9, 9]), (13, 5), "length before entries");
    assert_eq!(rt;
        verdict(&[2, 1, 0, 0, 0, 2, 0, 7, 9, 9]),
        (14, 5),
        "entries before bodies"
    );
    assert_eq!(rt;
        verdict(&[1, 2, 0, 0, 0, 7, 0, 9, 7, 9, 9]),
        (17, 7),
        "bodies in file order"
    );
    assert_eq!(rt;
        verdict(&[1, 2, 0, 0, 0, 7, 0, 0, 7, 9, 9]),
        (15, 8),
        "number before destination and kind"
    );
    assert_eq!(rt;
        verdict(&[1, 1, 0, 0, 0, 7, 9, 9]),
        (16, 6),
        "destination before kind"
    );
}

#[test]
fn entries(rt: HostRuntime) {
    assert_eq!(rt; verdict(&[2, 1, 0, 0, 0, 0, 0, 7, 0, 0]), (0, 2), "equal");
    assert_eq!(rt;
        verdict(&[3, 1, 0, 0, 0, 1, 0, 0, 0, 7, 0, 0]),
        (14, 7),
        "falling"
    );
    assert_eq!(rt;
        verdict(&[2, 1, 0, 0, 0, 2, 0, 7, 0, 0]),
        (14, 5),
        "past the bodies"
    );
    assert_eq!(rt;
        verdict(&[2, 2, 0, 0, 0, 1, 0, 7, 0, 0, 7, 1, 0]),
        (15, 10),
        "one number in two zones"
    );
}

#[test]
fn sizes(rt: HostRuntime) {
    assert_eq!(rt; verdict(&[1, 0, 0, 0, 0]), (0, 1), "one zone, no passage");
    let mut zones = [0; 131];
    zones[0] = 64;
    assert_eq!(rt; verdict(&zones), (0, 64), "64 zones");
    assert_eq!(rt; verdict(&full()), (0, 1), "256 passages");
    assert_eq!(rt; verdict(&[1, 1, 1, 0, 0]), (12, 1), "257 passages");
}

#[test]
fn questions(rt: HostRuntime) -> Result<(), Fail> {
    let floor = [
        4, 5, 0, 0, 0, 2, 0, 4, 0, 5, 0, 1, 2, 1, 0, 1, 1, 2, 3, 2, 4, 2, 0, 3, 3, 2,
    ];
    let Ok(plan) = FiledPlan::open(&floor) else {
        return Err(Fail::new("refused"));
    };
    assert!(rt; plan.passage(4) == Some((1, 2, 0)));
    assert!(rt; plan.passage(5) == None, "no such passage");
    assert!(rt; plan.passage(256) == None, "number out of range");
    assert!(rt; plan.passage(usize::MAX) == None, "number far out of range");
    assert!(rt;
        plan.leaving(0, 0) == Some(0),
        "the least, though it stands last"
    );
    assert!(rt; plan.leaving(0, 1) == Some(1));
    assert!(rt; plan.leaving(0, 2) == None);
    assert!(rt; plan.leaving(3, 0) == None, "nothing leaves the last zone");
    assert!(rt; plan.leaving(4, 0) == None, "zone out of range");
    assert!(rt; plan.leaving(255, 0) == None);
    assert!(rt; plan.leaving(0, usize::MAX) == None);
    Ok(())
}

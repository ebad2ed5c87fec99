//! Closures, also on closures.
use plan::{Closure, GridPlan, Plan, Sheet};
use std::test::Fail;

// Number and place of the fault, or 0 and 32.
fn verdict(bytes: &[u8]) -> (u8, usize) {
    match Sheet::new(bytes) {
        Ok(_) => (0, 32),
        Err(fault) => (fault.number(), fault.place()),
    }
}

#[test]
fn sheets(rt: HostRuntime) -> Result<(), Fail> {
    assert_eq!(rt; verdict(&[0; 31]), (21, 31));
    assert_eq!(rt; verdict(&[0; 32]), (0, 32));
    assert_eq!(rt; verdict(&[0; 33]), (21, 32));
    assert_eq!(rt; verdict(&[]), (21, 0));
    let mut bytes = [0; 32];
    bytes[31] = 128;
    bytes[0] = 2;
    let Ok(sheet) = Sheet::new(&bytes) else {
        return Err(Fail::new("refused"));
    };
    assert!(rt; sheet.is_shut(255));
    assert!(rt; !sheet.is_shut(254));
    assert!(rt; sheet.is_shut(1));
    assert!(rt; !sheet.is_shut(0));
    Ok(())
}

#[test]
fn on_a_closure(rt: HostRuntime) -> Result<(), Fail> {
    let Ok(grid) = GridPlan::new(2, 2) else {
        return Err(Fail::new("refused"));
    };
    let mut lower = Sheet::blank();
    lower.shut_passage(0);
    lower.shut_passage(3);
    let mut upper = Sheet::blank();
    upper.shut_passage(6);
    let plan = Closure {
        below: Closure {
            below: grid,
            sheet: lower,
        },
        sheet: upper,
    };
    assert!(rt; plan.zones() == 4);
    assert!(rt; plan.passage(0) == None, "shut below");
    assert!(rt; plan.passage(6) == None, "shut above");
    assert!(rt; plan.passage(3) == None, "missing and shut");
    assert!(rt; plan.passage(5) == Some((1, 3, 1)), "open");
    assert!(rt; plan.leaving(0, 0) == Some(1));
    assert!(rt; plan.leaving(1, 6) == None);
    assert!(rt; plan.passage(256) == None);
    assert!(rt; plan.leaving(4, 0) == None);
    Ok(())
}

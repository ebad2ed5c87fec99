//! What became of a plan that was to be made.
use fault::Fault;
use plan::Plan;

/// Number and place of the fault, or 0 and the zones of the plan.
pub(crate) fn verdict_of<P: Plan + Drop>(made: Result<P, Fault>) -> (u8, usize) {
    match made {
        Ok(plan) => (0, plan.zones() as usize),
        Err(fault) => (fault.number(), fault.place()),
    }
}

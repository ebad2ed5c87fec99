//! One call.
ghost use Rattle.std.specs.Prelude.{◌≡◌};
ghost use Rattle.listing.specs.Events.{PerformedBy};

use crate::call::{Call, Reply};
use enquiry::Enquiry;
use plan::Plan;
use route::Rule;

/// Makes one call.
pub(crate) fn perform<P: Plan, R: Rule>(enquiry: &mut Enquiry<P, R>, call: Call) -> Reply
    ensures told { PerformedBy P.Plan.meaning R.Rule.meaning enquiry.old call result enquiry.new }
    ensures same { enquiry.new.search ≡ enquiry.old.search }
{
    match call {
        Call::Pose(start, target, choice) => Reply::Pose(enquiry.pose(start, target, choice)),
        Call::Next(words) => {
            let mut buffer = words;
            let outcome = enquiry.next(buffer.as_mut_slice());
            Reply::Next(outcome, buffer)
        }
        Call::Again => Reply::Again(enquiry.again()),
        Call::Check(words) => Reply::Check(enquiry.check(words.as_slice())),
        Call::Resume(words) => Reply::Resume(enquiry.resume(words.as_slice())),
    }
}

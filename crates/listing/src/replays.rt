//! A list of calls on a new enquiry.
ghost use Rattle.std.specs.Prelude.{◌≡◌, map, IfOk, MatchResult};
ghost use Rattle.model.specs.Patterns.{Tree};
ghost use Rattle.automaton.specs.Tables.{Recognises};
ghost use Rattle.enquiry.specs.Promises.{asked};
ghost use Rattle.listing.specs.Events.{Replayed, ReplayedText, Troubled, call_of, reply_of};

use crate::call::{Call, Reply, Trouble};
use crate::perform::perform;
use enquiry::Enquiry;
use pattern::Pattern;
use plan::Plan;
use route::Rule;
use std::alloc::{AllocError, Global};

// Makes the calls in turn.
fn run_calls<P: Plan + Drop, R: Rule + Drop>(
    heap: Global,
    plan: P,
    pattern: Pattern,
    rule: R,
    calls: Vec<Call>,
) -> Result<Vec<Reply>, AllocError>
    ensures { IfOk result (λ v. (t : Tree) → Recognises pattern.automaton t → Replayed (asked (P.Plan.meaning plan) (R.Rule.meaning rule) t) (map call_of calls.items) (map reply_of v.items)) }
{
    let mut enquiry = Enquiry::new(plan, pattern, rule);
    let mut replies = Vec::new(heap);
    for call in calls {
        replies.push(perform(&mut enquiry, call))?;
    }
    Ok(replies)
}

/// Reads the pattern text, makes a new enquiry and runs the calls on it, in turn; what each replied, or the text's
/// first fault.
pub fn replay<P: Plan + Drop, R: Rule + Drop>(
    heap: Global,
    plan: P,
    text: &[u8],
    rule: R,
    calls: Vec<Call>,
) -> Result<Vec<Reply>, Trouble>
    ensures { MatchResult result (λ v. ReplayedText (P.Plan.meaning plan) (R.Rule.meaning rule) text.now (map call_of calls.items) (map reply_of v.items)) (Troubled text.now) }
{
    let pattern = Pattern::read(text)?;
    let replies = run_calls(heap, plan, pattern, rule, calls)?;
    Ok(replies)
}

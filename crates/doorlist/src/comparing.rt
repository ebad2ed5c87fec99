//! Two questions side by side.
use crate::options::Options;
use crate::problem::Problem;
use crate::question::Question;

/// Says whether the questions of the options have the same answers.
pub(crate) fn compare(rt: &HostRuntime, left: Options, right: Options) -> Result<(), Problem> {
    let (mut left, mut right) = (left, right);
    let left = left.question(rt)?;
    let right = right.question(rt)?;
    say_verdict(rt, left, right)
}

/// Says whether the two have the same answers.
pub(crate) fn say_verdict(
    rt: &HostRuntime,
    left: Question,
    right: Question,
) -> Result<(), Problem> {
    let same = left.is_answered_as(right)?;
    rt.println(if same { "equal" } else { "different" })?;
    Ok(())
}

//! Two listings side by side.
ghost use Rattle.std.specs.Prelude.{◌≡◌, ℕ, ◌<◌, true, MatchResult};
ghost use Rattle.model.specs.Patterns.{Tree};
ghost use Rattle.listing.specs.Queries.{Compared, NotCompared};
ghost use Rattle.listing.specs.Puts.{put};
ghost use Rattle.listing.specs.Pairs.{Stepped, LedOn, SameRecords, ListedSo, Underway};

use crate::query::Query;
use enquiry::Enquiry;
use fault::Fault;
use plan::Plan;
use route::Rule;

// Whether the records at the front of the words, of n and m words, are the same.
fn same_record(left: &[u16; 770], n: usize, right: &[u16; 770], m: usize) -> bool
    ensures { SameRecords left.now n right.now m result }
{
    let front = n.min(770);
    n == m && left[..front] == right[..front]
}

// The following answer's count of words. The buffer has room, so a posed enquiry does not refuse.
fn following<P: Plan, R: Rule>(
    enquiry: &mut Enquiry<P, R>,
    buffer: &mut [u16; 770],
) -> Option<usize>
    ensures step { Stepped P.Plan.meaning R.Rule.meaning enquiry.old result buffer.new enquiry.new }
    ensures same { enquiry.new.search ≡ enquiry.old.search }
    ensures forward { LedOn P.Plan.meaning R.Rule.meaning enquiry.old result enquiry.new }
{
    enquiry.next(buffer).unwrap_or(None)
}

// Whether two enquiries, each at the front of its listing, list the same.
fn agree<P: Plan, R: Rule, Q: Plan, S: Rule>(
    left: &mut Enquiry<P, R>,
    right: &mut Enquiry<Q, S>,
) -> bool
    requires { Underway P.Plan.meaning R.Rule.meaning left.old }
    ensures { ListedSo P.Plan.meaning R.Rule.meaning Q.Plan.meaning S.Rule.meaning left.old right.old result }
{
    let mut one = [0u16; 770];
    let mut other = [0u16; 770];
    // no iterator: each record is lent from a buffer
    while let Some(n) = following(left, &mut one) {
        let Some(m) = following(right, &mut other) else {
            return false;
        };
        if !same_record(&one, n, &other, m) {
            return false;
        }
    }
    following(right, &mut other).is_none()
}

/// Whether two questions, which may differ in everything, have the same listing; or the first fault, the first
/// question's before the second's.
pub fn same_listing<P: Plan + Drop, R: Rule + Drop, Q: Plan + Drop, S: Rule + Drop>(
    left: Query<'_, P, R>,
    right: Query<'_, Q, S>,
) -> Result<bool, Fault>
    ensures { MatchResult result (Compared (put P.Plan.meaning R.Rule.meaning left.entry) (put Q.Plan.meaning S.Rule.meaning right.entry)) (NotCompared (put P.Plan.meaning R.Rule.meaning left.entry) (put Q.Plan.meaning S.Rule.meaning right.entry)) }
{
    let mut one = left.open()?;
    let mut other = right.open()?;
    Ok(agree(&mut one, &mut other))
}

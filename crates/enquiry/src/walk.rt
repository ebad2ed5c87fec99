//! The walk along the words of a record.
ghost use Rattle.std.specs.Prelude.{◌≡◌, ℕ, ◌+◌, ◌*◌, ◌<◌, ◌≤◌, true, false, length, MatchOption, slice_index};
ghost use Rattle.route.specs.Reading.{track_of};
ghost use Rattle.search.specs.Hunts.{space_at};
ghost use Rattle.enquiry.specs.Walks.{Trodden, Walked, NotWalked};

use plan::Plan;
use route::{Route, Rule};
use search::{Cursor, Search};

// One more step, if it may be added and reaches that zone: the route is changed in place, and no value goes with the flag.
// `push` has room, since the route is shorter than the cursor's greatest length.
fn tread<P: Plan, R: Rule>(
    search: &Search<P, R>,
    cursor: &Cursor,
    route: &mut Route,
    passage: u16,
    zone: u16,
    mark: u16,
) -> bool
    ensures { Trodden (space_at P.Plan.meaning R.Rule.meaning search.now cursor.now) (track_of route.old) passage zone mark result (track_of route.new) }
{
    if passage > 255 || mark > 8 {
        return false;
    }
    let Some((reached, mask)) = search.reach(cursor, route, passage as u8, mark as u8) else {
        return false;
    };
    if reached as u16 != zone {
        return false;
    }
    route.push(passage as u8, reached, mark as u8, mask);
    true
}

/// The route that the words write down, if it is an answer. The words are those of a well formed record.
pub(crate) fn walk<P: Plan, R: Rule>(
    search: &Search<P, R>,
    cursor: &Cursor,
    words: &[u16],
) -> Option<Route>
    requires long { 2 + 3 * slice_index words.now 0 ≤ length words.now }
    requires few { slice_index words.now 0 ≤ 256 }
    ensures { MatchOption result (NotWalked (P.Plan.meaning search.now.plan) (R.Rule.meaning search.now.rule) search.now.automaton cursor.now words.now) (λ x. Walked (P.Plan.meaning search.now.plan) (R.Rule.meaning search.now.rule) search.now.automaton cursor.now words.now x) }
{
    let mut route = Route::new(cursor.progress.start());
    if words[1] != route.start as u16 {
        return None;
    }
    let count = words[0] as usize;
    let (steps, _) = words[2..2 + 3 * count].as_chunks::<3>();
    for [passage, zone, mark] in steps {
        if !tread(search, cursor, &mut route, *passage, *zone, *mark) {
            return None;
        }
    }
    if search.is_answer(cursor, &route) {
        return Some(route);
    }
    None
}

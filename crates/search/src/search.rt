//! The search: one step more, the answer below a route, and the answer that comes next.
ghost use Rattle.std.specs.Prelude.{◌≡◌, ℕ, ◌<◌, ◌≤◌, true, false};
ghost use Rattle.route.specs.Reading.{track_of};
ghost use Rattle.search.specs.Hunts.{space_at};
ghost use Rattle.search.specs.Listings.{Standing, Followed, Delivered};
ghost use Rattle.search.specs.Spaces.{Sought, Only, Marks, Onward};
ghost use Rattle.search.specs.Trails.{trail, begun, placed, Comes};

use crate::cursor::Cursor;
use crate::progress::Progress;
use automaton::Automaton;
use plan::Plan;
use route::{Route, Rule};

/// What is searched: a plan, under a rule, for the routes that an automaton reads.
#[derive(Drop)]
pub struct Search<P: Plan, R: Rule> {
    pub plan: P,
    pub rule: R,
    pub automaton: Automaton,
}

impl<P: Plan, R: Rule> Search<P, R> {
    /// The zone and the states that one more step reaches, if it may be added.
    // every step that a search tries goes through it
    #[inline]
    pub fn reach(&self, cursor: &Cursor, route: &Route, passage: u8, mark: u8) -> Option<(u8, u32)>
        ensures { result ≡ (space_at P.Plan.meaning R.Rule.meaning self.now cursor.now).reach (track_of route.now) (record { passage = passage; mark = mark }) }
    {
        let (origin, zone, kind) = self.plan.passage(passage as usize)?;
        let mask = self
            .automaton
            .step(route.mask(self.automaton.start()), kind, mark);
        if (origin == route.here())
            & (mark < 9)
            & (route.len < cursor.most)
            & (mask != 0)
            & self.rule.may_add(route, passage, zone)
        {
            Some((zone, mask))
        } else {
            None
        }
    }

    /// Whether the route is an answer.
    // by the mask and not by `accepts`, since the space of a search is said by masks
    pub fn is_answer(&self, cursor: &Cursor, route: &Route) -> bool
        ensures { result ≡ (space_at P.Plan.meaning R.Rule.meaning self.now cursor.now).final (track_of route.now) }
    {
        route.here() == cursor.target
            && (route.mask(self.automaton.start()) & self.automaton.accept) != 0
    }

    // The four below change the route in place and say whether it is an answer now: no value goes with the flag.
    // Passage and mark are no struct, since `seek` may start past the last passage, where there is no step.
    #[cycle(seek_step_into_try_marks)]
    fn step_into(&self, cursor: &Cursor, route: &mut Route, passage: u8, mark: u8) -> bool
        ensures { Sought (space_at P.Plan.meaning R.Rule.meaning self.now cursor.now) (track_of route.old) (Only passage mark) result (track_of route.new) }
    {
        let Some((zone, mask)) = self.reach(cursor, route, passage, mark) else {
            return false;
        };
        route.push(passage, zone, mark, mask);
        if self.is_answer(cursor, route) || self.seek(cursor, route, 0, 0) {
            return true;
        }
        route.pop();
        false
    }

    #[cycle(seek_step_into_try_marks)]
    fn try_marks(&self, cursor: &Cursor, route: &mut Route, passage: u8, from: u8) -> bool
        ensures { Sought (space_at P.Plan.meaning R.Rule.meaning self.now cursor.now) (track_of route.old) (Marks passage from) result (track_of route.new) }
    {
        for mark in from..9 {
            if self.step_into(cursor, route, passage, mark) {
                return true;
            }
        }
        false
    }

    #[cycle(seek_step_into_try_marks)]
    fn seek(&self, cursor: &Cursor, route: &mut Route, passage: usize, mark: u8) -> bool
        ensures { Sought (space_at P.Plan.meaning R.Rule.meaning self.now cursor.now) (track_of route.old) (Onward passage mark) result (track_of route.new) }
    {
        let zone = route.here();
        let mut next = passage;
        // an iterator over the passages that leave would hold the same place, and say the same of it
        while let Some(found) = self.plan.leaving(zone, next) {
            let from = if found as usize == passage { mark } else { 0 };
            if self.try_marks(cursor, route, found, from) {
                return true;
            }
            next = found as usize + 1;
        }
        false
    }

    // From a route to the answer that follows it.
    fn follow(&self, cursor: &Cursor, route: &mut Route) -> bool
        ensures { Standing (space_at P.Plan.meaning R.Rule.meaning self.now cursor.now) (track_of route.old) → Followed (space_at P.Plan.meaning R.Rule.meaning self.now cursor.now) (track_of route.old) result (track_of route.new) }
    {
        let mut passage = 0;
        let mut mark = 0;
        loop {
            if self.seek(cursor, route, passage, mark) {
                return true;
            }
            if route.len == 0 {
                return false;
            }
            passage = route.passages[route.len - 1] as usize;
            mark = route.marks[route.len - 1] % 9 + 1;
            route.pop();
        }
    }

    /// Whether an answer comes next. The lent route is that answer then, and of no use where none comes. It is lent, whatever
    /// it held, since a route is large, and one that is handed back is copied.
    pub fn arrive(&self, cursor: &Cursor, route: &mut Route) -> bool
        ensures { Standing (space_at P.Plan.meaning R.Rule.meaning self.now cursor.now) (trail cursor.now.progress) → Delivered (space_at P.Plan.meaning R.Rule.meaning self.now cursor.now) (begun cursor.now.progress) (trail cursor.now.progress) result (track_of route.new) }
    {
        match &cursor.progress {
            Progress::AtFront(start) => {
                *route = Route::new(*start);
                self.is_answer(cursor, route) || self.follow(cursor, route)
            }
            Progress::Behind(last) => {
                *route = *last;
                self.follow(cursor, route)
            }
        }
    }

    /// The answer that comes next, if one does.
    pub fn next_answer(&self, cursor: &Cursor) -> Option<Route>
        ensures { Standing (space_at P.Plan.meaning R.Rule.meaning self.now cursor.now) (trail cursor.now.progress) → Comes (space_at P.Plan.meaning R.Rule.meaning self.now cursor.now) cursor.now.progress result }
    {
        let mut route = Route::new(cursor.progress.start());
        let found = self.arrive(cursor, &mut route);
        if found { Some(route) } else { None }
    }

    /// Goes to the answer that comes next, stands behind it and says `true`; or stays, where none does.
    // a flag: the answer is in the cursor
    pub fn advance(&self, cursor: &mut Cursor) -> bool
        ensures told { Standing (space_at P.Plan.meaning R.Rule.meaning self.now cursor.old) (trail cursor.old.progress) → Delivered (space_at P.Plan.meaning R.Rule.meaning self.now cursor.old) (begun cursor.old.progress) (trail cursor.old.progress) result (trail cursor.new.progress) }
        ensures asks { cursor.new ≡ placed cursor.old cursor.new.progress }
        ensures none { result ≡ false → cursor.new ≡ cursor.old }
        ensures some { result ≡ true → begun cursor.new.progress ≡ true }
    {
        let mut route = Route::new(cursor.progress.start());
        let found = self.arrive(cursor, &mut route);
        if found {
            cursor.progress = Progress::Behind(route);
        }
        found
    }
}

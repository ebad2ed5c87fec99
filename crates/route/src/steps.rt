//! The record as a stack of steps, and what a rule asks of it.
ghost use Rattle.std.specs.Prelude.{◌≡◌, ℕ, ◌<◌, ◌≤◌, length, nat_lt};
ghost use Rattle.model.specs.Routes.{end as end_zone, passages as passages_of};
ghost use Rattle.model.specs.Rules.{mem};
ghost use Rattle.route.specs.Tracks.{extend, popped, last_zone, last_mask, longer, shorter};
ghost use Rattle.route.specs.Reading.{route_of, track_of, reached_zones, open_ended, LastAt, Written};

use crate::Route;

impl Route {
    /// The place of the last step.
    fn last(&self) -> Option<usize>
        ensures { LastAt self.now result }
    {
        if self.len == 0 {
            None
        } else {
            Some(self.len - 1)
        }
    }

    /// How many steps the route has.
    pub fn length(&self) -> usize
        ensures { result ≡ length (route_of self.now).steps }
    {
        match self.last() {
            Some(last) => last + 1,
            None => 0,
        }
    }

    /// The zone in which the route ends.
    pub fn here(&self) -> u8
        ensures track { result ≡ last_zone self.now.start (track_of self.now).steps }
        ensures route { result ≡ end_zone (route_of self.now) }
    {
        match self.last() {
            Some(last) => self.zones[last],
            None => self.start,
        }
    }

    /// Whether the route is open: it has no step, or is not back at its start.
    pub fn is_open(&self) -> bool
        ensures { result ≡ open_ended (route_of self.now) }
    {
        match self.last() {
            Some(last) => self.zones[last] != self.start,
            None => true,
        }
    }

    /// The mask after the last step, or `first` where there is none.
    pub fn mask(&self, first: u32) -> u32
        ensures { result ≡ last_mask first (track_of self.now).steps }
    {
        match self.last() {
            Some(last) => self.masks[last],
            None => first,
        }
    }

    /// Writes the entry behind the last step, and counts it; `push` has seen that there is room.
    fn write(&mut self, passage: u8, zone: u8, mark: u8, mask: u32)
        requires { self.old.len < 256 }
        ensures { Written self.old self.new (record { passage = passage; zone = zone; mark = mark; mask = mask }) }
    {
        let at = self.len;
        self.passages[at] = passage;
        self.zones[at] = zone;
        self.marks[at] = mark;
        self.masks[at] = mask;
        self.len = at + 1;
    }

    /// Adds a step and says `true`, or changes nothing where the route has 256 steps already.
    // a flag, since neither case has anything to hand back
    pub fn push(&mut self, passage: u8, zone: u8, mark: u8, mask: u32) -> bool
        ensures told { result ≡ nat_lt self.old.len 256 }
        ensures track { self.old.len < 256 → track_of self.new ≡ extend (track_of self.old) (record { passage = passage; zone = zone; mark = mark; mask = mask }) }
        ensures route { self.old.len < 256 → route_of self.new ≡ longer (route_of self.old) (record { number = passage; reached = zone }) }
        ensures full { 256 ≤ self.old.len → self.new ≡ self.old }
    {
        if self.len >= 256 {
            return false;
        }
        self.write(passage, zone, mark, mask);
        true
    }

    /// Takes the last step off; a route of no step stays as it is.
    pub fn pop(&mut self)
        ensures track { track_of self.new ≡ popped (track_of self.old) }
        ensures route { route_of self.new ≡ shorter (route_of self.old) }
    {
        if let Some(last) = self.last() {
            self.len = last;
        }
    }

    /// Whether the route uses the passage.
    #[tactic(auto, using(crate::proofs::Scans::used))]
    pub fn uses(&self, passage: u8) -> bool
        ensures { result ≡ mem passage (passages_of (route_of self.now)) }
    {
        self.passages[..self.len].contains(&passage)
    }

    /// Whether a step of the route reaches the zone; the start alone does not count.
    #[tactic(auto, using(crate::proofs::Scans::reached))]
    pub fn reaches(&self, zone: u8) -> bool
        ensures { result ≡ mem zone (reached_zones (route_of self.now).steps) }
    {
        self.zones[..self.len].contains(&zone)
    }
}

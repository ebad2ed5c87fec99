// The bytes of a plan file, and whether they are in order.
ghost use Rattle.std.specs.Prelude.{◌≡◌, ℕ, ◌+◌, ◌*◌, ◌<◌, ◌≤◌, true, length, is_some, IfOk, slice_index_or, None};
ghost use Rattle.plan.specs.First.{first_below, FaultIs};
ghost use Rattle.plan.specs.Filed.{Framed, word_at, zone_count_of, count_of, entry_of, body_place_lem, number_of, destination_of, kind_of, body_below_lem, owner_below, head_fault, entry_fault, body_fault, file_fault, start_of, LeastAmong, accepted};

use fault::PlanFault;

/// A file as long as its head says, with 1 to 64 zones and at most 256 passages.
#[derive(Clone, Copy)]
pub(crate) struct PlanFile<'a> {
    pub(crate) bytes: &'a [u8],
    ghost framed: { Framed bytes.now },
}

/// What stands in a body: the number of a passage, its destination and its kind.
#[derive(Clone, Copy)]
pub(crate) struct Body {
    pub(crate) number: u8,
    pub(crate) destination: u8,
    pub(crate) kind: u8,
}

fn word(bytes: &[u8], at: usize) -> usize
    requires { at + 1 < length bytes.now }
    ensures { result ≡ word_at bytes.now at }
{
    u16::from_le_bytes([bytes[at], bytes[at + 1]]) as usize
}

impl<'a> PlanFile<'a> {
    /// The file, or its first fault.
    pub(crate) fn open(bytes: &'a [u8]) -> Result<PlanFile<'a>, PlanFault>
        ensures fault { FaultIs (file_fault bytes.now) result }
        ensures bytes { IfOk result (λ f. f.bytes.now ≡ bytes.now) }
    {
        let file = PlanFile::framed(bytes)?;
        file.check_entries()?;
        file.check_bodies()?;
        Ok(file)
    }

    /// The file, or the first fault of its head.
    fn framed(bytes: &'a [u8]) -> Result<PlanFile<'a>, PlanFault>
        ensures fault { FaultIs (head_fault bytes.now) result }
        ensures bytes { IfOk result (λ f. f.bytes.now ≡ bytes.now) }
    {
        let length = bytes.len();
        if length < 3 {
            return Err(PlanFault::Short(length));
        }
        let zones = bytes[0] as usize;
        if zones == 0 || zones > 64 {
            return Err(PlanFault::Zones(0));
        }
        let count = word(bytes, 1);
        if count > 256 {
            return Err(PlanFault::Passages(1));
        }
        let size = 3 + 2 * zones + 3 * count;
        if length != size {
            return Err(PlanFault::Length(length.min(size)));
        }
        Ok(PlanFile { bytes })
    }

    pub(crate) fn zones(&self) -> u8
        ensures { result ≡ zone_count_of self.now.bytes.now }
    {
        self.bytes[0]
    }

    fn count(&self) -> usize
        ensures { result ≡ count_of self.now.bytes.now }
    {
        word(self.bytes, 1)
    }

    fn entry(&self, zone: usize) -> usize
        requires { zone < zone_count_of self.now.bytes.now }
        ensures { result ≡ entry_of self.now.bytes.now zone }
    {
        word(self.bytes, 3 + 2 * zone)
    }

    /// Where the bodies of the zone start, and past the last zone how many bodies there are.
    pub(crate) fn start(&self, zone: usize) -> usize
        ensures { result ≡ start_of self.now.bytes.now zone }
    {
        if zone < self.zones() as usize {
            self.entry(zone)
        } else {
            self.count()
        }
    }

    fn place(&self, body: usize) -> usize
        requires { body ≤ 256 }
        ensures { result ≡ body_place_lem self.now.bytes.now body }
    {
        3 + 2 * self.zones() as usize + 3 * body
    }

    pub(crate) fn body(&self, body: usize) -> Body
        requires { body < count_of self.now.bytes.now }
        ensures number { result.number ≡ number_of self.now.bytes.now body }
        ensures destination { result.destination ≡ destination_of self.now.bytes.now body }
        ensures kind { result.kind ≡ kind_of self.now.bytes.now body }
    {
        let at = self.place(body);
        Body {
            number: self.bytes[at],
            destination: self.bytes[at + 1],
            kind: self.bytes[at + 2],
        }
    }

    /// The zone that the body belongs to: the last that does not start after it.
    pub(crate) fn owner(&self, body: usize) -> u8
        requires { accepted self.now.bytes.now ≡ true }
        ensures { result ≡ owner_below self.now.bytes.now body (zone_count_of self.now.bytes.now) }
    {
        // halved by hand, since every step of a search asks it: a range of zones has no method that does so
        let mut owner = 0;
        let mut end = self.zones() as usize;
        while owner + 1 < end {
            let middle = (owner + end) / 2;
            if self.entry(middle) <= body {
                owner = middle;
            } else {
                end = middle;
            }
        }
        owner as u8
    }

    fn check_entry(&self, zone: usize) -> Result<(), PlanFault>
        requires { zone < zone_count_of self.now.bytes.now }
        ensures { FaultIs (entry_fault self.now.bytes.now zone) result }
    {
        let start = self.start(zone);
        let starts_wrongly = if zone == 0 {
            start != 0
        } else {
            start < self.start(zone - 1)
        };
        if starts_wrongly || start > self.count() {
            return Err(PlanFault::Entry(3 + 2 * zone));
        }
        Ok(())
    }

    fn check_entries(&self) -> Result<(), PlanFault>
        ensures { FaultIs (first_below (entry_fault self.now.bytes.now) (zone_count_of self.now.bytes.now)) result }
    {
        (0..self.zones() as usize).try_for_each(|zone| self.check_entry(zone))
    }

    /// Whether one of the first `count` bodies has the number.
    fn has_number(&self, number: u8, count: usize) -> bool
        requires { count ≤ count_of self.now.bytes.now }
        ensures { result ≡ is_some (body_below_lem self.now.bytes.now number count) }
    {
        (0..count).any(|body| self.body(body).number == number)
    }

    fn check_body(&self, body: usize) -> Result<(), PlanFault>
        requires { body < count_of self.now.bytes.now }
        ensures { FaultIs (body_fault self.now.bytes.now body) result }
    {
        let at = self.place(body);
        let Body {
            number,
            destination,
            kind,
        } = self.body(body);
        if self.has_number(number, body) {
            return Err(PlanFault::Repeated(at));
        }
        if destination >= self.zones() {
            return Err(PlanFault::Destination(at + 1));
        }
        if kind > 7 {
            return Err(PlanFault::Kind(at + 2));
        }
        Ok(())
    }

    fn check_bodies(&self) -> Result<(), PlanFault>
        ensures { FaultIs (first_below (body_fault self.now.bytes.now) (count_of self.now.bytes.now)) result }
    {
        (0..self.count()).try_for_each(|body| self.check_body(body))
    }

    /// The least number not below `from` of the bodies from `first` up to `end`.
    pub(crate) fn least_from(&self, first: usize, end: usize, from: usize) -> Option<u8>
        requires { (first ≤ end) × (end ≤ count_of self.now.bytes.now) }
        ensures { LeastAmong self.now.bytes.now first end from result }
    {
        let mut least = None;
        for body in first..end {
            let number = self.body(body).number;
            if number as usize >= from && least.is_none_or(|least| number < least) {
                least = Some(number);
            }
        }
        least
    }

    /// The body of each passage number.
    pub(crate) fn index(&self) -> [Option<u8>; 256]
        requires { accepted self.now.bytes.now ≡ true }
        ensures { (n : ℕ) → n < 256 → slice_index_or result n None ≡ body_below_lem self.now.bytes.now n (count_of self.now.bytes.now) }
    {
        let mut index = [None; 256];
        for body in 0..self.count() {
            index[self.body(body).number as usize] = Some(body as u8);
        }
        index
    }
}

//! Random numbers that come the same for the same seed.
ghost use Rattle.std.specs.Prelude.{◌≤◌};

/// One stream of numbers (splitmix64).
#[derive(Drop)]
pub struct Random {
    state: u64,
}

impl Random {
    /// The stream of one floor: other floors have others.
    pub(crate) fn new(seed: u64, floor: u64) -> Random {
        let mut mixed = Random { state: seed };
        let first = mixed.number();
        Random {
            state: first ^ floor.wrapping_mul(0xd1b54a32d192ed03),
        }
    }

    fn number(&mut self) -> u64 {
        self.state = self.state.wrapping_add(0x9e3779b97f4a7c15);
        let a = (self.state ^ (self.state >> 30)).wrapping_mul(0xbf58476d1ce4e5b9);
        let b = (a ^ (a >> 27)).wrapping_mul(0x94d049bb133111eb);
        b ^ (b >> 31)
    }

    /// A number below the limit; 0 where nothing is.
    pub(crate) fn below(&mut self, limit: u8) -> u8
        ensures { result ≤ limit }
    {
        self.place(limit as usize) as u8
    }

    /// A place in a list of that length; 0 where it has none.
    // No `Option`: the place goes to `get`, which has an answer for an empty list too.
    pub(crate) fn place(&mut self, length: usize) -> usize
        ensures { result ≤ length }
    {
        if length == 0 {
            return 0;
        }
        (self.number() % length as u64) as usize
    }

    /// True so many times in a hundred.
    pub(crate) fn chance(&mut self, percent: u8) -> bool {
        self.below(100) < percent
    }

    // Here and in `word` the low bits are meant, so a conversion that may fail would be none.
    pub(crate) fn byte(&mut self) -> u8 {
        (self.number() & 0xff) as u8
    }

    pub(crate) fn word(&mut self) -> u16 {
        (self.number() & 0xffff) as u16
    }
}

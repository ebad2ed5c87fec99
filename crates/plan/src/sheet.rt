//! Closure sheets: which passages are shut.
ghost use Rattle.std.specs.Prelude.{◌≡◌, ℕ, ◌<◌, true, false, if◌then◌else◌, Some, None, MatchResult, nat_eq};
ghost use Rattle.plan.specs.Shut.{shut, sheet_fault};
ghost use Rattle.plan.specs.Filed.{layered};

use fault::{Fault, PlanFault};

/// One bit for each passage number, set where the passage is shut: the 32 bytes that people hand in.
#[derive(Clone, Copy)]
pub struct Sheet {
    bytes: [u8; 32],
}

// The bytes of the sheet on which nothing is shut.
fn no_bits() -> [u8; 32]
    ensures { (n : ℕ) → shut result n ≡ false }
{
    [0; 32]
}

// Sets the bit of one passage.
fn set_bit(bytes: &mut [u8; 32], number: u8)
    ensures { (n : ℕ) → shut bytes.new n ≡ (if nat_eq n number then true else shut bytes.old n) }
{
    let at = (number / 8) as usize;
    bytes[at] |= 1 << (number % 8);
}

impl Sheet {
    /// The sheet with these bytes, of which there are 32.
    pub fn new(bytes: &[u8]) -> Result<Sheet, Fault>
        ensures { MatchResult result (λ s. (sheet_fault bytes.now ≡ None) × (s.bytes ≡ bytes.now)) (λ f. Some f ≡ layered (sheet_fault bytes.now)) }
    {
        let Ok(bytes) = <[u8; 32]>::try_from(bytes) else {
            return Err(PlanFault::Sheet(bytes.len().min(32)).into());
        };
        Ok(Sheet { bytes })
    }

    /// The sheet on which nothing is shut.
    pub fn blank() -> Sheet
        ensures { (n : ℕ) → shut result.bytes n ≡ false }
    {
        Sheet { bytes: no_bits() }
    }

    /// Shuts one passage, and leaves the others as they are.
    pub fn shut_passage(&mut self, number: u8)
        ensures { (n : ℕ) → shut self.new.bytes n ≡ (if nat_eq n number then true else shut self.old.bytes n) }
    {
        set_bit(&mut self.bytes, number);
    }

    /// Whether the passage is shut.
    pub fn is_shut(&self, number: u8) -> bool
        ensures { result ≡ shut self.now.bytes number }
    {
        (self.bytes[(number / 8) as usize] >> (number % 8)) % 2 == 1
    }
}

//! Calls and replies as values.
ghost use Rattle.std.specs.Prelude.{◌≡◌};
ghost use Rattle.listing.specs.declared.call.Trouble.TheVariants.{Memory, Refused as TurnedDown};

use fault::Fault;
use model::Choice;
use std::alloc::AllocError;

/// A call with what it is handed: start, target and choice, a buffer, or words.
#[derive(Drop)]
pub enum Call {
    Pose(u8, u8, Choice),
    Next(Vec<u16>),
    Again,
    Check(Vec<u16>),
    Resume(Vec<u16>),
}

/// What a call replied; after next, with the buffer.
#[derive(Drop)]
pub enum Reply {
    Pose(Result<(), Fault>),
    Next(Result<Option<usize>, Fault>, Vec<u16>),
    Again(Result<(), Fault>),
    Check(Result<bool, Fault>),
    Resume(Result<(), Fault>),
}

/// Why there are no replies.
#[derive(Drop)]
pub enum Trouble {
    /// there was no memory for them
    Memory,
    /// the pattern text breaks a rule
    Refused(Fault),
}

impl From<AllocError> for Trouble {
    ghost from_gives = { λ _ r. r ≡ Memory };

    fn from(_error: AllocError) -> Trouble {
        Trouble::Memory
    }
}

impl From<Fault> for Trouble {
    ghost from_gives = { λ f r. r ≡ TurnedDown f };

    fn from(fault: Fault) -> Trouble {
        Trouble::Refused(fault)
    }
}

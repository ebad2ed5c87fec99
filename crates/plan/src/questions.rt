//! The three questions that every plan answers.
ghost use Rattle.std.specs.Prelude.{◌≡◌, ℕ, ◌<◌, ◌≤◌};
ghost use Rattle.model.specs.Plans.{PlanMeaning, triple, LeastLeaving};

/// A floor plan. No question is refused or changes the plan, and the answers come from one meaning.
pub trait Plan {
    ghost meaning: { Self → PlanMeaning };

    /// How many zones there are.
    fn zones(&self) -> u8
        ensures { result ≡ (meaning self.now).zones };

    /// Origin, destination and kind of the passage with that number, if there is one.
    fn passage(&self, number: usize) -> Option<(u8, u8, u8)>
        ensures { result ≡ triple ((meaning self.now).passage number) };

    /// The least passage number not below `from` whose passage leaves the zone.
    fn leaving(&self, zone: u8, from: usize) -> Option<u8>
        ensures { LeastLeaving (meaning self.now).passage zone from result };
}

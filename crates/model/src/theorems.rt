//! One function for each theorem: its contract is the theorem, and it does nothing.
ghost use Rattle.model.specs.PatternLaws.{PatternLaws};
ghost use Rattle.model.specs.Rules.{Restrictors};
ghost use Rattle.model.specs.Runs.{LawOfNext, LawOfListings, ListingsEnd};
ghost use Rattle.model.specs.Replies.{CallsAnswer};
ghost use Rattle.model.specs.RecordLaws.{RecordLaws};
ghost use Rattle.model.specs.Examples.{AllComeOut, examples};
ghost use Rattle.model.specs.WorkedCalls.{CallsComeOut};
ghost use Rattle.model.specs.Lengths.{LengthsReached};
ghost use Rattle.model.specs.Edges.{Edges};

/// The law of next. In every run of calls, at every `next` that is not refused: it says none left exactly
/// when no answer is to come, and then writes nothing; otherwise it writes the record of the first answer
/// to come at the front of the buffer and keeps the words behind. What is to come is computed from the
/// calls so far and their replies alone.
pub fn law_of_next()
    ensures { LawOfNext }
{}

/// The law of listings. Two full listings, of two enquiries that may differ in plan, pattern, rule, ends
/// and choice, are equal exactly when the two questions have the same answers.
pub fn law_of_listings()
    ensures { LawOfListings }
{}

/// Every list of calls has exactly one run, so the laws speak of something, and what the calls are handed
/// determines what they reply.
pub fn calls_have_one_run()
    ensures { CallsAnswer }
{}

/// Every question between zones of the plan has a full listing.
pub fn listings_end()
    ensures { ListingsEnd }
{}

/// The routes that patterns give are paths of the plan, and `any*` gives every path; `x+` is `x x*`, and
/// `x?` is `empty | x`.
pub fn patterns_keep_laws()
    ensures { PatternLaws }
{}

/// The rules trail, acyclic and simple allow exactly the trails, the acyclic and the simple routes, and
/// they keep both laws: no passage twice, and no route over the greatest length.
pub fn rules_are_restrictors()
    ensures { Restrictors }
{}

/// Each of the three rules allows some route of its greatest length: 256, 63 and 64.
pub fn greatest_lengths_are_reached()
    ensures { LengthsReached }
{}

/// Marks and lists determine each other where no passage repeats; an answer's record determines it; the
/// order of answers is strict, and total on the answers of one question; an answer's record has at most
/// 770 words and is well formed.
pub fn records_keep_laws()
    ensures { RecordLaws }
{}

/// Each worked example has the answers, and the one full listing, that its table says.
pub fn examples_come_out()
    ensures { AllComeOut examples }
{}

/// A run of calls in which every fault occurs, with its place and before those that come after it in
/// order, and the five calls are accepted too: each reply and buffer is as the table says. It has two full
/// listings, one from a pose and one from an again, with checks and refused calls between.
pub fn worked_calls_come_out()
    ensures { CallsComeOut }
{}

/// The bounds of a plan hold at their edges and not beyond, and the questions `leaving` and `passage` have
/// the answers that a table gives on a small floor.
pub fn plan_edges_hold()
    ensures { Edges }
{}

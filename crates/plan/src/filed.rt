//! A plan that is read from the bytes of a file.
ghost use Rattle.std.specs.Prelude.{◌≡◌, ℕ, ◌<◌, ◌≤◌, true, length, take, Some, None, MatchResult, slice_index_or};
ghost use Rattle.std.proofs.Props.{props};
ghost use Rattle.model.specs.Plans.{PlanMeaning, triple, LeastLeaving};
ghost use Rattle.plan.specs.Filed.{file_fault, accepted, layered, body_below_lem, count_of};
ghost use Rattle.plan.specs.FiledMeaning.{filed};
ghost use Rattle.plan.specs.FiledLaw.{Opened, RefusedFor};

use crate::bytes::PlanFile;
use crate::questions::Plan;
use fault::Fault;

/// A plan that was read from a file.
// The bytes are the plan's own, at most 899: a borrowed file would ask more of callers, and there is no heap.
#[derive(Clone, Copy)]
pub struct FiledPlan {
    bytes: [u8; 899],
    size: usize,
    index: [Option<u8>; 256],
    ghost small: { size ≤ 899 },
    ghost sound: { accepted (take size bytes) ≡ true },
    ghost indexed: { (n : ℕ) → n < 256 → slice_index_or index n None ≡ body_below_lem (take size bytes) n (count_of (take size bytes)) } by { Prim.hlevel props },
}

fn copied(bytes: &[u8]) -> [u8; 899]
    requires { length bytes.now ≤ 899 }
    ensures { take (length bytes.now) result ≡ bytes.now }
{
    let mut copy = [0; 899];
    copy[..bytes.len()].copy_from_slice(bytes);
    copy
}

impl FiledPlan {
    /// The plan that the file describes, or the first fault of the file.
    pub fn open(bytes: &[u8]) -> Result<FiledPlan, Fault>
        ensures words { MatchResult result (λ p. Opened bytes.now (filed (take p.size p.bytes) p.sound)) (λ f. RefusedFor bytes.now f) }
        ensures computed { MatchResult result (λ p. (file_fault bytes.now ≡ None) × (take p.size p.bytes ≡ bytes.now)) (λ f. Some f ≡ layered (file_fault bytes.now)) }
    {
        let file = PlanFile::open(bytes)?;
        Ok(FiledPlan {
            bytes: copied(bytes),
            size: bytes.len(),
            index: file.index(),
        })
    }

    fn file(&self) -> PlanFile<'_>
        ensures { result.bytes.now ≡ take self.now.size self.now.bytes }
    {
        PlanFile {
            bytes: &self.bytes[..self.size],
        }
    }
}

impl Plan for FiledPlan {
    ghost meaning = { λ s. filed (take s.size s.bytes) s.sound };

    fn zones(&self) -> u8 {
        self.file().zones()
    }

    fn passage(&self, number: usize) -> Option<(u8, u8, u8)> {
        let body = self.index.get(number).copied().flatten()?;
        let body = body as usize;
        let file = self.file();
        let found = file.body(body);
        Some((file.owner(body), found.destination, found.kind))
    }

    fn leaving(&self, zone: u8, from: usize) -> Option<u8> {
        let zone = zone as usize;
        let file = self.file();
        file.least_from(file.start(zone), file.start(zone + 1), from)
    }
}

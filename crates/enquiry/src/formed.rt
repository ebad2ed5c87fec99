//! Whether words are a record.
ghost use Rattle.std.specs.Prelude.{◌≡◌, ℕ, ◌+◌, ◌*◌, ◌<◌, ◌≤◌, length, MatchOption};
ghost use Rattle.model.specs.Calls.{MalformedAt, WellFormed};

/// The place at which the words are no record, or none.
pub(crate) fn malformed(words: &[u16]) -> Option<usize>
    ensures { MatchOption result (WellFormed words.now) (λ p. MalformedAt words.now p) }
{
    if words.len() < 2 {
        return Some(words.len());
    }
    let n = words[0] as usize;
    if n > 256 {
        return Some(0);
    }
    if words.len() < 2 + 3 * n {
        return Some(words.len());
    }
    let (steps, _) = words[2..2 + 3 * n].as_chunks::<3>();
    for (i, [_, _, mark]) in steps.iter().enumerate() {
        if *mark > 8 {
            return Some(4 + 3 * i);
        }
    }
    None
}

//! Pattern texts on their own.
use crate::problem::Problem;
use outline::outline;
use pattern::Pattern;

/// Shows how the pattern is read, or points at the place of its first fault.
pub(crate) fn describe_pattern(rt: &HostRuntime, text: &str) -> Result<(), Problem> {
    match Pattern::read(text.as_bytes()) {
        Ok(_) => {
            let reading = outline(rt.alloc(), text.as_bytes())?;
            println!(rt; "{reading}")?;
            Ok(())
        }
        Err(fault) => {
            point_at(rt, text, fault.place())?;
            Err(Problem::Refused(fault))
        }
    }
}

fn point_at(rt: &HostRuntime, text: &str, place: usize) -> Result<(), Problem> {
    let indent = " ".repeat(rt.alloc(), place)?;
    eprintln!(rt; "{text}")?;
    eprintln!(rt; "{indent}^")?;
    Ok(())
}

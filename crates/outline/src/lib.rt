//! How a pattern text is read, written out with every parenthesis.
//!
//! `outline` shows the symbols of a text that is a pattern: each pattern in parentheses, each of its sequences in
//! parentheses, the names numbered from 1, and the letters behind them. So `badge^A free? | pin` is shown as
//! `((1:badge^A 2:free?) | (3:pin))`. It writes what it reads and stops at the end or at a token that is none: whether a
//! text is a pattern is for crate `pattern` to say. Proved of it is only that it is safe and ends.
#![tactic(auto)]

use grammar::Symbol;
use reader::{Reader, next_symbol};
use std::alloc::{AllocError, Global};
use std::fmt::Write;

// What stands for a symbol; an open parenthesis opens a pattern and its first sequence.
fn write_symbol(shown: &mut String, symbol: Symbol) -> Result<(), AllocError> {
    match symbol {
        Symbol::Open => shown.push_str("(("),
        Symbol::Bar => shown.push_str(") | ("),
        Symbol::Close => shown.push_str("))"),
        _ => write!(shown, "{symbol}"),
    }
}

// Whether an atom begins with the symbol.
fn begins_atom(symbol: Symbol) -> bool {
    matches!(symbol, Symbol::Name(_) | Symbol::Empty | Symbol::Open)
}

// Whether an item may stand right behind the symbol, with a space between them.
fn ends_item(symbol: Symbol) -> bool {
    !matches!(symbol, Symbol::Bar | Symbol::Open)
}

/// The text as it is read.
pub fn outline(heap: Global, text: &[u8]) -> Result<String, AllocError> {
    let mut shown = String::from_str(heap, "((")?;
    let mut reader = Reader::new(text);
    let mut names = 0u16;
    let mut spaced = false;
    while let Ok((Some(symbol), _)) = next_symbol(&mut reader) {
        if spaced && begins_atom(symbol) {
            shown.push_str(" ")?;
        }
        if let Symbol::Name(_) = symbol {
            // a text that is too long to be a pattern may have more names than the number holds
            names = names.wrapping_add(1);
            write!(shown, "{names}:")?;
        }
        write_symbol(&mut shown, symbol)?;
        spaced = ends_item(symbol);
    }
    shown.push_str("))")?;
    Ok(shown)
}

#[cfg(test)]
mod tests {
    use super::*;
    use std::test::Fail;

    #[test]
    fn shows(rt: HostRuntime) -> Result<(), Fail> {
        let heap = rt.alloc();
        assert_eq!(rt;
            outline(heap, b"badge^A free? | pin")?.as_str(),
            "((1:badge^A 2:free?) | (3:pin))"
        );
        assert_eq!(rt;
            outline(heap, b"(any^H|empty)* stair+")?.as_str(),
            "((((1:any^H) | (empty))* 2:stair+))"
        );
        Ok(())
    }
}

// Tokens whose names are known.
ghost use Rattle.std.specs.Prelude.{◌≡◌, MatchResult};
ghost use Rattle.reader.specs.Symbols.{NextAt, TokenFault};

use crate::reader::{Reader, Token};
use crate::word::look_up;
use fault::PatternFault;
use grammar::Symbol;

/// The next symbol with its place, or none at the end of the text.
pub fn next_symbol(reader: &mut Reader) -> Result<(Option<Symbol>, usize), PatternFault>
    ensures same { reader.new.text.now ≡ reader.old.text.now }
    ensures symbol { MatchResult result
        (λ t. NextAt reader.old.text.now reader.old.at t.0 t.1 reader.new.at)
        (λ f. TokenFault reader.old.text.now reader.old.at f) }
{
    let (token, place) = reader.next_token()?;
    match token {
        Token::Name(letters) => {
            let word = look_up(letters, place)?;
            Ok((Some(word.into()), place))
        }
        Token::Lone(symbol) => Ok((Some(symbol), place)),
        Token::End => Ok((None, place)),
    }
}

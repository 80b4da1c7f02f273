//! The words of the command line, read.

ghost use Rattle.std.specs.Prelude.{◌≡◌, map, string_bytes};
ghost use Rattle.mip_lines.specs.Decimals.{number_in};
ghost use Rattle.mip_symbols.specs.Names.{name_of};
ghost use Rattle.mip_past_top.specs.Asks.{about, ask_by, ask_of};

use crate::ask::Ask;
use mip_lines::number;
use mip_symbols::Name;

/// What the words ask for, if they are `LINE` or `LINE NODE`.
pub fn parse(words: &[String]) -> Option<Ask>
    ensures { result ≡ ask_of (map string_bytes words.now) }
{
    let (line, rest) = words.split_first()?;
    ask_by(line_in(line.as_str().as_bytes())?, rest)
}

fn line_in(word: &[u8]) -> Option<u32>
    ensures { result ≡ number_in 0 20000 word.now }
{
    match number(0, 20_000, word) {
        Some(line) => Some(line as u32),
        None => None,
    }
}

/// The line, and the node if there is a word more.
fn ask_by(line: u32, rest: &[String]) -> Option<Ask>
    ensures { result ≡ ask_by (Some line) (map string_bytes rest.now) }
{
    let Some((name, more)) = rest.split_first() else {
        return Some(Ask { line, node: None });
    };
    if more.is_empty() {
        about(line, name.as_str().as_bytes())
    } else {
        None
    }
}

fn about(line: u32, name: &[u8]) -> Option<Ask>
    ensures { result ≡ about line (name_of name.now) }
{
    match Name::read(name) {
        Some(name) => Some(Ask {
            line,
            node: Some(name),
        }),
        None => None,
    }
}

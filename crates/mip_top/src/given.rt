//! How much of the output may wait, by the words that the program was started with.

ghost use Rattle.std.specs.Prelude.{◌≡◌, option_map, slice_get, string_bytes};
ghost use Rattle.mip_commands.specs.Given.{words_behind};
ghost use Rattle.mip_top.specs.Given.{is_live, room_by};

use std::env::Args;
use std::io::Result as IoResult;

/// How many bytes of the output are kept back at most, to be written by one call.
const ROOM: usize = 65_536;

/// How many bytes of the output may wait: none where a node or a hub is run, so that each line shows at once.
pub fn room_for(all: IoResult<Args>) -> usize
    ensures { result ≡ room_by (option_map string_bytes (slice_get (words_behind all) 0)) }
{
    match all {
        Ok(mut all) => {
            let _name = all.next();
            room_behind(all.next())
        }
        Err(_) => ROOM,
    }
}

/// How many bytes of the output may wait, by the first word behind the program's name.
fn room_behind(word: Option<String>) -> usize
    ensures { result ≡ room_by (option_map string_bytes word) }
{
    match word {
        Some(word) if is_live(word.as_str()) => 0,
        _ => ROOM,
    }
}

fn is_live(word: &str) -> bool
    ensures { result ≡ is_live word.now }
{
    word == "node" || word == "hub"
}

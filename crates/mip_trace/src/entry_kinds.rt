//! What stands behind each word of a trace.

ghost use Rattle.std.specs.Prelude.{◌≡◌, ◌≤◌, length};
ghost use Rattle.mip_trace.specs.EntryLines as lines;

use crate::entry_word::EntryWord;
use mip_rows::{Kind, Tail};

const UP: &[Kind] = &[
    Kind::Node,
    Kind::U64,
    Kind::Address,
    Kind::Address,
    Kind::U8,
];

const MADE: &[Kind] = &[
    Kind::Node,
    Kind::Address,
    Kind::U64,
    Kind::Token,
    Kind::SomeToken,
];

const ACCEPTED: &[Kind] = &[
    Kind::Node,
    Kind::U64,
    Kind::Address,
    Kind::U8,
    Kind::Address,
    Kind::U16,
    Kind::Moment,
    Kind::U16,
    Kind::SomeU16,
];

const HOME: &[Kind] = &[
    Kind::Node,
    Kind::Address,
    Kind::Address,
    Kind::U16,
    Kind::Moment,
];

const ROW: &[Kind] = &[
    Kind::Node,
    Kind::Address,
    Kind::U8,
    Kind::Address,
    Kind::U16,
    Kind::Moment,
    Kind::Moment,
];

/// The kinds of the values behind a word.
pub fn kinds_of(word: EntryWord) -> &'static [Kind]
    ensures value { result.now ≡ lines.kinds_of word }
    ensures few { length result.now ≤ 10 }
{
    match word {
        EntryWord::Sent => &[Kind::U64, Kind::Node, Kind::Shield],
        EntryWord::Handed => &[Kind::U64, Kind::Node],
        EntryWord::Gone => &[Kind::U64, Kind::Gone],
        EntryWord::Lost => &[Kind::U64],
        EntryWord::Unsent => &[Kind::Node, Kind::Unsent],
        EntryWord::Listening | EntryWord::Deafened => &[Kind::Outsider, Kind::Link],
        EntryWord::Injected => &[Kind::U64, Kind::Outsider, Kind::Link],
        EntryWord::Heard => &[Kind::U64, Kind::Outsider],
        EntryWord::Claimed | EntryWord::Released => &[Kind::Who, Kind::Link, Kind::Address],
        EntryWord::Taken => &[Kind::Who, Kind::Link, Kind::Address, Kind::Who],
        EntryWord::Denied => &[Kind::Node, Kind::U64, Kind::U8],
        EntryWord::Dropped => &[Kind::Node, Kind::U64, Kind::Dropped],
        EntryWord::Up => UP,
        EntryWord::At => &[Kind::Moment],
        EntryWord::Idle => &[],
        EntryWord::Restarted => &[Kind::Node],
        EntryWord::Settled => &[Kind::Node, Kind::Node, Kind::Answer],
        EntryWord::Moved => &[Kind::Node, Kind::SomeLink],
        EntryWord::Advertised => &[Kind::Node, Kind::Link, Kind::SomeAddress],
        EntryWord::Careof | EntryWord::Unregistered | EntryWord::Chosen | EntryWord::Unbound => &[
            Kind::Node,
            Kind::Address,
        ],
        EntryWord::Prefixes => &[Kind::Node, Kind::U32, Kind::U32],
        EntryWord::Registered | EntryWord::Bound => &[Kind::Node, Kind::Address, Kind::Moment],
        EntryWord::Refused => &[Kind::Node, Kind::U8],
        EntryWord::Made => MADE,
        EntryWord::Accepted => ACCEPTED,
        EntryWord::Origin => &[Kind::U64, Kind::SomeU64, Kind::U64],
        EntryWord::Forged => &[Kind::Cause],
        EntryWord::Home => HOME,
        EntryWord::Row => ROW,
    }
}

/// What stands behind the values.
pub fn tail_of(word: EntryWord) -> Tail
    ensures { result ≡ lines.tail_kind word }
{
    match word {
        EntryWord::Sent | EntryWord::Injected => Tail::Packet,
        EntryWord::Up => Tail::Bytes,
        _ => Tail::Nothing,
    }
}

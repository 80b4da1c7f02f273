//! Who holds an address, the own address of a node, and the moment, as the entries tell them.

ghost use Rattle.std.specs.Prelude.{◌≡◌, option_map};
ghost use Rattle.mip_history.specs.Questions.{moment_says, moment_in, holder_says, holder_in, claims, declared_in};

use mip_entries::Entry;
use mip_words::{Address, Moment};

/// The moment from an entry on.
fn moment_said(entry: &Entry) -> Option<Moment>
    ensures { option_map (λ m. m.0) result ≡ moment_says entry.now }
{
    match entry {
        Entry::At { moment } => Some(*moment),
        _ => None,
    }
}

/// The moment at the end of a history that began at a moment.
pub fn moment(history: &[Entry], start: Moment) -> Moment
    ensures { result.0 ≡ moment_in start.0 history.now }
{
    let mut moment = start;
    for entry in history {
        match moment_said(entry) {
            Some(said) => moment = said,
            None => (),
        }
    }
    moment
}

/// Who holds an address from an entry on.
fn holder_said(entry: &Entry, address: Address) -> Option<Option<u8>>
    ensures { result ≡ holder_says address.0 entry.now }
{
    match entry {
        Entry::Claimed {
            who,
            address: claimed,
            ..
        } => {
            if address.0 == claimed.0 {
                Some(Some(*who))
            } else {
                None
            }
        }
        Entry::Released {
            address: released,
            ..
        } => {
            if address.0 == released.0 {
                Some(None)
            } else {
                None
            }
        }
        _ => None,
    }
}

/// Who holds an address: a node's number, or 32 plus an outsider's.
pub fn holder(history: &[Entry], address: Address) -> Option<u8>
    ensures { result ≡ holder_in history.now address.0 }
{
    let mut holder = None;
    for entry in history {
        match holder_said(entry, address) {
            Some(said) => holder = said,
            None => (),
        }
    }
    holder
}

/// The address that an entry claims for somebody.
fn claimed_by(entry: &Entry, by: u8) -> Option<Address>
    ensures { result ≡ claims by entry.now }
{
    match entry {
        Entry::Claimed { who, address, .. } => { if by == *who { Some(*address) } else { None } }
        _ => None,
    }
}

/// The own address of whoever has this number: the first that it claimed.
pub fn declared(history: &[Entry], by: u8) -> Option<Address>
    ensures { result ≡ declared_in history.now by }
{
    for entry in history {
        match claimed_by(entry, by) {
            Some(address) => return Some(address),
            None => (),
        }
    }
    None
}

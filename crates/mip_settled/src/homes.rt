//! What an agent has registered for a home, as its entries tell it.

ghost use Rattle.std.specs.Prelude.{◌≡◌, is_some};
ghost use Rattle.mip_history.specs.Registered.{registration_says, last_registration};
ghost use Rattle.mip_history.specs.Told.{careof_in};
ghost use Rattle.mip_history.specs.Settled.{any_node};

use mip_entries::Entry;
use mip_rules_agent::HomeBinding;
use mip_words::{Address, Moment};

/// What an entry tells of the home at an agent.
fn registration_said(entry: &Entry, agent: u8, home: Address) -> Option<Option<HomeBinding>>
    ensures { result ≡ registration_says agent home entry.now }
{
    match entry {
        Entry::Home {
            node,
            home: h,
            careof,
            sequence,
            end,
        } => {
            if agent == node.0 && h.0 == home.0 {
                Some(Some(HomeBinding {
                    careof: *careof,
                    sequence: *sequence,
                    end: *end,
                }))
            } else {
                None
            }
        }
        Entry::Restarted { node } => { if agent == node.0 { Some(None) } else { None } }
        _ => None,
    }
}

/// The last registration of a home at an agent, or its end.
pub fn registration(history: &[Entry], agent: u8, home: Address) -> Option<HomeBinding>
    ensures { result ≡ last_registration history.now agent home }
{
    let mut registration = None;
    for entry in history {
        match registration_said(entry, agent, home) {
            Some(said) => registration = said,
            None => (),
        }
    }
    registration
}

/// The care-of address that an agent has registered for a home at a moment.
pub fn careof(history: &[Entry], now: Moment, agent: u8, home: Address) -> Option<Address>
    ensures { result ≡ careof_in now.0 history.now agent home }
{
    match registration(history, agent, home) {
        Some(b) => {
            if b.careof.0 != home.0 && now.0 < b.end.0 {
                Some(b.careof)
            } else {
                None
            }
        }
        None => None,
    }
}

/// Some node has the home registered at a moment.
pub fn is_registered_anywhere(history: &[Entry], now: Moment, home: Address) -> bool
    ensures { result ≡ any_node (λ g. is_some (careof_in now.0 history.now g home)) }
{
    for number in 0..256u16 {
        if careof(history, now, number as u8, home).is_some() {
            return true;
        }
    }
    false
}

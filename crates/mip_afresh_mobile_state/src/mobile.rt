ghost use Rattle.std.specs.Prelude.{◌≡◌, ◌≤◌, IfOk, IsTrue};
ghost use Rattle.mip_words.specs.Addresses.{is_routable};
ghost use Rattle.mip_rules_mobile.specs.Questions.{fresh};
ghost use Rattle.mip_afresh_mobile_state.specs.Mobiles.{seen_of};

use crate::discovery::Discovery;
use crate::peers::fresh_peers;
use crate::row::Row;
use crate::timer::Timer;
use mip_nonce::Secrets;
use mip_rules_correspondent::Identity;
use mip_rules_mobile::{Attachment, HomeUpdate, Numbering, Peer, Registered};
use mip_words::{Address, Memory};
use std::alloc::Global;
use std::marker::Model;

/// How many homes its correspondent part has room for.
pub(crate) const PART_ROOM: u32 = 16;

/// What a mobile knows, but for the bindings of its correspondent part (RFC 6275 sections 4.5 and 11.1). Its home address is routable,
/// its bindings may have one number at least, and it has
/// sixteen rows at most.
#[derive(Drop)]
pub struct Mobile {
    pub(crate) identity: Identity,
    /// How many numbers its bindings may have.
    pub(crate) numbers: u8,
    /// The agent that it was declared with.
    pub(crate) declared: Option<Address>,
    pub(crate) standing: Attachment,
    /// How many places it came to, counted modulo `numbers`.
    pub(crate) places: u8,
    pub(crate) registered: Option<Registered>,
    pub(crate) latest: Option<HomeUpdate>,
    /// The agent that the last home registration went to.
    pub(crate) agent: Option<Address>,
    /// A home registration is to be undone.
    pub(crate) owes: bool,
    pub(crate) numberings: Vec<Numbering>,
    /// How many milliseconds the resending of the last home registration waits.
    pub(crate) wait: u64,
    pub(crate) discovery: Option<Discovery>,
    /// The identifier of the next discovery.
    pub(crate) discoveries: u16,
    pub(crate) found: Vec<Address>,
    /// How many of the agents found were chosen since.
    pub(crate) tried: usize,
    pub(crate) chosen: Option<Address>,
    /// The identifier of the next Mobile Prefix Solicitation.
    pub(crate) solicitations: u16,
    /// The number of the next cookie.
    pub(crate) cookies: u64,
    pub(crate) rows: Vec<Row>,
    pub(crate) timers: Vec<Timer>,
    pub(crate) peers: Vec<Peer>,
}

impl Model for Mobile {
    ghost use Rattle.std.specs.Prelude.{◌≡◌, ◌≤◌, map, option_map, length, IsTrue};
    ghost use Rattle.mip_words.specs.Addresses.{is_routable};
    ghost use Rattle.mip_afresh_mobile_state.specs.Mobiles.{MobileSeen};
    ghost use Rattle.mip_afresh_mobile_state.specs.Trials.{row_seen, timer_seen, discovery_seen};

    ghost Value = { MobileSeen };

    ghost view = { λ m. record {
      identity = m.identity;
      numbers = m.numbers;
      declared = m.declared;
      standing = m.standing;
      places = m.places;
      registered = m.registered;
      latest = m.latest;
      agent = m.agent;
      owes = m.owes;
      numberings = m.numberings.items;
      wait = m.wait;
      discovery = option_map discovery_seen m.discovery;
      discoveries = m.discoveries;
      found = m.found.items;
      tried = m.tried;
      chosen = m.chosen;
      solicitations = m.solicitations;
      cookies = m.cookies;
      list = record { rows = map row_seen m.rows.items; timers = map timer_seen m.timers.items };
      peers = m.peers.items;
    } };

    ghost invariant = { λ m. IsTrue (is_routable m.identity.own.0) × (1 ≤ m.numbers)
        × (length m.rows.items ≤ 16) };
}

impl Mobile {
    /// A new mobile, at home: its home address, the agent that it is declared with, how many numbers its bindings may have, and the
    /// secrets of its first life.
    pub fn new(
        alloc: Global,
        home: Address,
        declared: Option<Address>,
        numbers: u8,
        secrets: Secrets,
    ) -> Result<Mobile, Memory>
        requires routable { IsTrue (is_routable home.0) }
        requires some { 1 ≤ numbers }
        ensures { IfOk result (λ m. m ≡ seen_of (fresh home declared numbers secrets)) }
    {
        Ok(Mobile {
            identity: Identity {
                own: home,
                secrets,
                room: PART_ROOM,
            },
            numbers,
            declared,
            standing: Attachment::AtHome,
            places: 0,
            registered: None,
            latest: None,
            agent: None,
            owes: false,
            numberings: Vec::new(alloc),
            wait: 0,
            discovery: None,
            discoveries: 1,
            found: Vec::new(alloc),
            tried: 0,
            chosen: None,
            solicitations: 1,
            cookies: 0,
            rows: Vec::new(alloc),
            timers: Vec::new(alloc),
            peers: fresh_peers(alloc)?,
        })
    }
}

ghost use Rattle.std.specs.Prelude.{◌≡◌, ◌≤◌, ℕ, List, length, true, Ok};
ghost use Rattle.std.specs.List.{list_all};
ghost use Rattle.mip_words.specs.Addresses.{is_routable};
ghost use Rattle.mip_config.specs.Facts.{address_of, is_home, is_sendable};
ghost use Rattle.mip_config.specs.Reading.{reading};

use crate::payload::Payload;
use crate::role::Role;
use mip_frames::Routes;
use mip_words::{Address, Items, NodeId};

/// The configuration of one node: the seed of its secrets, its number, the port that it listens on, where its packets go, what it
/// is, the homes that it serves as an agent, and what it sends. All ports are of this host. Each is what some text is read as.
#[derive(Drop)]
pub struct Config {
    pub seed: [u8; 32],
    pub node: NodeId,
    pub port: u16,
    pub routes: Routes,
    /// The port of the packets that no route is for.
    pub fallback: Option<u16>,
    pub role: Role,
    pub serves: Items<Address>,
    pub payloads: Items<Payload>,
    pub ghost read: { ∥ ((text : List ℕ) × (reading text ≡ Ok (record { seed = seed; node = node; port = port; routes = routes; fallback = fallback; role = role; serves = serves; payloads = payloads }))) ∥₁ },
    pub ghost routable: { is_routable (address_of role).0 ≡ true },
    pub ghost homes: { list_all is_home serves ≡ true },
    pub ghost sendable: { list_all is_sendable payloads ≡ true },
    pub ghost few_routes: { length routes ≤ 64 },
    pub ghost few_homes: { length serves ≤ 8 },
    pub ghost few_payloads: { length payloads ≤ 1000 },
}

ghost use Rattle.std.specs.Prelude.{◌≡◌, ◌≤◌, ℕ, List, length, Ok};
ghost use Rattle.mip_hub.specs.Reading.{reading};

use crate::hub_lines::HubLines;

/// The configuration of a hub: the port that it listens on, and what it does in which turn. All ports are of this host.
/// Each is what some text is read as.
#[derive(Drop)]
pub struct HubConfig {
    pub port: u16,
    pub lines: HubLines,
    pub ghost read: { ∥ ((text : List ℕ) × (reading text ≡ Ok (record { port = port; lines = lines }))) ∥₁ },
    pub ghost few_lines: { length lines ≤ 1000 },
}

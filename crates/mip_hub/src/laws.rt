//! Laws of what becomes of a datagram, and of what the lines of a turn do. The functions do nothing: what they ensure is the law.

ghost use Rattle.std.specs.Prelude.{◌≡◌, ℕ, List, [], ◌∷◌, ◌++◌, ◌⊎◌, Bool, Some, None, replicate};
ghost use Rattle.mip_ipv6.specs.Packet as packets;
ghost use Rattle.mip_frames.specs.Framing as framing;
ghost use Rattle.mip_words.specs.declared.address.Address as addresses;
ghost use Rattle.mip_words.specs.declared.prefix.Prefix as prefixes;
ghost use Rattle.mip_hub.specs.Adverts.{advert_packet};
ghost use Rattle.mip_hub.specs.PassingLaws.{sent_for, HasPort};
ghost use Rattle.mip_hub.specs.Ports.{port_at};
ghost use Rattle.mip_hub.specs.Turns.{begun, lines_done, lines_calls, turn_calls};
ghost use Rattle.mip_hub.specs.TurnsLaws.{SaysNoCopies, datagrams_of};
ghost use Rattle.mip_hub.specs.declared.hub.Hub as hubs;
ghost use Rattle.mip_hub.specs.declared.hub_line.HubLine as lines;
ghost use Rattle.mip_hub.specs.declared.hub_line.HubLine.TheVariants as kinds;
ghost use Rattle.mip_hub.specs.declared.port_row.PortRow as rows;

/// A law: a datagram that is a frame whose packet is none that is refused, and whose destination is at a port, goes to that port as
/// often as its turn says, byte for byte as it came. Of any other datagram nothing is sent on.
pub fn frames_pass_as_they_came()
    ensures passes { (ports : List rows.PortRow) (copies : ℕ) (datagram : List ℕ) (port : ℕ) → HasPort ports datagram port
        → sent_for ports copies datagram ≡ replicate copies (port, datagram) }
    ensures only { (ports : List rows.PortRow) (copies : ℕ) (datagram : List ℕ)
        → (sent_for ports copies datagram ≡ []) ⊎ ((port : ℕ) × HasPort ports datagram port) }
{}

/// A law: in a turn of which no line says how often, a frame whose destination is at a port goes there once, behind what the lines of the turn send.
#[tactic(auto, using(crate::proofs::HubRules::goes_once))]
pub fn frames_go_once()
    ensures { (rows : List lines.HubLine) (turn : ℕ) (hub : hubs.Hub) (datagram : List ℕ) (port : ℕ) → SaysNoCopies turn rows
        → HasPort (lines_done rows turn (begun hub)).ports datagram port
        → datagrams_of (turn_calls rows turn (Some datagram) hub) ≡ datagrams_of (lines_calls rows turn) ++ (port, datagram) ∷ [] }
{}

/// A law: the last line of a turn counts. Behind a claim its address is at its port, whoever had it, and behind a release at none.
pub fn last_lines_count()
    ensures claim { (rows : List lines.HubLine) (turn : ℕ) (address : addresses.Address) (port : ℕ) (hub : hubs.Hub)
        → port_at (lines_done (rows ++ kinds.Claim turn address port ∷ []) turn hub).ports address ≡ Some port }
    ensures release { (rows : List lines.HubLine) (turn : ℕ) (address : addresses.Address) (hub : hubs.Hub)
        → port_at (lines_done (rows ++ kinds.Release turn address ∷ []) turn hub).ports address ≡ None }
{}

/// A law: a router is advertised to the port that its line says, behind what the lines before it send and in front of what those behind it do.
#[tactic(auto, using(crate::proofs::HubRules::advertised))]
pub fn routers_are_advertised()
    ensures { (first rest : List lines.HubLine) (turn : ℕ) (prefix : prefixes.Prefix) (agent : Bool) (port : ℕ)
        → datagrams_of (lines_calls (first ++ kinds.Advertise turn prefix agent port ∷ rest) turn)
        ≡ datagrams_of (lines_calls first turn) ++ (port, framing.frame_bytes None (advert_packet prefix agent)) ∷ datagrams_of (lines_calls rest turn) }
{}

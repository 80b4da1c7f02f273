//! Laws of a node's run. The functions do nothing: what they ensure is the law.

ghost use Rattle.std.specs.Prelude.{◌≡◌, ℕ, List, ◌∷◌, length, Option, Some, None};
ghost use Rattle.mip_config.specs.Configs as configs;
ghost use Rattle.mip_config.specs.Facts.{address_of};
ghost use Rattle.mip_words.specs.declared.address.Address as addresses;
ghost use Rattle.mip_words.specs.declared.shield.Shield as shields;
ghost use Rattle.mip_frames.specs.Framing as frames;
ghost use Rattle.mip_frames.specs.Framing.{framed_in};
ghost use Rattle.mip_node.specs.Nodes as nodes;
ghost use Rattle.mip_node.specs.Seen.{Sees};
ghost use Rattle.mip_node.specs.Turns.{Seen, before, turned};
ghost use Rattle.mip_node.specs.TurnsLaws.{ActsFirst, Leaves};

/// Where a clock and a link tell what they will answer, so many turns find one thing only.
#[tactic(auto, using(crate::proofs::Told::one_run))]
pub fn told_turns_are_one()
    ensures { (moment : ℕ) (moments : List ℕ) (items : List (Option (List ℕ))) (some other : List Seen) → Sees (Some (moment ∷ moments)) (Some items) some
        → Sees (Some (moment ∷ moments)) (Some items) other → length some ≡ length other → some ≡ other }
{}

/// A law: a turn begins at the moment that its clock tells, does what is due, sends its payloads in their order, and then waits for a
/// datagram; where none came that was all.
pub fn turns_take_their_steps()
    ensures first { (c : configs.Content) (turn now : ℕ) (s : nodes.Serving) → ActsFirst c turn now s (before c turn now s) }
    ensures quiet { (c : configs.Content) (turn now : ℕ) (s : nodes.Serving) → turned c turn (now, None) s ≡ before c turn now s }
{}

/// A law: no datagram goes in silence. One that is a frame for the node is handed over, and any other is dropped as no frame.
#[tactic(auto, using(crate::proofs::Steps::leaves))]
pub fn datagrams_leave_entries()
    ensures { (c : configs.Content) (turn now : ℕ) (datagram : List ℕ) (s : nodes.Serving)
        → Leaves c (before c turn now s).node.next (framed_in (address_of c.role) datagram) (before c turn now s).node.entries
        (turned c turn (now, Some datagram) s).node.entries }
{}

/// A law: a frame under a shield is for a node only where the shield ends at its address.
#[tactic(auto, using(crate::proofs::Steps::ends_here))]
pub fn shields_end_at_their_node()
    ensures { (own : addresses.Address) (datagram : List ℕ) (frame : frames.Framed) (shield : shields.Shield) → framed_in own datagram ≡ Some frame
        → frame.shield ≡ Some shield → shield.to.0 ≡ own.0 }
{}

ghost use Rattle.std.specs.Prelude.{◌≡◌, ◌≤◌, ◌++◌, false, true, [], Ok, IfOk, OnOk, OnErr, IsErrOf};
ghost use Rattle.std.proofs.Common.{◌∙◌, refl};
ghost use Rattle.std.specs.Borrow.{sem, Lends};
ghost use Rattle.std.specs.Option.{option_map};
ghost use mir.Syntax.{named};
ghost use Rattle.mip_outside.specs.Cause.{Rose};
ghost use Rattle.mip_outside.specs.LinkCalls.{granted};
ghost use Rattle.mip_outside.specs.Wires.{is_sent};
ghost use Rattle.mip_frames.specs.Framing.{IsInRange};
ghost use Rattle.mip_frames.specs.contracts.frames.Frames.{the_row};
ghost use Rattle.mip_frames.specs.Routing.{put_for, sent_for};
ghost use Rattle.mip_frames.specs.Lending.{IsSameWire, with_link};
ghost use Rattle.mip_frames.specs.Sending.{asked_by, AsksOnce, packets_of};

use crate::routes::Routes;
use crate::sending::send_frame;
use mip_ghost_log::GhostLog;
use mip_outside::{Link, Put, PutFault, Wire};
use mip_words::Shield;
use std::alloc::Global;

/// A wire that sends each packet in a frame over a link, to the port of its route.
#[derive(Drop)]
pub struct Frames<'a, L: Link> {
    alloc: Global,
    link: &'a mut L,
    routes: &'a Routes,
    fallback: Option<u16>,
    answered: GhostLog<Result<Put, PutFault>>,
}

impl<'a, L: Link> Frames<'a, L> {
    /// The fallback is the port of the packets that no route is for.
    pub fn new(
        alloc: Global,
        link: &'a mut L,
        routes: &'a Routes,
        fallback: Option<u16>,
    ) -> Frames<'a, L>
        ensures same_link { result.link.ghost_name ≡ link.entry.ghost_name }
        ensures link { result.link.now ≡ link.old }
        ensures routes { result.routes.now ≡ routes.now }
        ensures fallback { result.fallback ≡ fallback }
        ensures answered { result.answered.items ≡ [] }
    {
        Frames {
            alloc,
            link,
            routes,
            fallback,
            answered: GhostLog::new(),
        }
    }

    /// The link, to receive from.
    pub fn link(&mut self) -> &mut L
        ensures value { result.now ≡ self.old.link.now }
        ensures* lends { sem 𝓛 (Lends (the_row (record { mir = named 1; lft = [] }) L.row) L.row self.entry result (with_link self.old)) }
    {
        self.link
    }

    /// Sends a packet in a frame to the port of its route. Where it has none, or its frame is too long, the link stays as it was.
    pub fn send(&mut self, shield: Option<Shield>, packet: &[u8]) -> Result<Put, PutFault>
        ensures answers { IfOk result (λ put. put ≡ put_for self.old.routes.now self.old.fallback shield packet.now) }
        ensures unsent { is_sent (put_for self.old.routes.now self.old.fallback shield packet.now) ≡ false
            → (result ≡ Ok (put_for self.old.routes.now self.old.fallback shield packet.now)) × (self.new.link.now ≡ self.old.link.now) }
        ensures sent { OnOk result (L.sent self.new.link.now
            ≡ option_map (sent_for self.old.routes.now self.old.fallback shield packet.now) (L.sent self.old.link.now)) }
        ensures err { OnErr result (L.sent self.new.link.now ≡ L.sent self.old.link.now) }
        ensures asked { IfOk result (λ put. L.calls self.new.link.now ≡ L.calls self.old.link.now ++ granted (asked_by put)) }
        ensures ends { AsksOnce (IsErrOf result PutFault.Failed) (IsErrOf result PutFault.Memory) (L.calls self.old.link.now) (L.calls self.new.link.now) }
        ensures range { IsInRange shield }
        ensures kept { (L.coming self.new.link.now ≡ L.coming self.old.link.now) × (L.port self.new.link.now ≡ L.port self.old.link.now) }
        ensures no_fewer { L.faults self.old.link.now ≤ L.faults self.new.link.now }
        ensures cause { IsErrOf result PutFault.Failed → Rose (L.faults self.old.link.now) (L.faults self.new.link.now) }
        ensures same { IsSameWire self.old self.new }
        ensures answered { self.new.answered ≡ self.old.answered }
    {
        send_frame(
            self.alloc,
            self.link,
            self.routes,
            self.fallback,
            shield,
            packet,
        )
    }
}

impl<'a, L: Link> Wire for Frames<'a, L> {
    ghost gives = { λ _. true };

    ghost out = { λ f. packets_of (L.sent f.link.now) };

    ghost answered = { λ f. f.answered.items };

    ghost faults = { λ f. L.faults f.link.now };

    ghost is_same = { IsSameWire };

    ghost same_self = { λ _. (refl, refl, refl) };

    ghost same_since = { λ _ _ _ first next. (next.0 ∙ first.0, next.1 ∙ first.1, next.2 ∙ first.2) };

    #[tactic(auto, using(crate::proofs::SendingLaws::out_told))]
    fn put(&mut self, shield: Option<Shield>, packet: &[u8]) -> Result<Put, PutFault> {
        let answer = self.send(shield, packet);
        self.answered = self.answered.with(&answer);
        answer
    }
}

//! The steps of a call that call the correspondent part.

ghost use Rattle.std.specs.Prelude.{◌≡◌, OnOk, IfOk};
ghost use Rattle.std.specs.List.{AllByRecursion};
ghost use Rattle.mip_ipv6.specs.Packet.{packet as tree};
ghost use Rattle.mip_rules_correspondent.specs.Calls as parts;
ghost use Rattle.mip_rules_correspondent.specs.Steps.{answers_of};
ghost use Rattle.mip_rules_correspondent.specs.Seen.{transition_at};
ghost use Rattle.mip_rules_mobile.specs.Steps.{Parts};
ghost use Rattle.mip_rules_mobile.specs.Transitions.{Transition, noted};
ghost use Rattle.mip_mobile_context.specs.Seen.{Shows};
ghost use Rattle.mip_mobile_context.specs.Outgoing.{CanPass};

use crate::call_context::CallContext;
use crate::data::Data;
use crate::part_packet::PartPacket;
use mip_entries::Answers;
use mip_words::{Address, Memory};
use std::alloc::Global;

impl CallContext {
    /// The correspondent part is given a packet.
    pub(crate) fn give_part(
        &mut self,
        alloc: Global,
        number: u64,
        packet: &PartPacket<'_>,
    ) -> Result<Answers, Memory>
        ensures shows { (t : Transition) → Shows self.old t → OnOk result (Shows self.new (noted (Parts (parts.Part number (tree packet.now.packet))) t)) }
        ensures answers { IfOk result (λ a. a ≡
            answers_of (transition_at self.old.known.part self.old.moment (parts.Part number (tree packet.now.packet))).steps) }
        ensures pass { IfOk result (λ a. AllByRecursion CanPass a) }
    {
        let answers = self
            .known
            .part
            .part(alloc, self.moment, number, &packet.packet)?;
        Ok(answers)
    }

    /// The correspondent part is asked for a Binding Refresh Request to a home.
    pub(crate) fn refresh_part(&mut self, alloc: Global, home: Address) -> Result<Answers, Memory>
        ensures shows { (t : Transition) → Shows self.old t → OnOk result (Shows self.new (noted (Parts (parts.Refresh home)) t)) }
        ensures answers { IfOk result (λ a. a ≡ answers_of (transition_at self.old.known.part self.old.moment (parts.Refresh home)).steps) }
        ensures pass { IfOk result (λ a. AllByRecursion CanPass a) }
    {
        let answers = self.known.part.refresh(alloc, self.moment, home)?;
        Ok(answers)
    }

    /// The correspondent part is asked to send data.
    pub(crate) fn send_part(
        &mut self,
        alloc: Global,
        to: Address,
        data: &Data<'_>,
    ) -> Result<Answers, Memory>
        ensures shows { (t : Transition) → Shows self.old t
            → OnOk result (Shows self.new (noted (Parts (parts.Send to data.now.proto data.now.payload.now)) t)) }
        ensures answers { IfOk result (λ a. a ≡
            answers_of (transition_at self.old.known.part self.old.moment (parts.Send to data.now.proto data.now.payload.now)).steps) }
        ensures pass { IfOk result (λ a. AllByRecursion CanPass a) }
    {
        let answers = self
            .known
            .part
            .send(alloc, self.moment, to, data.proto, data.payload)?;
        Ok(answers)
    }
}

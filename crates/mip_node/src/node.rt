ghost use Rattle.std.specs.Prelude.{◌≡◌, option_map, IfOk, OnOk, OnErr};
ghost use Rattle.mip_roles.specs.Calls.{asked, IsAskable};
ghost use Rattle.mip_node.specs.Roles.{answers_at, role_after, has_due, IsBy};
ghost use Rattle.mip_node.specs.Nodes.{noted, counted, with_role, is_at, begun, after_put};
ghost use Rattle.mip_entries.specs.declared.entry.Entry.TheVariants.{Sent};
ghost use Rattle.mip_node.specs.Settings.{said};
ghost use Rattle.mip_node.specs.Turns.{first_node};

use crate::role::{act, first_role, has_due};
use crate::setting::Setting;
use crate::turn_moment::TurnMoment;
use mip_entries::{Answers, Entry};
use mip_outside::Put;
use mip_roles::{Call, Role};
use mip_words::{Bytes, Memory, Moment, NodeId, Why};
use std::marker::Model;

/// A node that is run over a link: its role, and what it did in this turn.
#[derive(Drop)]
pub struct Node {
    role: Role,
    /// The number of the next packet.
    next: u64,
    /// The moment of the last turn.
    last: Option<Moment>,
    /// The entries of this turn.
    entries: Vec<Entry>,
}

impl Model for Node {
    ghost use Rattle.std.specs.Prelude.{option_map};
    ghost use Rattle.mip_node.specs.Nodes.{Running};

    ghost Value = { Running };

    ghost view = { λ n. record { role = n.role; next = n.next; last = option_map (λ m. m.0) n.last; entries = n.entries.items } };
}

fn is_at(last: Option<Moment>, now: Moment) -> bool
    ensures { result ≡ is_at (option_map (λ m. m.0) last) now.0 }
{
    match last {
        Some(last) => last.0 == now.0,
        None => false,
    }
}

impl Node {
    /// The configured node, before its first turn.
    #[tactic(auto, unfolding(crate::specs::Turns::first_node))]
    pub fn new(setting: &Setting<'_>) -> Result<Node, Memory>
        ensures node { IfOk result (λ n. n ≡ first_node (said setting.now)) }
        ensures timely { IfOk result (λ n. IsBy n.role 0) }
    {
        Ok(Node {
            role: first_role(setting)?,
            next: 0,
            last: None,
            entries: Vec::new(setting.alloc),
        })
    }

    /// The node leaves an entry.
    pub fn note(&mut self, entry: Entry) -> Result<(), Memory>
        ensures ok { OnOk result (self.new ≡ noted entry self.old) }
        ensures err { OnErr result (self.new ≡ self.old) }
    {
        self.entries.push(entry)?;
        Ok(())
    }

    /// The entries of this turn.
    pub fn entries(&self) -> &[Entry]
        ensures { result.now ≡ self.now.entries }
    {
        self.entries.as_slice()
    }

    /// The number of the next packet.
    pub fn next(&self) -> u64
        ensures { result ≡ self.now.next }
    {
        self.next
    }

    /// A packet takes its number. The numbers go on from 0 behind the last of 64 bits.
    pub fn count(&mut self)
        ensures { self.new ≡ counted self.old }
    {
        self.next = self.next.wrapping_add(1);
    }

    /// A turn begins: its moment is told where it is not that of the turn before.
    #[tactic(auto, unfolding(crate::specs::Nodes::begun))]
    pub fn begin(&mut self, now: Moment) -> Result<(), Memory>
        ensures ok { OnOk result (self.new ≡ begun now.0 self.old) }
        ensures role { self.new.role ≡ self.old.role }
    {
        let told = is_at(self.last, now);
        self.last = Some(now);
        self.entries.clear();
        if told {
            return Ok(());
        }
        self.note(Entry::At { moment: now })
    }

    /// A packet was put on the link: one that was not sent takes no number.
    #[tactic(auto, unfolding(crate::specs::Nodes::after_put))]
    pub fn note_put(
        &mut self,
        by: NodeId,
        put: Put,
        shielded: bool,
        packet: Bytes,
    ) -> Result<(), Memory>
        ensures ok { OnOk result (self.new ≡ after_put by put shielded packet self.old) }
        ensures role { self.new.role ≡ self.old.role }
    {
        match put {
            Put::Sent => self.note_sent(by, shielded, packet),
            Put::NoRoute => self.note(Entry::Unsent {
                node: by,
                why: Why::NoRoute,
            }),
            Put::Oversize => self.note(Entry::Unsent {
                node: by,
                why: Why::Size,
            }),
        }
    }

    fn note_sent(&mut self, by: NodeId, shielded: bool, packet: Bytes) -> Result<(), Memory>
        ensures ok { OnOk result (self.new ≡ counted (noted (Sent self.old.next by shielded packet) self.old)) }
        ensures role { self.new.role ≡ self.old.role }
    {
        self.note(Entry::Sent {
            number: self.next,
            node: by,
            shielded,
            packet,
        })?;
        self.count();
        Ok(())
    }

    /// The node's role is asked something.
    pub fn act(
        &mut self,
        setting: &Setting<'_>,
        now: TurnMoment,
        call: Call<'_>,
    ) -> Result<Answers, Memory>
        requires later { IsBy self.old.role now.moment.0 }
        requires askable { IsAskable call }
        ensures answers { IfOk result (λ a. a ≡ answers_at self.old.role now.moment.0 (asked call.entry)) }
        ensures after { OnOk result (self.new ≡ with_role (role_after self.old.role now.moment.0 (asked call.entry)) self.old) }
        ensures timely { IsBy self.new.role now.moment.0 }
    {
        act(&mut self.role, setting, now, call)
    }

    /// Whether it has work due.
    pub fn has_due(&self, now: Moment) -> bool
        ensures { result ≡ has_due self.now.role now.0 }
    {
        has_due(&self.role, now)
    }
}

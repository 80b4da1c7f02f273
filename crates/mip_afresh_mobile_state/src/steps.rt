//! The steps of a mobile, a function each.

ghost use Rattle.std.specs.Prelude.{◌≡◌, ◌++◌, ◌∷◌, [], OnOk};
ghost use Rattle.mip_entries.specs.declared.answer.Answer.TheVariants.{Note, Send};
ghost use Rattle.mip_rules_correspondent.specs.Calls as parts;
ghost use Rattle.mip_rules_mobile.specs.Calls.{Call};
ghost use Rattle.mip_rules_mobile.specs.Trials.{Start, HomeTest, CareofTest, Resequence, Acknowledge, Rest};
ghost use Rattle.mip_rules_mobile.specs.Sendings.{Sending, RegistersHome, DeregistersHome, Solicits, packet_of_sending, shield_of, shield_to, registration_packet, deregistration_packet, solicitation_packet, PeerUpdate, update_packet};
ghost use Rattle.mip_rules_mobile.specs.Steps.{Called, Parts, Notes, Sends, Unsends, Drops, Claims, Releases, FindsTaken, Arrives, Detaches, Restarts, Registers, Unregisters, IsRefused, Resequences, Seeks, SeeksAgain, GivesUp, Finds, Chooses, Learns, Meets, Tries, Updates, Forgets, Binds, Unbinds, Waits, Stops, Rings};
ghost use Rattle.mip_rules_mobile.specs.Transitions.{noted};
ghost use Rattle.mip_afresh_mobile_state.specs.Trials.{test_seen};
ghost use Rattle.mip_afresh_mobile_state.specs.Turns.{Goes, IsNeutral, home_in};

use crate::change::Change;
use crate::trial::Test;
use crate::turn::Turn;
use mip_bulist::{Aim, Made, Work};
use mip_entries::{Answer, Entry};
use mip_nonce::Secrets;
use mip_words::{Address, Bytes, Cookie, HERE, MYSELF, Memory, Moment, Shield, Why};

impl Turn {
    /// An entry is left.
    fn leave(&mut self, entry: Entry) -> Result<(), Memory>
        ensures { OnOk result (self.new ≡ record self.old { answers = self.old.answers ++ Note entry ∷ [] }) }
    {
        self.answers.push(Answer::Note(entry))?;
        Ok(())
    }

    /// A packet is handed to the wire, under a shield or under none.
    fn send(&mut self, shield: Option<Shield>, packet: Bytes) -> Result<(), Memory>
        ensures { OnOk result (self.new ≡ record self.old { answers = self.old.answers ++ Send shield packet ∷ [] }) }
    {
        self.answers.push(Answer::Send { shield, packet })?;
        Ok(())
    }

    /// A packet is handed to the wire, protected for an agent.
    fn send_to_agent(&mut self, agent: Address, packet: Bytes) -> Result<(), Memory>
        ensures { OnOk result (self.new ≡ record self.old { answers = self.old.answers ++ Send (shield_to (home_in self.old) agent) packet ∷ [] }) }
    {
        let shield = Some(Shield {
            from: self.mobile.identity.own,
            to: agent,
        });
        self.send(shield, packet)?;
        Ok(())
    }

    /// The mobile is called.
    pub fn call(&mut self) -> Result<(), Memory>
        ensures { (call : Call) → Goes result (noted (Called call)) self.old self.new }
    {
        Ok(())
    }

    /// Its correspondent part is called.
    pub fn ask_part(&mut self) -> Result<(), Memory>
        ensures { (call : parts.Call) → Goes result (noted (Parts call)) self.old self.new }
    {
        Ok(())
    }

    /// An entry of its correspondent part is left.
    pub fn note(&mut self, entry: Entry) -> Result<(), Memory>
        ensures { Goes result (noted (Notes entry)) self.old self.new }
    {
        self.leave(entry)?;
        Ok(())
    }

    /// It can't send.
    pub fn unsend(&mut self, why: Why) -> Result<(), Memory>
        ensures { Goes result (noted (Unsends why)) self.old self.new }
    {
        self.leave(Entry::Unsent { node: MYSELF, why })?;
        Ok(())
    }

    /// It drops a packet.
    pub fn drop_packet(&mut self, number: u64, why: Why) -> Result<(), Memory>
        ensures { Goes result (noted (Drops number why)) self.old self.new }
    {
        self.leave(Entry::Dropped {
            node: MYSELF,
            number,
            why,
        })?;
        Ok(())
    }

    /// It claims an address.
    pub fn claim(&mut self, address: Address) -> Result<(), Memory>
        ensures { Goes result (noted (Claims address)) self.old self.new }
    {
        self.leave(Entry::Claimed {
            who: 0,
            link: HERE,
            address,
        })?;
        Ok(())
    }

    /// It gives an address up.
    pub fn release(&mut self, address: Address) -> Result<(), Memory>
        ensures { Goes result (noted (Releases address)) self.old self.new }
    {
        self.leave(Entry::Released {
            who: 0,
            link: HERE,
            address,
        })?;
        Ok(())
    }

    /// It finds an address taken.
    pub fn find_taken(&mut self, address: Address, holder: u8) -> Result<(), Memory>
        ensures { Goes result (noted (FindsTaken address holder)) self.old self.new }
    {
        self.mobile.lose_address();
        self.leave(Entry::Taken {
            who: 0,
            link: HERE,
            address,
            holder,
        })?;
        Ok(())
    }

    /// It uses an address.
    pub fn arrive(&mut self, address: Address) -> Result<(), Memory>
        ensures { Goes result (noted (Arrives address)) self.old self.new }
    {
        self.mobile.arrive(address);
        self.leave(Entry::Careof {
            node: MYSELF,
            address,
        })?;
        Ok(())
    }

    /// It uses no address any more.
    pub fn detach(&mut self) -> Result<(), Memory>
        ensures { Goes result (noted Detaches) self.old self.new }
    {
        self.mobile.detach()?;
        Ok(())
    }

    /// It loses all that it keeps.
    pub fn restart(&mut self, secrets: Secrets) -> Result<(), Memory>
        ensures { Goes result (noted (Restarts secrets)) self.old self.new }
    {
        self.mobile.restart(secrets)?;
        self.leave(Entry::Restarted { node: MYSELF })?;
        Ok(())
    }

    /// Its registration is acknowledged.
    pub fn register(&mut self, agent: Address, end: Moment, renew: Moment) -> Result<(), Memory>
        ensures { Goes result (noted (Registers agent end renew)) self.old self.new }
    {
        self.mobile.register(agent, end, renew)?;
        self.leave(Entry::Registered {
            node: MYSELF,
            agent,
            end,
        })?;
        Ok(())
    }

    /// Its registration ends.
    pub fn unregister(&mut self, agent: Address) -> Result<(), Memory>
        ensures { Goes result (noted (Unregisters agent)) self.old self.new }
    {
        self.mobile.unregister();
        self.leave(Entry::Unregistered {
            node: MYSELF,
            agent,
        })?;
        Ok(())
    }

    /// Its agent refuses.
    pub fn hear_refusal(&mut self, status: u8) -> Result<(), Memory>
        ensures { Goes result (noted (IsRefused status)) self.old self.new }
    {
        self.leave(Entry::Refused {
            node: MYSELF,
            status,
        })?;
        Ok(())
    }

    /// Its agent's last accepted sequence was this one.
    pub fn resequence(&mut self, agent: Address, last: u16) -> Result<(), Memory>
        ensures { Goes result (noted (Resequences agent last)) self.old self.new }
    {
        self.mobile.number_on(agent, last)?;
        Ok(())
    }

    /// A discovery of agents begins.
    pub fn seek(&mut self) -> Result<(), Memory>
        ensures { Goes result (noted Seeks) self.old self.new }
    {
        self.mobile.seek(self.now)?;
        Ok(())
    }

    /// A discovery of agents is tried again.
    pub fn seek_again(&mut self) -> Result<(), Memory>
        ensures { Goes result (noted SeeksAgain) self.old self.new }
    {
        self.mobile.seek_again(self.now)?;
        Ok(())
    }

    /// A discovery of agents is over.
    pub fn give_up(&mut self) -> Result<(), Memory>
        ensures { Goes result (noted GivesUp) self.old self.new }
    {
        self.mobile.give_up();
        Ok(())
    }

    /// It heard of these agents.
    pub fn find(&mut self, agents: Vec<Address>) -> Result<(), Memory>
        ensures { Goes result (noted (Finds agents.items)) self.old self.new }
    {
        self.mobile.find(agents);
        Ok(())
    }

    /// It turns to an agent.
    pub fn choose(&mut self, agent: Address) -> Result<(), Memory>
        ensures { Goes result (noted (Chooses agent)) self.old self.new }
    {
        self.mobile.choose(agent)?;
        self.leave(Entry::Chosen {
            node: MYSELF,
            agent,
        })?;
        Ok(())
    }

    /// It learns how long its home prefix is valid and preferred, in seconds.
    pub fn learn(&mut self, valid: u32, preferred: u32) -> Result<(), Memory>
        ensures { Goes result (noted (Learns valid preferred)) self.old self.new }
    {
        self.leave(Entry::Prefixes {
            node: MYSELF,
            valid,
            preferred,
        })?;
        Ok(())
    }

    /// A peer gets a row, if there is room.
    pub fn meet(&mut self, peer: Address) -> Result<(), Memory>
        ensures { Goes result (noted (Meets peer)) self.old self.new }
    {
        self.mobile.meet(peer)?;
        Ok(())
    }

    /// The trial of a row starts anew, with these cookies.
    pub fn start_trial(
        &mut self,
        row: u8,
        aim: Aim,
        home: Cookie,
        careof: Cookie,
    ) -> Result<(), Memory>
        ensures { Goes result (noted (Tries row (Start aim home careof))) self.old self.new }
    {
        self.mobile
            .change_trial(row, self.now, Change::Start { aim, home, careof });
        self.mobile.draw_cookies(aim);
        Ok(())
    }

    /// The trial of a row is given a Home Test.
    pub fn keep_home_test(
        &mut self,
        row: u8,
        peer: Address,
        cookie: Cookie,
        test: Test,
    ) -> Result<(), Memory>
        ensures { Goes result (noted (Tries row (HomeTest peer cookie (test_seen test)))) self.old self.new }
    {
        self.mobile.change_trial(
            row,
            self.now,
            Change::HomeTest {
                sender: peer,
                cookie,
                test,
            },
        );
        Ok(())
    }

    /// The trial of a row is given a Care-of Test.
    pub fn keep_careof_test(
        &mut self,
        row: u8,
        peer: Address,
        cookie: Cookie,
        test: Test,
    ) -> Result<(), Memory>
        ensures { Goes result (noted (Tries row (CareofTest peer cookie (test_seen test)))) self.old self.new }
    {
        self.mobile.change_trial(
            row,
            self.now,
            Change::CareofTest {
                sender: peer,
                cookie,
                test,
            },
        );
        Ok(())
    }

    /// The last accepted sequence of a row's peer was this one.
    pub fn resequence_trial(&mut self, row: u8, last: u16) -> Result<(), Memory>
        ensures { Goes result (noted (Tries row (Resequence last))) self.old self.new }
    {
        self.mobile
            .change_trial(row, self.now, Change::Resequence { last });
        Ok(())
    }

    /// The last update of a row was acknowledged, for so many units.
    pub fn acknowledge_trial(&mut self, row: u8, sequence: u16, granted: u16) -> Result<(), Memory>
        ensures { Goes result (noted (Tries row (Acknowledge sequence granted))) self.old self.new }
    {
        self.mobile
            .change_trial(row, self.now, Change::Acknowledge { sequence, granted });
        Ok(())
    }

    /// The trial of a row is given up.
    pub fn rest_trial(&mut self, row: u8) -> Result<(), Memory>
        ensures { Goes result (noted (Tries row Rest)) self.old self.new }
    {
        self.mobile.change_trial(row, self.now, Change::Rest);
        Ok(())
    }

    /// A deletion of a row's binding was acknowledged.
    pub fn forget(&mut self, row: u8) -> Result<(), Memory>
        ensures { Goes result (noted (Forgets row)) self.old self.new }
    {
        self.mobile.forget(row);
        Ok(())
    }

    /// A row's binding is acknowledged.
    pub fn bind(&mut self, row: u8, peer: Address, end: Moment, renew: Moment) -> Result<(), Memory>
        ensures { Goes result (noted (Binds row peer end renew)) self.old self.new }
    {
        self.mobile.bind(row, end, renew)?;
        self.leave(Entry::Bound {
            node: MYSELF,
            peer,
            end,
        })?;
        Ok(())
    }

    /// A row's binding ends.
    pub fn unbind(&mut self, row: u8, peer: Address) -> Result<(), Memory>
        ensures { Goes result (noted (Unbinds row peer)) self.old self.new }
    {
        self.mobile.unbind(row)?;
        self.leave(Entry::Unbound { node: MYSELF, peer })?;
        Ok(())
    }

    /// Work is set for so many milliseconds later.
    pub fn wait(&mut self, work: Work, ms: u64) -> Result<(), Memory>
        ensures { Goes result (noted (Waits work ms)) self.old self.new }
    {
        self.mobile.wait(self.now, work, ms)?;
        Ok(())
    }

    /// Work is stopped.
    pub fn stop(&mut self, work: Work) -> Result<(), Memory>
        ensures { Goes result (noted (Stops work)) self.old self.new }
    {
        self.mobile.stop(work)?;
        Ok(())
    }

    /// Work is begun that is due.
    pub fn ring(&mut self, work: Work) -> Result<(), Memory>
        ensures { Goes result (noted (Rings work)) self.old self.new }
    {
        self.mobile.ring(self.now)?;
        Ok(())
    }

    /// A packet is sent, and what is known stays as it is.
    pub fn send_packet(&mut self, shield: Option<Shield>, packet: Bytes) -> Result<(), Memory>
        ensures { (sending : Sending) → IsNeutral sending → shield ≡ shield_of sending → packet ≡ packet_of_sending sending
            → Goes result (noted (Sends sending)) self.old self.new }
    {
        self.send(shield, packet)?;
        Ok(())
    }

    /// A home registration is sent.
    pub fn send_registration(
        &mut self,
        careof: Address,
        agent: Address,
        sequence: u16,
        packet: Bytes,
    ) -> Result<(), Memory>
        ensures { packet ≡ registration_packet (home_in self.old) careof agent sequence
            → Goes result (noted (Sends (RegistersHome (home_in self.old) careof agent sequence))) self.old self.new }
    {
        self.mobile.send_registration(self.now, agent, sequence)?;
        self.send_to_agent(agent, packet)?;
        Ok(())
    }

    /// A deregistration is sent.
    pub fn send_deregistration(
        &mut self,
        agent: Address,
        sequence: u16,
        packet: Bytes,
    ) -> Result<(), Memory>
        ensures { packet ≡ deregistration_packet (home_in self.old) agent sequence
            → Goes result (noted (Sends (DeregistersHome (home_in self.old) agent sequence))) self.old self.new }
    {
        self.mobile.send_deregistration(self.now, agent, sequence)?;
        self.send_to_agent(agent, packet)?;
        Ok(())
    }

    /// A Mobile Prefix Solicitation is sent.
    pub fn send_solicitation(
        &mut self,
        careof: Address,
        agent: Address,
        identifier: u16,
        packet: Bytes,
    ) -> Result<(), Memory>
        ensures { packet ≡ solicitation_packet (home_in self.old) careof agent identifier
            → Goes result (noted (Sends (Solicits (home_in self.old) careof agent identifier))) self.old self.new }
    {
        self.mobile.send_solicitation();
        self.send_to_agent(agent, packet)?;
        Ok(())
    }

    /// The trial of a row makes an update to its peer, which is sent from an address under the number of its binding.
    pub fn send_update(
        &mut self,
        row: u8,
        source: Address,
        peer: Address,
        number: u8,
        made: &Made,
        packet: Bytes,
    ) -> Result<(), Memory>
        ensures { (u : PeerUpdate) → u ≡ record { home = home_in self.old; source = source; peer = peer; number = number; made = made.now } → packet ≡ update_packet u
            → Goes result (noted (Updates row u)) self.old self.new }
    {
        self.mobile.change_trial(row, self.now, Change::Make);
        self.mobile.touch(row);
        self.leave(Entry::Made {
            node: MYSELF,
            peer,
            number: 0,
            home: made.home,
            careof: made.careof,
        })?;
        self.send(None, packet)?;
        Ok(())
    }
}

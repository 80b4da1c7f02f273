//! The steps of a call that change a row: its trial, and what else is kept of its peer.

ghost use Rattle.std.specs.Prelude.{◌≡◌, OnOk, None, Some};
ghost use Rattle.mip_bulist.specs.declared.work.Work.{Work};
ghost use Rattle.mip_bulist.specs.declared.work.Work.TheVariants.{Resend};
ghost use Rattle.mip_rules_mobile.specs.PeerRules.{test_at};
ghost use Rattle.mip_rules_mobile.specs.Trials.{Start, HomeTest, CareofTest, Resequence, Acknowledge, Rest};
ghost use Rattle.mip_bulist.specs.Timers.{due_work};
ghost use Rattle.mip_rules_mobile.specs.TimerQuestions.{moment};
ghost use Rattle.mip_rules_mobile.specs.RowQuestions.{drawn_for};
ghost use Rattle.mip_rules_mobile.specs.Steps.{Tries, Forgets, Binds, Unbinds, Waits, Rings};
ghost use Rattle.mip_rules_mobile.specs.Transitions.{Transition, noted};
ghost use Rattle.mip_mobile_context.specs.Seen.{Shows};

use crate::call_context::CallContext;
use crate::peer_row::PeerRow;
use mip_bulist::{Aim, Work};
use mip_entries::{Answer, Entry};
use mip_mobile_state::{Heard, peers, trial};
use mip_words::{Address, Cookie, MYSELF, Memory, Moment};

impl CallContext {
    /// The trial of a row is given up.
    pub fn rest_trial(&mut self, row: u8)
        ensures { (t : Transition) → Shows self.old t → Shows self.new (noted (Tries row Rest) t) }
    {
        trial::rest(&mut self.known.list, row);
    }

    /// The peer's last accepted sequence was this one.
    pub fn resequence_trial(&mut self, row: u8, last: u16)
        ensures { (t : Transition) → Shows self.old t → Shows self.new (noted (Tries row (Resequence last)) t) }
    {
        trial::resequence(&mut self.known.list, row, last);
    }

    /// The last update of a row was acknowledged, for so many units.
    pub fn acknowledge_trial(&mut self, row: u8, sequence: u16, granted: u16)
        ensures { (t : Transition) → Shows self.old t → Shows self.new (noted (Tries row (Acknowledge sequence granted)) t) }
    {
        trial::acknowledge(&mut self.known.list, row, sequence, granted);
    }

    /// The trial of a row starts anew, with the cookies that it draws.
    pub fn start_trial(&mut self, row: u8, aim: Aim, home: Cookie, careof: Cookie)
        ensures { (t : Transition) → Shows self.old t → Shows self.new (noted (Tries row (Start aim home careof)) t) }
    {
        trial::start(&mut self.known.list, row, self.moment, aim, home, careof);
        self.known.cookies = self.known.cookies.wrapping_add(drawn_for(aim));
    }

    /// The trial of a row is given a Home Test.
    pub fn keep_home(&mut self, row: u8, test: &Heard)
        ensures { (t : Transition) → Shows self.old t
            → Shows self.new (noted (Tries row (HomeTest test.now.peer test.now.cookie (test_at self.old.moment test.now.index test.now.token.0))) t) }
    {
        trial::keep_home_test(&mut self.known.list, row, self.moment, test);
    }

    /// The trial of a row is given a Care-of Test.
    pub fn keep_careof(&mut self, row: u8, test: &Heard)
        ensures { (t : Transition) → Shows self.old t
            → Shows self.new (noted (Tries row (CareofTest test.now.peer test.now.cookie (test_at self.old.moment test.now.index test.now.token.0))) t) }
    {
        trial::keep_careof_test(&mut self.known.list, row, self.moment, test);
    }

    /// Takes the first work, where it is due.
    pub fn ring(&mut self) -> Option<Work>
        ensures work { result ≡ due_work (moment self.old.moment) self.old.known.list.timers }
        ensures shows { (work : Work) (t : Transition) → result ≡ Some work → Shows self.old t → Shows self.new (noted (Rings work) t) }
        ensures none { result ≡ None → self.new ≡ self.old }
    {
        self.known.list.pop(self.moment)
    }

    /// A deletion of a row's binding was acknowledged.
    pub fn forget(&mut self, row: u8)
        ensures { (t : Transition) → Shows self.old t → Shows self.new (noted (Forgets row) t) }
    {
        peers::forget(&mut self.known.peers, row as usize);
    }

    /// A row's update is sent again after so many milliseconds.
    pub fn wait_row(&mut self, at: PeerRow, wait: u32)
        ensures { (t : Transition) → Shows self.old t → Shows self.new (noted (Waits (Resend at.row) wait) t) }
    {
        let due = Moment(self.moment.0 + wait as u64);
        self.known.list.set(due, Work::Resend(at.row));
        peers::wait(&mut self.known.peers, at.row as usize, wait as u64);
    }

    /// A row's binding ends.
    pub fn unbind(&mut self, row: u8, peer: Address) -> Result<(), Memory>
        ensures { (t : Transition) → Shows self.old t → OnOk result (Shows self.new (noted (Unbinds row peer) t)) }
    {
        self.answers
            .push(Answer::Note(Entry::Unbound { node: MYSELF, peer }))?;
        peers::unbind(&mut self.known.peers, row as usize);
        let _renewing = self.known.list.stop(Work::Renew(row));
        let _ending = self.known.list.stop(Work::End(row));
        Ok(())
    }

    /// A row's binding is acknowledged, until an end, to be renewed at a moment.
    pub fn bind(&mut self, at: PeerRow, end: Moment, renew: Moment) -> Result<(), Memory>
        ensures { (t : Transition) → Shows self.old t → OnOk result (Shows self.new (noted (Binds at.row at.peer end renew) t)) }
    {
        self.answers.push(Answer::Note(Entry::Bound {
            node: MYSELF,
            peer: at.peer,
            end,
        }))?;
        peers::bind(&mut self.known.peers, at.row as usize, end);
        self.known.list.set(renew, Work::Renew(at.row));
        self.known.list.set(end, Work::End(at.row));
        Ok(())
    }
}

/// How many cookies a start draws.
fn drawn_for(aim: Aim) -> u64
    ensures { result ≡ drawn_for aim }
{
    match aim {
        Aim::Bind(_) => 2,
        Aim::Delete => 1,
    }
}

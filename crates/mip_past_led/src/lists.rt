//! What a mobile that is led along has more than one of.

ghost use Rattle.std.specs.Prelude.{◌≡◌, IfOk, map};
ghost use Rattle.mip_afresh_mobile_state.specs.Trials.{row_seen, timer_seen};
ghost use Rattle.mip_bulist.specs.Rows.{peer_at};
ghost use Rattle.mip_past_led.specs.Questions.{peers_of, agents_of, home_task, task_of, peer_of_work, due_of, due_work_of};

use crate::due::Due;
use crate::mobile::LedMobile;
use crate::task::Task;
use mip_afresh_mobile_state::{Row, Timer};
use mip_bulist::{HomeTimer, Work};
use mip_rules_mobile::Numbering;
use mip_words::{Address, Memory};
use std::alloc::Global;

/// The peers of rows.
fn peers_in(alloc: Global, rows: &[Row]) -> Result<Vec<Address>, Memory>
    ensures { IfOk result (λ v. v.items ≡ map (λ r. r.peer) (map row_seen rows.now)) }
{
    let mut peers = Vec::new(alloc);
    for row in rows {
        peers.push(row.peer)?;
    }
    Ok(peers)
}

/// The agents of numberings.
fn agents_in(alloc: Global, numberings: &[Numbering]) -> Result<Vec<Address>, Memory>
    ensures { IfOk result (λ v. v.items ≡ map (λ n. n.agent) numberings.now) }
{
    let mut agents = Vec::new(alloc);
    for numbering in numberings {
        agents.push(numbering.agent)?;
    }
    Ok(agents)
}

/// The peer of a row.
fn peer_at(rows: &[Row], row: u8) -> Option<Address>
    ensures { result ≡ peer_at row (map row_seen rows.now) }
{
    match rows.get(usize::from(row)) {
        Some(row) => Some(row.peer),
        None => None,
    }
}

/// What a timer of the home registration is set for.
fn home_task(timer: HomeTimer) -> Task
    ensures { result ≡ home_task timer }
{
    match timer {
        HomeTimer::Resend => Task::HomeResend,
        HomeTimer::Renew => Task::HomeRenew,
        HomeTimer::End => Task::HomeEnd,
        HomeTimer::Discover => Task::Discover,
    }
}

/// What a timer is set for.
fn task_of(work: Work) -> Task
    ensures { result ≡ task_of work }
{
    match work {
        Work::Resend(_) => Task::Resend,
        Work::Renew(_) => Task::Renew,
        Work::End(_) => Task::End,
        Work::Home(timer) => home_task(timer),
    }
}

/// The peer that work is about.
fn peer_of_work(rows: &[Row], work: Work) -> Option<Address>
    ensures { result ≡ peer_of_work (map row_seen rows.now) work }
{
    match work {
        Work::Resend(row) | Work::Renew(row) | Work::End(row) => peer_at(rows, row),
        Work::Home(_) => None,
    }
}

/// The work that timers are set for, among these rows.
fn due_in(alloc: Global, rows: &[Row], timers: &[Timer]) -> Result<Vec<Due>, Memory>
    ensures { IfOk result (λ v. v.items ≡ map (due_of (map row_seen rows.now)) (map timer_seen timers.now)) }
{
    let mut due = Vec::new(alloc);
    for timer in timers {
        due.push(Due {
            at: timer.due,
            task: task_of(timer.work),
            peer: peer_of_work(rows, timer.work),
        })?;
    }
    Ok(due)
}

impl LedMobile<'_> {
    /// The peers that have a row, in the order in which they got it.
    pub fn peers(&self, alloc: Global) -> Result<Vec<Address>, Memory>
        ensures { IfOk result (λ v. v.items ≡ peers_of self.now.list.rows) }
    {
        peers_in(alloc, self.mobile.rows())
    }

    /// The agents to which a home registration went, or that told a sequence.
    pub fn agents(&self, alloc: Global) -> Result<Vec<Address>, Memory>
        ensures { IfOk result (λ v. v.items ≡ agents_of self.now.numberings) }
    {
        agents_in(alloc, self.mobile.numberings())
    }

    /// The work that it has ahead, by its moment, ties in the order in which it was set.
    pub fn due_work(&self, alloc: Global) -> Result<Vec<Due>, Memory>
        ensures { IfOk result (λ v. v.items ≡ due_work_of self.now.list) }
    {
        due_in(alloc, self.mobile.rows(), self.mobile.work())
    }
}

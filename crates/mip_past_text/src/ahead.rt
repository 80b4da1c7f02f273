//! What a mobile that is led along has ahead (RFC 6275 sections 11.4.1, 11.7.1, 11.7.2 and 11.8).

ghost use Rattle.std.specs.Prelude.{◌≡◌, ◌++◌, OnOk};
ghost use Rattle.mip_past_text.specs.Led.{agent_line, agents_lines, task_word, task_line, work_line, work_lines};

use crate::answers::put_number_of;
use mip_lines::{put_line, put_number};
use mip_past_led::{Due, LedMobile, Task};
use mip_words::{Address, Bytes, Memory, Moment};
use std::alloc::Global;

/// Appends the sequence of the next home registration with an agent.
fn put_agent(
    alloc: Global,
    out: &mut Bytes,
    node: &[u8],
    mobile: &LedMobile<'_>,
    agent: Address,
) -> Result<(), Memory>
    ensures { OnOk result (out.new ≡ out.old ++ agent_line node.now mobile.now.numberings agent) }
{
    let next = Some(mobile.next_to_agent(agent));
    put_number_of(alloc, out, b"next-registration", node, agent, next)
}

/// Appends the sequence of the next home registration with each of these agents.
#[tactic(auto, unfolding(crate::specs::Led::agents_lines))]
pub fn put_agents(
    alloc: Global,
    out: &mut Bytes,
    node: &[u8],
    mobile: &LedMobile<'_>,
    agents: &[Address],
) -> Result<(), Memory>
    ensures { OnOk result (out.new ≡ out.old ++ agents_lines node.now mobile.now.numberings agents.now) }
{
    for agent in agents {
        put_agent(alloc, out, node, mobile, *agent)?;
    }
    Ok(())
}

/// The word of work.
fn task_word(task: Task) -> &'static [u8]
    ensures { result.now ≡ task_word task }
{
    match task {
        Task::Resend => b"resend",
        Task::Renew => b"renew",
        Task::End => b"end",
        Task::HomeResend => b"home-resend",
        Task::HomeRenew => b"home-renew",
        Task::HomeEnd => b"home-end",
        Task::Discover => b"discover",
    }
}

/// Appends `work NODE MOMENT WORK`, and the peer that it is about.
fn put_task(
    alloc: Global,
    out: &mut Bytes,
    node: &[u8],
    at: Moment,
    task: &[u8],
    peer: Option<Address>,
) -> Result<(), Memory>
    ensures { OnOk result (out.new ≡ out.old ++ task_line node.now at task.now peer) }
{
    let mut digits = Bytes::new(alloc);
    put_number(&mut digits, at.0)?;
    let at = digits.as_slice();
    match peer {
        Some(peer) => put_line(out, &[b"work", node, at, task, &peer.digits()]),
        None => put_line(out, &[b"work", node, at, task]),
    }
}

/// Appends the line of work ahead.
fn put_work(alloc: Global, out: &mut Bytes, node: &[u8], due: Due) -> Result<(), Memory>
    ensures { OnOk result (out.new ≡ out.old ++ work_line node.now due) }
{
    put_task(alloc, out, node, due.at, task_word(due.task), due.peer)
}

/// Appends a line for each work ahead.
#[tactic(auto, unfolding(crate::specs::Led::work_lines))]
pub fn put_ahead(alloc: Global, out: &mut Bytes, node: &[u8], work: &[Due]) -> Result<(), Memory>
    ensures { OnOk result (out.new ≡ out.old ++ work_lines node.now work.now) }
{
    for due in work {
        put_work(alloc, out, node, *due)?;
    }
    Ok(())
}

//! The lines of a mobile that is led along.

ghost use Rattle.std.specs.Prelude.{◌≡◌, ◌++◌, OnOk};
ghost use Rattle.mip_rules_mobile.specs.Known.{Known};
ghost use Rattle.mip_past_led.specs.Leading.{mobile_at, shown_of};
ghost use Rattle.mip_past_led.specs.Questions.{peers_of, agents_of, due_work_of};
ghost use Rattle.mip_past_text.specs.Led.{peers_lines, agents_lines, work_lines, found_lines, finding_lines, mobile_lines, led_text};

use crate::ahead::{put_agents, put_ahead};
use crate::answers::{put_address_if, put_word, yes_or_no};
use crate::peers::put_peers;
use mip_past_led::{Led, LedMobile};
use mip_words::{Address, Bytes, Memory, NodeId};
use std::alloc::Global;

/// Appends a line for each agent that was found.
#[tactic(auto, unfolding(crate::specs::Led::found_lines))]
fn put_found(out: &mut Bytes, node: &[u8], agents: &[Address]) -> Result<(), Memory>
    ensures { OnOk result (out.new ≡ out.old ++ found_lines node.now agents.now) }
{
    for agent in agents {
        put_address_if(out, b"found", node, Some(*agent))?;
    }
    Ok(())
}

/// Appends the agents that were found, the one that is chosen next, and whether a discovery is under way.
fn put_finding(out: &mut Bytes, node: &[u8], mobile: &LedMobile<'_>) -> Result<(), Memory>
    ensures { (k : Known) → shown_of k ≡ mobile.now → OnOk result (out.new ≡ out.old ++ finding_lines node.now k) }
{
    put_found(out, node, mobile.found())?;
    put_address_if(out, b"next-found", node, mobile.next_found())?;
    put_word(
        out,
        b"discovering",
        node,
        yes_or_no(mobile.is_discovering()),
    )
}

/// Appends what is asked about its peers.
fn put_its_peers(
    alloc: Global,
    out: &mut Bytes,
    node: &[u8],
    mobile: &LedMobile<'_>,
) -> Result<(), Memory>
    ensures { OnOk result (out.new ≡ out.old ++ peers_lines node.now mobile.now.list.rows (peers_of mobile.now.list.rows)) }
{
    let peers = mobile.peers(alloc)?;
    put_peers(alloc, out, node, mobile, &peers)
}

/// Appends the sequences of its next home registrations.
fn put_its_agents(
    alloc: Global,
    out: &mut Bytes,
    node: &[u8],
    mobile: &LedMobile<'_>,
) -> Result<(), Memory>
    ensures { OnOk result (out.new ≡ out.old ++ agents_lines node.now mobile.now.numberings (agents_of mobile.now.numberings)) }
{
    let agents = mobile.agents(alloc)?;
    put_agents(alloc, out, node, mobile, &agents)
}

/// Appends the work that it has ahead.
fn put_its_work(
    alloc: Global,
    out: &mut Bytes,
    node: &[u8],
    mobile: &LedMobile<'_>,
) -> Result<(), Memory>
    ensures { OnOk result (out.new ≡ out.old ++ work_lines node.now (due_work_of mobile.now.list)) }
{
    let work = mobile.due_work(alloc)?;
    put_ahead(alloc, out, node, &work)
}

/// Appends what is asked of a mobile.
fn put_mobile(
    alloc: Global,
    out: &mut Bytes,
    node: &[u8],
    mobile: &LedMobile<'_>,
) -> Result<(), Memory>
    ensures { (k : Known) → shown_of k ≡ mobile.now → OnOk result (out.new ≡ out.old ++ mobile_lines node.now k) }
{
    put_its_peers(alloc, out, node, mobile)?;
    put_its_agents(alloc, out, node, mobile)?;
    put_its_work(alloc, out, node, mobile)?;
    put_finding(out, node, mobile)
}

/// Appends what is asked of a node with this name that is led along, if it is a mobile.
pub fn put_led(
    alloc: Global,
    out: &mut Bytes,
    name: &[u8],
    led: &Led,
    node: NodeId,
) -> Result<(), Memory>
    ensures { OnOk result (out.new ≡ out.old ++ led_text name.now (mobile_at led.now node.0)) }
{
    match led.mobile(node)? {
        Some(mobile) => put_mobile(alloc, out, name, &mobile),
        None => Ok(()),
    }
}

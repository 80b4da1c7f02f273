//! What is asked of mobiles alone, and of home agents alone.

ghost use Rattle.std.specs.Prelude.{◌≡◌, ◌++◌, OnOk, slice_get};
ghost use Rattle.mip_symbols.specs.Places.{is_agent, members};
ghost use Rattle.mip_symbols.specs.declared.places.Sort.TheVariants as sorts;
ghost use Rattle.mip_past_text.specs.Fronts.{front_of};
ghost use Rattle.mip_past_text.specs.Text.{is_agent_any, is_mobile_any, moving_text, mobile_text, plan_line, plan_text, hears_lines, hears_text, agent_text};

use crate::answers::{put_address, put_address_if, put_count, put_plan};
use crate::inquiry::Inquiry;
use mip_schedule::numbers_of;
use mip_symbols::{Declaration, Sort, is_mobile, member, node_name};
use mip_words::{Address, Bytes, Memory, NodeId};
use std::alloc::Global;

/// The node is a mobile.
fn is_mobile_any(declarations: &[Declaration], node: NodeId) -> bool
    ensures { result ≡ is_mobile_any (slice_get (members sorts.Node declarations.now) node.0) }
{
    match member(declarations, Sort::Node, usize::from(node.0)) {
        Some(declaration) => is_mobile(declaration),
        None => false,
    }
}

fn is_agent(declaration: &Declaration) -> bool
    ensures { result ≡ is_agent declaration.now }
{
    matches!(declaration, Declaration::Agent { .. })
}

/// The node is a home agent.
fn is_agent_any(declarations: &[Declaration], node: NodeId) -> bool
    ensures { result ≡ is_agent_any (slice_get (members sorts.Node declarations.now) node.0) }
{
    match member(declarations, Sort::Node, usize::from(node.0)) {
        Some(declaration) => is_agent(declaration),
        None => false,
    }
}

/// Appends what a mobile gives up if it leaves its link, and the number of the bindings that it asks for.
fn put_moving(alloc: Global, out: &mut Bytes, asked: Inquiry<'_>) -> Result<(), Memory>
    ensures { OnOk result (out.new ≡ out.old ++ moving_text asked.entry.scene.declarations.now (front_of asked.entry.scene) asked.entry.node) }
{
    let name = node_name(asked.scene.declarations, asked.node);
    put_address(out, b"leaves", name, asked.scene.past.leaves(asked.node))?;
    let numbers = numbers_of(asked.scene.version);
    let number = asked.scene.past.binding_number(asked.node, numbers);
    put_count(alloc, out, b"number", name, number)
}

/// Appends that where the node is a mobile.
pub fn put_mobile(alloc: Global, out: &mut Bytes, asked: Inquiry<'_>) -> Result<(), Memory>
    ensures { OnOk result (out.new ≡ out.old ++ mobile_text asked.entry.scene.declarations.now (front_of asked.entry.scene) asked.entry.node) }
{
    if is_mobile_any(asked.scene.declarations, asked.node) {
        put_moving(alloc, out, asked)
    } else {
        Ok(())
    }
}

/// Appends the prefix plan that an agent keeps.
fn put_planned(alloc: Global, out: &mut Bytes, asked: Inquiry<'_>) -> Result<(), Memory>
    ensures { OnOk result (out.new ≡ out.old ++ plan_text asked.entry.scene.declarations.now (front_of asked.entry.scene) asked.entry.node) }
{
    let name = node_name(asked.scene.declarations, asked.node);
    let begun = asked.scene.past.begun(asked.scene.events);
    let plan = asked.scene.past.plan_of(asked.node, begun);
    put_plan(alloc, out, name, plan)
}

/// Appends a line for each of these agents.
#[tactic(auto, unfolding(crate::specs::Text::hears_lines))]
fn put_each(out: &mut Bytes, asked: Inquiry<'_>, agents: &[Address]) -> Result<(), Memory>
    ensures { OnOk result (out.new ≡ out.old ++ hears_lines asked.entry.scene.declarations.now asked.entry.node agents.now) }
{
    let name = node_name(asked.scene.declarations, asked.node);
    for agent in agents {
        put_address_if(out, b"hears", name, Some(*agent))?;
    }
    Ok(())
}

/// Appends the other agents that an agent knows of.
fn put_heard(alloc: Global, out: &mut Bytes, asked: Inquiry<'_>) -> Result<(), Memory>
    ensures { OnOk result (out.new ≡ out.old ++ hears_text asked.entry.scene.declarations.now (front_of asked.entry.scene) asked.entry.node) }
{
    let past = asked.scene.past;
    let agents = past.agents(alloc, asked.scene.declarations, asked.node)?;
    put_each(out, asked, &agents)
}

/// Appends both where the node is a home agent.
pub fn put_agent(alloc: Global, out: &mut Bytes, asked: Inquiry<'_>) -> Result<(), Memory>
    ensures { OnOk result (out.new ≡ out.old ++ agent_text asked.entry.scene.declarations.now (front_of asked.entry.scene) asked.entry.node) }
{
    if !is_agent_any(asked.scene.declarations, asked.node) {
        return Ok(());
    }
    put_planned(alloc, out, asked)?;
    put_heard(alloc, out, asked)
}

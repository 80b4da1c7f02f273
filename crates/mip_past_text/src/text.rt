//! The text of what was known at a place of a history.

ghost use Rattle.std.specs.Prelude.{◌≡◌, ◌++◌, ◌∷◌, [], IfOk, OnOk, codes, decimal};
ghost use Rattle.mip_lines.specs.Lines.{line_text};
ghost use Rattle.mip_symbols.specs.Places.{AreFew};
ghost use Rattle.mip_past_text.specs.Subjects.{last_named};
ghost use Rattle.mip_past_text.specs.Fronts.{front_of};
ghost use Rattle.mip_past_text.specs.declared.topic.Topic.TheVariants as topics;
ghost use Rattle.mip_past_text.specs.Text.{registered_line, until_line, sequence_line, topic_text, topic_texts, due_lines, due_text, about_text, rest_text, node_known, nodes_known, known_of, known_text};

use crate::answers::{
    put_address, put_address_if, put_address_of, put_moment_of, put_number_of, put_standing,
    put_whether,
};
use crate::inquiry::Inquiry;
use crate::led::put_led;
use crate::roles::{put_agent, put_mobile};
use crate::scene::Scene;
use crate::subjects::{is_named, subject};
use crate::topic::Topic;
use crate::unders::put_unders;
use mip_entries::Entry;
use mip_lines::{put_line, put_number};
use mip_rules_agent::Ending;
use mip_symbols::{Sort, count, node_name};
use mip_words::{Address, Bytes, Memory, Moment, NodeId};
use std::alloc::Global;

/// Appends what was known about a home whose update the node accepted.
fn put_binding(
    alloc: Global,
    out: &mut Bytes,
    asked: Inquiry<'_>,
    home: Address,
) -> Result<(), Memory>
    ensures { OnOk result (out.new ≡ out.old ++ topic_text asked.entry.scene.declarations.now (front_of asked.entry.scene) asked.entry.node topics.Binding home) }
{
    let name = node_name(asked.scene.declarations, asked.node);
    put_address_of(
        out,
        b"held",
        name,
        home,
        asked.scene.past.held(asked.node, home),
    )?;
    let floor = asked.scene.past.floor(asked.node, home);
    put_number_of(alloc, out, b"floor", name, home, floor)?;
    put_unders(alloc, out, asked, home)
}

/// Appends where an agent has registered a home.
fn put_registered(out: &mut Bytes, asked: Inquiry<'_>, home: Address) -> Result<(), Memory>
    ensures { OnOk result (out.new ≡ out.old ++ registered_line asked.entry.scene.declarations.now (front_of asked.entry.scene) asked.entry.node home) }
{
    let name = node_name(asked.scene.declarations, asked.node);
    let careof = asked.scene.past.registered_careof(asked.node, home);
    put_address_of(out, b"registered", name, home, careof)
}

/// Appends until when an agent has registered a home.
fn put_until(
    alloc: Global,
    out: &mut Bytes,
    asked: Inquiry<'_>,
    home: Address,
) -> Result<(), Memory>
    ensures { OnOk result (out.new ≡ out.old ++ until_line asked.entry.scene.declarations.now (front_of asked.entry.scene) asked.entry.node home) }
{
    let name = node_name(asked.scene.declarations, asked.node);
    let until = asked.scene.past.registered_until(asked.node, home);
    put_moment_of(alloc, out, b"until", name, home, until)
}

/// Appends the sequence that an agent keeps of a home.
fn put_sequence(
    alloc: Global,
    out: &mut Bytes,
    asked: Inquiry<'_>,
    home: Address,
) -> Result<(), Memory>
    ensures { OnOk result (out.new ≡ out.old ++ sequence_line asked.entry.scene.declarations.now (front_of asked.entry.scene) asked.entry.node home) }
{
    let name = node_name(asked.scene.declarations, asked.node);
    let sequence = asked.scene.past.registered_sequence(asked.node, home);
    put_number_of(alloc, out, b"sequence", name, home, sequence)
}

/// Appends what was known about a home that the agent registered.
fn put_registration(
    alloc: Global,
    out: &mut Bytes,
    asked: Inquiry<'_>,
    home: Address,
) -> Result<(), Memory>
    ensures { OnOk result (out.new ≡ out.old ++ topic_text asked.entry.scene.declarations.now (front_of asked.entry.scene) asked.entry.node topics.Registration home) }
{
    put_registered(out, asked, home)?;
    put_until(alloc, out, asked, home)?;
    put_sequence(alloc, out, asked, home)
}

/// Appends what was known about a peer that bound the mobile.
fn put_peer(out: &mut Bytes, asked: Inquiry<'_>, peer: Address) -> Result<(), Memory>
    ensures { OnOk result (out.new ≡ out.old ++ topic_text asked.entry.scene.declarations.now (front_of asked.entry.scene) asked.entry.node topics.Peer peer) }
{
    let name = node_name(asked.scene.declarations, asked.node);
    let bound = asked.scene.past.is_bound(asked.node, peer);
    put_whether(out, b"bound", name, peer, bound)
}

/// Appends what was known about an address.
fn put_topic(
    alloc: Global,
    out: &mut Bytes,
    asked: Inquiry<'_>,
    topic: Topic,
    address: Address,
) -> Result<(), Memory>
    ensures { OnOk result (out.new ≡ out.old ++ topic_text asked.entry.scene.declarations.now (front_of asked.entry.scene) asked.entry.node topic address) }
{
    match topic {
        Topic::Binding => put_binding(alloc, out, asked, address),
        Topic::Registration => put_registration(alloc, out, asked, address),
        Topic::Peer => put_peer(out, asked, address),
    }
}

/// Appends what was known about what an entry names, where no later one names it.
fn put_last_named(
    alloc: Global,
    out: &mut Bytes,
    asked: Inquiry<'_>,
    topic: Topic,
    named: Option<Address>,
    later: &[Entry],
) -> Result<(), Memory>
    ensures { OnOk result (out.new ≡ out.old
        ++ last_named topic asked.entry.node.0 (topic_text asked.entry.scene.declarations.now (front_of asked.entry.scene) asked.entry.node topic) named later.now) }
{
    let Some(address) = named else {
        return Ok(());
    };
    if is_named(topic, asked.node, later, address) {
        return Ok(());
    }
    put_topic(alloc, out, asked, topic, address)
}

/// Appends what was known about all addresses that the entries before the place name, each once.
#[tactic(auto, unfolding(crate::specs::Subjects::about_each))]
fn put_topics(
    alloc: Global,
    out: &mut Bytes,
    asked: Inquiry<'_>,
    topic: Topic,
) -> Result<(), Memory>
    ensures { OnOk result (out.new ≡ out.old ++ topic_texts asked.entry.scene.declarations.now (front_of asked.entry.scene) asked.entry.node topic) }
{
    let mut entries = asked.scene.past.entries;
    while let Some((entry, later)) = entries.split_first() {
        let named = subject(topic, asked.node, entry);
        put_last_named(alloc, out, asked, topic, named, later)?;
        entries = later;
    }
    Ok(())
}

/// Appends a line for each end that an agent waits for.
#[tactic(auto, unfolding(crate::specs::Text::due_lines))]
fn put_ends(
    alloc: Global,
    out: &mut Bytes,
    asked: Inquiry<'_>,
    ends: &[Ending],
) -> Result<(), Memory>
    ensures { OnOk result (out.new ≡ out.old ++ due_lines asked.entry.scene.declarations.now asked.entry.node ends.now) }
{
    let name = node_name(asked.scene.declarations, asked.node);
    for one in ends {
        put_moment_of(alloc, out, b"due", name, one.home, Some(one.end))?;
    }
    Ok(())
}

/// Appends the work that an agent has ahead.
fn put_due(alloc: Global, out: &mut Bytes, asked: Inquiry<'_>) -> Result<(), Memory>
    ensures { OnOk result (out.new ≡ out.old ++ due_text asked.entry.scene.declarations.now (front_of asked.entry.scene) asked.entry.node) }
{
    let ends = asked.scene.past.due_work(alloc, asked.node)?;
    put_ends(alloc, out, asked, &ends)
}

/// Appends what was known about the addresses that the entries name, and the work that an agent has ahead.
fn put_about(alloc: Global, out: &mut Bytes, asked: Inquiry<'_>) -> Result<(), Memory>
    ensures { OnOk result (out.new ≡ out.old ++ about_text asked.entry.scene.declarations.now (front_of asked.entry.scene) asked.entry.node) }
{
    put_topics(alloc, out, asked, Topic::Binding)?;
    put_topics(alloc, out, asked, Topic::Registration)?;
    put_due(alloc, out, asked)?;
    put_topics(alloc, out, asked, Topic::Peer)
}

/// Appends what is asked of a node of its kind, about addresses, and of a mobile that is led along.
fn put_rest(alloc: Global, out: &mut Bytes, asked: Inquiry<'_>) -> Result<(), Memory>
    ensures { OnOk result (out.new ≡ out.old ++ rest_text asked.entry.scene.declarations.now (front_of asked.entry.scene) asked.entry.node) }
{
    put_mobile(alloc, out, asked)?;
    put_agent(alloc, out, asked)?;
    put_about(alloc, out, asked)?;
    let name = node_name(asked.scene.declarations, asked.node);
    put_led(alloc, out, name, asked.scene.led, asked.node)
}

/// Appends what was known of a node.
#[tactic(auto, unfolding(crate::specs::Text::node_known))]
fn put_node(alloc: Global, out: &mut Bytes, asked: Inquiry<'_>) -> Result<(), Memory>
    ensures { OnOk result (out.new ≡ out.old ++ node_known asked.entry.scene.declarations.now (front_of asked.entry.scene) asked.entry.node) }
{
    let name = node_name(asked.scene.declarations, asked.node);
    put_address(out, b"present", name, asked.scene.past.present(asked.node))?;
    put_standing(out, name, asked.scene.past.standing(asked.node))?;
    put_address(out, b"agent", name, asked.scene.past.agent(asked.node))?;
    put_address_if(out, b"through", name, asked.scene.past.agent_of(asked.node))?;
    put_rest(alloc, out, asked)
}

/// Appends what was known of the first so many nodes.
#[tactic(auto, unfolding(crate::specs::Text::nodes_known))]
fn put_nodes(alloc: Global, out: &mut Bytes, scene: Scene<'_>, nodes: u8) -> Result<(), Memory>
    ensures { OnOk result (out.new ≡ out.old ++ nodes_known scene.entry.declarations.now (front_of scene.entry) nodes) }
{
    for number in 0..nodes {
        let asked = Inquiry {
            scene,
            node: NodeId(number),
        };
        put_node(alloc, out, asked)?;
    }
    Ok(())
}

/// Appends what was known of the node that is asked for, or of each.
fn put_known(
    alloc: Global,
    out: &mut Bytes,
    scene: Scene<'_>,
    node: Option<NodeId>,
) -> Result<(), Memory>
    requires { AreFew scene.declarations.now }
    ensures { OnOk result (out.new ≡ out.old ++ known_of scene.entry.declarations.now (front_of scene.entry) node) }
{
    match node {
        Some(node) => put_node(alloc, out, Inquiry { scene, node }),
        None => {
            let nodes = count(scene.declarations, Sort::Node) as u8;
            put_nodes(alloc, out, scene, nodes)
        }
    }
}

/// Appends the line of the moment.
fn put_moment(alloc: Global, out: &mut Bytes, moment: Moment) -> Result<(), Memory>
    ensures { OnOk result (out.new ≡ out.old ++ line_text (codes "at" ∷ decimal moment.0 ∷ [])) }
{
    let mut digits = Bytes::new(alloc);
    put_number(&mut digits, moment.0)?;
    put_line(out, &[b"at", digits.as_slice()])
}

/// What was known at a place of the history of a schedule: the moment, and then a line a question, of one node, or of each in the
/// order of declaration.
#[tactic(auto, unfolding(crate::specs::Text::known_text))]
pub fn known(alloc: Global, scene: Scene<'_>, node: Option<NodeId>) -> Result<Bytes, Memory>
    requires { AreFew scene.declarations.now }
    ensures { IfOk result (λ text. text ≡ known_text scene.entry.declarations.now (front_of scene.entry) node) }
{
    let mut text = Bytes::new(alloc);
    put_moment(alloc, &mut text, scene.past.moment())?;
    put_known(alloc, &mut text, scene, node)?;
    Ok(text)
}

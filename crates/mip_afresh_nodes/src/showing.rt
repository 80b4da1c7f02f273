//! The rows that a node shows.

ghost use Rattle.std.specs.Prelude.{◌≡◌, true, map, option_map, IfOk, OnOk};
ghost use Rattle.mip_history.specs.RunsLaws.{IsRun};
ghost use Rattle.mip_history.specs.Setup.{is_mobile_at};
ghost use Rattle.mip_history.specs.Runs.{notes};
ghost use Rattle.mip_history.specs.Nodes.{home_entry, shown};
ghost use Rattle.mip_afresh.specs.Tellings.{with_run};
ghost use Rattle.mip_afresh_bindings.specs.Showing.{row_seen};
ghost use Rattle.mip_afresh.specs.Roles.{IsAgentOf};
ghost use Rattle.mip_afresh_nodes.specs.Rows.{entry_of, AreShown};

use crate::keeping::accepted;
use crate::member::member_of;
use crate::standing::Standing;
use mip_afresh::{Role, Telling};
use mip_afresh_agent::Agent;
use mip_afresh_bindings::{Row, shown_rows};
use mip_entries::Entry;
use mip_rules_agent::HomeRow;
use mip_words::{Memory, NodeId};
use std::alloc::Global;

/// The entry of a row that a node shows.
fn entry_of(node: NodeId, row: &Row) -> Entry
    ensures { result ≡ entry_of node (row_seen row.now) }
{
    Entry::Row {
        node,
        home: row.home,
        binding: row.number,
        careof: row.careof,
        sequence: row.sequence,
        end: row.end,
        kept_until: row.kept_until,
    }
}

/// The entries of rows that a node shows.
fn entries_of(alloc: Global, node: NodeId, rows: &[Row]) -> Result<Vec<Entry>, Memory>
    ensures { IfOk result (λ v. v.items ≡ map (entry_of node) (map row_seen rows.now)) }
{
    let mut entries = Vec::new(alloc);
    for row in rows {
        entries.push(entry_of(node, row))?;
    }
    Ok(entries)
}

/// What a correspondent shows.
fn shown_by(alloc: Global, standing: &Standing<'_>) -> Result<Vec<Entry>, Memory>
    ensures { IfOk result (λ v. notes v.items standing.now.telling.run ≡ shown standing.now.telling.setup standing.now.member.node.0 standing.now.telling.run) }
{
    let telling = standing.telling;
    let member = standing.member;
    let accepted = accepted(alloc, telling, member.node)?;
    let rows = shown_rows(alloc, &accepted, telling.now())?;
    entries_of(alloc, member.node, &rows)
}

/// The entry of a home that a home agent has registered.
fn home_entry(node: NodeId, row: &HomeRow) -> Entry
    ensures { result ≡ home_entry node.0 row.now }
{
    Entry::Row {
        node,
        home: row.home,
        binding: 0,
        careof: row.careof,
        sequence: row.sequence,
        end: row.end,
        kept_until: row.end,
    }
}

/// The entries of the homes that a home agent has registered.
fn home_entries(alloc: Global, node: NodeId, rows: &[HomeRow]) -> Result<Vec<Entry>, Memory>
    ensures { IfOk result (λ v. v.items ≡ map (home_entry node.0) rows.now) }
{
    let mut entries = Vec::new(alloc);
    for row in rows {
        entries.push(home_entry(node, row))?;
    }
    Ok(entries)
}

/// What a home agent shows.
fn shown_by_agent(
    alloc: Global,
    telling: &Telling,
    node: NodeId,
    agent: &Agent,
) -> Result<Vec<Entry>, Memory>
    requires { IsAgentOf telling.now node.0 agent.now }
    ensures { IfOk result (λ v. notes v.items telling.now.run ≡ shown telling.now.setup node.0 telling.now.run) }
{
    let rows = agent.rows(alloc, telling.now())?;
    home_entries(alloc, node, &rows)
}

/// What the correspondent part of a mobile shows.
fn shown_by_mobile(alloc: Global, telling: &Telling, node: NodeId) -> Result<Vec<Entry>, Memory>
    requires run { IsRun telling.now.setup telling.now.run }
    requires mobile { is_mobile_at telling.now.setup node.0 ≡ true }
    ensures { IfOk result (λ v. notes v.items telling.now.run ≡ shown telling.now.setup node.0 telling.now.run) }
{
    let accepted = accepted(alloc, telling, node)?;
    let rows = shown_rows(alloc, &accepted, telling.now())?;
    entries_of(alloc, node, &rows)
}

/// What a node shows; none where there is no such node.
fn shown_by_node(
    alloc: Global,
    telling: &Telling,
    node: NodeId,
) -> Result<Option<Vec<Entry>>, Memory>
    requires { IsRun telling.now.setup telling.now.run }
    ensures { IfOk result (λ o. AreShown telling.now.setup telling.now.run node.0 (option_map (λ v. v.items) o)) }
{
    match telling.role(node) {
        Some(Role::Agent(agent)) => Ok(Some(shown_by_agent(alloc, telling, node, agent)?)),
        Some(Role::Mobile(_)) => Ok(Some(shown_by_mobile(alloc, telling, node)?)),
        _ => match member_of(telling, node)? {
            Some(member) => Ok(Some(shown_by(alloc, &Standing { telling, member })?)),
            None => Ok(None),
        },
    }
}

/// A node shows the rows of its binding cache, or the homes that it has registered, in order of home, then of number; one that is not
/// declared leaves `idle`.
pub fn show(alloc: Global, telling: &mut Telling, node: NodeId) -> Result<(), Memory>
    requires { IsRun telling.old.setup telling.old.run }
    ensures { OnOk result (telling.new ≡ with_run (shown telling.old.setup node.0 telling.old.run) telling.old) }
{
    match shown_by_node(alloc, telling, node)? {
        Some(entries) => telling.note_all(entries),
        None => telling.idle(),
    }
}

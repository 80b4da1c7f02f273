//! The configuration of a hub read from its text.

ghost use Rattle.std.specs.Prelude.{◌≡◌, ◌+◌, ◌<◌, ◌^◌, length};
ghost use Rattle.std.specs.List.{list_any};
ghost use Rattle.mip_lines.specs.Cutting.{texts};
ghost use Rattle.mip_schedule.specs.Faults.{GivesText};
ghost use Rattle.mip_drafts.specs.Adding.{Becomes};
ghost use Rattle.mip_hub.specs.HubConfigs.{content, parts_content};
ghost use Rattle.mip_hub.specs.Reading.{is_copies, is_told, line_onto, reading};

use crate::hub_config::HubConfig;
use crate::hub_line::HubLine;
use crate::hub_lines::HubLines;
use crate::line_rows::line_fields;
use mip_config::port_line;
use mip_drafts::{Cursor, Draft, read_lines};
use mip_schedule::{ScheduleFault, version_line};
use mip_symbols::{LineFault, Reason};
use std::alloc::Global;

/// How many lines there may be behind the first two.
const MOST_LINES: usize = 1000;

/// What a text holds.
#[derive(Drop)]
pub struct Parts {
    port: u16,
    lines: HubLines,
}

/// Whether a line says how often the datagram of this turn is sent on.
pub(crate) fn is_copies(turn: u32, line: &HubLine) -> bool
    ensures { result ≡ is_copies turn line.now }
{
    match line {
        HubLine::Copies { turn: when, .. } => *when == turn,
        _ => false,
    }
}

fn has_copies(lines: &[HubLine], turn: u32) -> bool
    ensures { result ≡ list_any (is_copies turn) lines.now }
{
    lines.iter().any(|told| is_copies(turn, told))
}

/// Whether the copies of this line's turn are told before.
fn is_told(lines: &[HubLine], line: HubLine) -> bool
    ensures { result ≡ is_told lines.now line }
{
    match line {
        HubLine::Copies { turn, .. } => has_copies(lines, turn),
        _ => false,
    }
}

#[tactic(auto, unfolding(crate::specs::Reading::line_onto, crate::specs::Reading::judged))]
fn add_line(lines: &mut HubLines, row: &[&[u8]]) -> Result<(), LineFault>
    ensures { Becomes lines.new result (line_onto lines.old (texts row.now)) }
{
    let line = line_fields(row)?;
    if MOST_LINES <= lines.len() {
        return Err(LineFault::Bad(Reason::Limit));
    }
    if is_told(lines.as_slice(), line) {
        return Err(LineFault::Bad(Reason::Clash));
    }
    lines.push(line)?;
    Ok(())
}

impl Draft for HubLines {
    ghost onto = { line_onto };

    fn add(&mut self, _alloc: Global, row: &[&[u8]]) -> Result<(), LineFault> {
        add_line(self, row)
    }
}

#[tactic(auto, unfolding(crate::specs::Reading::reading))]
fn read_parts(alloc: Global, text: &[u8]) -> Result<Parts, ScheduleFault>
    requires { length text.now + 1 < 2 ^ 32 }
    ensures { GivesText parts_content result (reading text.now) }
{
    let (_, rest) = version_line(1, text)?;
    let (port, rest) = port_line(2, rest)?;
    let mut lines = HubLines::new(alloc);
    read_lines(alloc, &mut lines, Cursor { line: 3, rest })?;
    Ok(Parts { port, lines })
}

/// Reads the configuration of a hub. A text that is none is answered with its first bad line, counted from 1, and the first reason
/// that applies to it.
pub fn read_hub(alloc: Global, text: &[u8]) -> Result<HubConfig, ScheduleFault>
    requires { length text.now + 1 < 2 ^ 32 }
    ensures { GivesText content result (reading text.now) }
{
    match read_parts(alloc, text) {
        Ok(parts) => Ok(HubConfig {
            port: parts.port,
            lines: parts.lines,
        }),
        Err(fault) => Err(fault),
    }
}

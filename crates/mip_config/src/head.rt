//! The first four lines: the version, the seed, the number of the node and its port.

ghost use Rattle.std.specs.Prelude.{Err, ◌+◌, ◌<◌, ◌≤◌, length, IfOk};
ghost use Rattle.mip_lines.specs.Cutting.{rows_of};
ghost use Rattle.mip_schedule.specs.Faults.{GivesText};
ghost use Rattle.mip_config.specs.Heads.{head_seen};
ghost use Rattle.mip_config.specs.Reading as reading;

use crate::rows::port;
use mip_schedule::{ScheduleFault, head_field, seed_line, version_line};
use mip_symbols::kinds::u8_in;
use mip_words::NodeId;

/// What the first four lines say, and the text behind them.
#[derive(Drop)]
pub struct Head<'a> {
    pub seed: [u8; 32],
    pub node: NodeId,
    pub port: u16,
    pub rest: &'a [u8],
}

#[tactic(auto, unfolding(crate::specs::Reading::self_line))]
fn self_line(text: &[u8]) -> Result<(u8, &[u8]), ScheduleFault>
    ensures exact { GivesText (λ p. (p.0, rows_of p.1.now)) result (reading.self_line (rows_of text.now)) }
    ensures short { IfOk result (λ p. length p.1.now < length text.now) }
{
    let (field, rest) = head_field(b"self", 3, text)?;
    match u8_in(0, 31, field) {
        Ok(node) => Ok((node, rest)),
        Err(why) => Err(ScheduleFault::Bad { line: 3, why }),
    }
}

/// The port that is listened on, in the line with this number, and the text behind it.
#[tactic(auto, unfolding(crate::specs::Reading::port_line))]
pub fn port_line(line: u32, text: &[u8]) -> Result<(u16, &[u8]), ScheduleFault>
    ensures exact { GivesText (λ p. (p.0, rows_of p.1.now)) result (reading.port_line line (rows_of text.now)) }
    ensures short { IfOk result (λ p. length p.1.now < length text.now) }
{
    let (field, rest) = head_field(b"port", line, text)?;
    match port(field) {
        Ok(port) => Ok((port, rest)),
        Err(why) => Err(ScheduleFault::Bad { line, why }),
    }
}

/// The head of a text.
#[tactic(auto, unfolding(crate::specs::Reading::head_of))]
pub fn read_head(text: &[u8]) -> Result<Head<'_>, ScheduleFault>
    ensures exact { GivesText head_seen result (reading.head_of (rows_of text.now)) }
    ensures short { IfOk result (λ h. length h.rest.now + 4 ≤ length text.now) }
{
    let (_, rest) = version_line(1, text)?;
    let (seed, rest) = seed_line(rest)?;
    let (node, rest) = self_line(rest)?;
    let (port, rest) = port_line(4, rest)?;
    Ok(Head {
        seed,
        node: NodeId(node),
        port,
        rest,
    })
}

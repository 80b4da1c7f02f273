//! A configuration read from its text.

ghost use Rattle.std.specs.Prelude.{◌+◌, ◌<◌, ◌^◌, length};
ghost use Rattle.mip_schedule.specs.Faults.{GivesText};
ghost use Rattle.mip_config.specs.Configs.{content};
ghost use Rattle.mip_config.specs.ConfigsLaws.{parts_content};
ghost use Rattle.mip_config.specs.Reading.{reading};

use crate::config::Config;
use crate::config_draft::ConfigDraft;
use crate::head::read_head;
use crate::payload::Payload;
use crate::role::Role;
use mip_drafts::{Cursor, read_lines};
use mip_frames::Routes;
use mip_schedule::ScheduleFault;
use mip_symbols::Reason;
use mip_words::{Address, Items, NodeId};
use std::alloc::Global;

/// What a text holds.
#[derive(Drop)]
pub struct Parts {
    seed: [u8; 32],
    node: NodeId,
    port: u16,
    routes: Routes,
    fallback: Option<u16>,
    role: Role,
    serves: Items<Address>,
    payloads: Items<Payload>,
}

#[tactic(auto, unfolding(crate::specs::Reading::reading))]
fn read_parts(alloc: Global, text: &[u8]) -> Result<Parts, ScheduleFault>
    requires { length text.now + 1 < 2 ^ 32 }
    ensures { GivesText parts_content result (reading text.now) }
{
    let head = read_head(text)?;
    let mut draft = ConfigDraft::new(alloc);
    let from = Cursor {
        line: 5,
        rest: head.rest,
    };
    let line = read_lines(alloc, &mut draft, from)?;
    let Some(role) = draft.role else {
        return Err(ScheduleFault::Bad {
            line,
            why: Reason::Form,
        });
    };
    let seed = head.seed;
    Ok(Parts {
        seed,
        node: head.node,
        port: head.port,
        routes: draft.routes,
        fallback: draft.fallback,
        role,
        serves: draft.serves,
        payloads: draft.payloads,
    })
}

/// Reads the configuration of a node. A text that is none is answered with its first bad line, counted from 1, and the first reason
/// that applies to it.
pub fn read_config(alloc: Global, text: &[u8]) -> Result<Config, ScheduleFault>
    requires { length text.now + 1 < 2 ^ 32 }
    ensures { GivesText content result (reading text.now) }
{
    match read_parts(alloc, text) {
        Ok(parts) => {
            let seed = parts.seed;
            Ok(Config {
                seed,
                node: parts.node,
                port: parts.port,
                routes: parts.routes,
                fallback: parts.fallback,
                role: parts.role,
                serves: parts.serves,
                payloads: parts.payloads,
            })
        }
        Err(fault) => Err(fault),
    }
}
